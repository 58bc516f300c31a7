//! The paths that a search has found. Nodes hold their numbers.
use mapf_model::{Cell, OutOfMemory, Path};
use std::alloc::Global;

/// Paths by their numbers.
#[derive(Debug, Drop)]
pub struct Paths {
    list: Vec<Path>,
}

impl Paths {
    /// Returns no paths.
    pub fn new(alloc: Global) -> Paths {
        Paths {
            list: Vec::new(alloc),
        }
    }

    /// Keeps a path, and returns its number.
    pub fn add(&mut self, path: Path) -> Result<u32, OutOfMemory> {
        let number = u32::try_from(self.list.len()).map_err(|_| OutOfMemory)?;
        self.list.push(path)?;
        Ok(number)
    }

    /// Returns the cells of a path, none if there is no such path.
    pub fn cells(&self, number: u32) -> &[Cell] {
        match self.list.get(number as usize) {
            Some(path) => path.cells(),
            None => &[],
        }
    }
}
