//! Where in a list of cells each cell stands, without a look at the others. A sweep and the layers find states by it.
use mapf_model::{Cell, OutOfMemory};
use std::alloc::Global;

/// For each cell of a grid a place in some list of cells. It is never cleared: a place counts only if it lies within
/// the part of the list that is asked for, and the cell stands there.
#[derive(Debug, Drop)]
pub struct CellPlaces {
    places: Vec<usize>,
}

impl CellPlaces {
    /// Returns the places for a grid of so many cells.
    pub fn of(alloc: Global, cells: usize) -> Result<CellPlaces, OutOfMemory> {
        Ok(CellPlaces {
            places: vec![in alloc; 0; cells]?,
        })
    }

    /// Returns how many cells the grid has.
    pub fn len(&self) -> usize {
        self.places.len()
    }

    /// Notes that the cell stands at this place.
    #[inline(always)]
    pub fn put(&mut self, cell: Cell, place: usize) {
        if let Some(entry) = self.places.get_mut(cell.0 as usize) {
            *entry = place;
        }
    }

    /// Returns the place of the cell in the list, if it lies from `low` to before `high`.
    #[inline(always)]
    pub fn find(&self, cells: &[Cell], low: usize, high: usize, cell: Cell) -> Option<usize> {
        let place = *self.places.get(cell.0 as usize)?;
        if place >= low && place < high && cells.get(place) == Some(&cell) {
            Some(place)
        } else {
            None
        }
    }

    /// Returns the place that was noted for the cell last, which may be stale.
    #[inline(always)]
    pub fn noted(&self, cell: Cell) -> Option<usize> {
        self.places.get(cell.0 as usize).copied()
    }
}
