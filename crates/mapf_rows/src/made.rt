//! Grids, paths and plans, each made of the words of a test, and paths as texts.
use mapf_model::{Cell, Grid, Path, Plan};
use std::alloc::{AllocError, Global};
use std::test::Fail;

/// The grid of these rows, in which a dot is a free cell.
pub fn grid_of(alloc: Global, rows: &str) -> Result<Grid, Fail> {
    let mut free = Vec::new(alloc);
    let mut width = 0;
    let mut height = 0;
    for row in rows.split_whitespace() {
        width = row.len();
        height = u32::checked_add(height, 1).ok_or("too many rows")?;
        for byte in row.as_bytes() {
            free.push(*byte == b'.')?;
        }
    }
    let width = u32::try_from(width).ok().ok_or("too many columns")?;
    Ok(Grid::of(width, height, free).ok_or("no grid")?)
}

/// The path through the cells of these numbers.
fn path_of(alloc: Global, numbers: &[u32]) -> Result<Path, Fail> {
    let mut cells = Vec::new(alloc);
    for number in numbers {
        cells.push(Cell(*number))?;
    }
    Ok(Path::of(cells).ok_or("no path")?)
}

/// The plan of these paths, each a list of cell numbers.
pub fn plan_of(alloc: Global, paths: &[&[u32]]) -> Result<Plan, Fail> {
    let mut all = Vec::new(alloc);
    for numbers in paths {
        all.push(path_of(alloc, numbers)?)?;
    }
    Ok(Plan::of(all).ok_or("no plan")?)
}

/// The numbers of a path's cells.
pub fn path_text(alloc: Global, path: &Path) -> Result<String, AllocError> {
    let mut text = String::from_str(alloc, "path")?;
    for cell in path.cells() {
        text.push_str(&format!(in alloc; " {}", cell.0)?)?;
    }
    Ok(text)
}
