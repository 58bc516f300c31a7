//! Breadth-first search from a goal, which fills a table of distances. The tables of `Distances` are made here.
ghost use Rattle.std.specs.Prelude.{◌≡◌, ◌+◌, ◌<◌, ◌≤◌, ◌++◌, ◌∷◌, ◌↔◌, [], IfOk, IfSome, IsTrue, map, slice_set};
ghost use Rattle.std.specs.Prelude.{vec_capacity, vec_len};
ghost use Rattle.mapf_model.specs.Grid.{IsFree, IsGridMap, free_cell_count};
ghost use Rattle.mapf_distance.specs.Marks.{entry_of, is_open, first_entry};
ghost use Rattle.mapf_distance.specs.Distances.{AreDistances};
ghost use Rattle.mapf_distance.specs.Wave.{IsEntered, IsWave, source_of};

use mapf_model::{Cell, Grid, OutOfMemory};
use std::alloc::Global;

/// The entry of a blocked cell. Every distance is smaller.
pub const BLOCKED: u32 = u32::MAX;

/// The entry of a free cell from which no steps lead to the goal. Every distance is smaller.
pub const UNREACHED: u32 = u32::MAX - 1;

/// Breadth-first search from the goal: the table of the distances found so far, and the cells that were reached,
/// nearest first.
#[derive(Drop)]
struct Wave {
    table: Vec<u32>,
    reached: Vec<Cell>,
}

/// Returns the entries of all cells, by their number: the distances to the goal.
pub fn table(alloc: Global, grid: &Grid, goal: Cell) -> Result<Vec<u32>, OutOfMemory>
    requires { IsFree grid.now goal }
    ensures open { IfOk result (λ table. map is_open table.items ≡ grid.now.free) }
    ensures exact { IfOk result (λ table. AreDistances grid.now goal table.items) }
{
    let table = unreached(alloc, grid)?;
    let mut wave = Wave {
        reached: Vec::with_capacity(alloc, table.len())?,
        table,
    };
    wave.reach(goal, 0);
    wave.spread(grid);
    Ok(wave.table)
}

// Returns the table before any cell is reached.
fn unreached(alloc: Global, grid: &Grid) -> Result<Vec<u32>, OutOfMemory>
    ensures entries { IfOk result (λ table. table.items ≡ map first_entry grid.now.free) }
    ensures shape { IsGridMap grid.now }
{
    let cells = grid.width() * grid.height();
    let mut table = Vec::with_capacity(alloc, cells as usize)?;
    for cell in 0..cells {
        table.push_reserved(if grid.is_free(Cell(cell)) {
            UNREACHED
        } else {
            BLOCKED
        });
    }
    Ok(table)
}

impl Wave {
    fn entry(&self, cell: Cell) -> u32
        requires { cell < vec_len self.now.table }
        ensures { result ≡ entry_of self.now.table.items cell }
    {
        self.table[cell.0 as usize]
    }

    fn reach(&mut self, cell: Cell, distance: u32)
        requires inside { cell < vec_len self.old.table }
        requires room { vec_len self.old.reached < vec_capacity self.old.reached }
        ensures table { self.new.table.items ≡ slice_set self.old.table.items cell distance }
        ensures reached { self.new.reached.items ≡ self.old.reached.items ++ cell ∷ [] }
        ensures capacity { vec_capacity self.new.reached ≡ vec_capacity self.old.reached }
    {
        self.table[cell.0 as usize] = distance;
        self.reached.push_reserved(cell);
    }

    fn is_unreached(&self, cell: Cell) -> bool
        ensures { IsTrue result ↔ (entry_of self.now.table.items cell ≡ UNREACHED) }
    {
        self.table.get(cell.0 as usize) == Some(&UNREACHED)
    }

    // Enters the distance of the cell at a place, if there is one and it wasn't reached.
    #[inline(always)]
    fn enter(&mut self, place: Option<Cell>, distance: u32)
        requires inside { IfSome place (λ to. entry_of self.old.table.items to ≡ UNREACHED
            → vec_len self.old.reached < vec_capacity self.old.reached) }
        ensures entered { IsEntered place distance self.old.table.items self.old.reached.items
            self.new.table.items self.new.reached.items }
        ensures capacity { vec_capacity self.new.reached ≡ vec_capacity self.old.reached }
    {
        if let Some(to) = place {
            if self.is_unreached(to) {
                self.reach(to, distance);
            }
        }
    }

    // Expands the cell at this index of the reached ones.
    fn expand(&mut self, grid: &Grid, place: usize)
        requires wave { IsWave grid.now place self.old.table.items self.old.reached.items }
        requires place { place < vec_len self.old.reached }
        requires room { free_cell_count grid.now ≤ vec_capacity self.old.reached }
        ensures wave { IsWave grid.now (place + 1) self.new.table.items self.new.reached.items }
        ensures source { source_of self.new.reached.items ≡ source_of self.old.reached.items }
        ensures capacity { vec_capacity self.new.reached ≡ vec_capacity self.old.reached }
    {
        let cell = self.reached[place];
        let distance = self.entry(cell) + 1;
        let [above, left, _, right, below] = cell.neighbourhood(grid.width());
        self.enter(above, distance);
        self.enter(left, distance);
        self.enter(right, distance);
        self.enter(below, distance);
    }

    // Expands all cells that are reached.
    fn spread(&mut self, grid: &Grid)
        requires wave { IsWave grid.now 0 self.old.table.items self.old.reached.items }
        requires room { free_cell_count grid.now ≤ vec_capacity self.old.reached }
        ensures wave { IsWave grid.now (vec_len self.new.reached) self.new.table.items self.new.reached.items }
        ensures source { source_of self.new.reached.items ≡ source_of self.old.reached.items }
    {
        let mut done = 0;
        while done < self.reached.len() {
            self.expand(grid, done);
            done += 1;
        }
    }
}
