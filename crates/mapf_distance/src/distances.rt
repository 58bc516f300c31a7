//! The table of distances to one goal, and the path that is read off it. The search for one agent uses it, and so does
//! the checker.
ghost use Rattle.std.specs.Prelude.{◌≡◌, ℕ, ◌+◌, ◌-◌, ◌<◌, ◌≤◌, ◌↔◌, length, IfOk, IfSome, IfNone, IsTrue, OnSome};
ghost use Rattle.mapf_model.specs.Distance.{IsDistance, IsUnreachable};
ghost use Rattle.mapf_model.specs.Grid.{IsFree, Step, free_cell_count};
ghost use Rattle.mapf_model.specs.Limits.{most_path_cells, most_cells};
ghost use Rattle.mapf_model.specs.Neighbours.{neighbourhood};
ghost use Rattle.mapf_model.specs.Path.{at, IsPath, IsCost, IsTight};
ghost use Rattle.mapf_distance.specs.Distances.{IsLeastDescent, IsReachable};

use crate::wave;
use crate::wave::UNREACHED;
use mapf_model::{Cell, Grid, Neighbourhoods, OutOfMemory, Path};
use std::alloc::Global;
use std::marker::Model;

/// The least number of steps from each cell of a grid to one goal.
#[derive(Debug, Drop)]
pub struct Distances {
    // The neighbourhoods of the grid's cells, its height and the goal, which give the numbers of the table their meaning.
    neighbourhoods: Neighbourhoods,
    height: u32,
    goal: Cell,
    // An entry for each cell: its distance, or that it is blocked, or that the goal can't be reached from it.
    table: Vec<u32>,
}

impl Model for Distances {
    ghost use Rattle.mapf_distance.specs.Marks.{grid_of_table};
    ghost use Rattle.mapf_distance.specs.Distances.{GoalMap, AreDistances};

    ghost Value = { GoalMap };

    ghost view = { λ d. record { grid = grid_of_table d.neighbourhoods d.height d.table.items; goal = d.goal } };

    ghost invariant = { λ d. AreDistances (grid_of_table d.neighbourhoods d.height d.table.items) d.goal d.table.items };
}

impl Distances {
    /// Returns the distances of all cells to the goal.
    pub fn of(alloc: Global, grid: &Grid, goal: Cell) -> Result<Distances, OutOfMemory>
        requires { IsFree grid.now goal }
        ensures grid { IfOk result (λ distances. distances.grid ≡ grid.now) }
        ensures goal { IfOk result (λ distances. distances.goal ≡ goal) }
    {
        Ok(Distances {
            neighbourhoods: Neighbourhoods::of(grid),
            height: grid.height(),
            goal,
            table: wave::table(alloc, grid, goal)?,
        })
    }

    /// Returns the least number of steps from the cell to the goal. None if no steps lead there, as from a blocked cell
    /// and from outside the grid.
    pub fn get(&self, cell: Cell) -> Option<u32>
        // A distance is the least number of steps to the goal.
        ensures some { IfSome result (λ distance. IsDistance self.now.grid self.now.goal cell distance) }
        // A distance is less than the number of free cells.
        ensures small { IfSome result (λ distance. distance < free_cell_count self.now.grid) }
        ensures bounded { IfSome result (λ distance. distance < most_cells) }
        ensures reachable { OnSome result (IsReachable self.now.grid self.now.goal cell) }
        // No distance is returned only if the goal can't be reached.
        ensures none { IfNone result (IsUnreachable self.now.grid self.now.goal cell) }
    {
        match self.table.get(cell.0 as usize) {
            Some(&distance) if distance < UNREACHED => Some(distance),
            _ => None,
        }
    }

    /// Returns a shortest path from the cell to the goal: of all these the lexicographically least by cell numbers. So
    /// each step goes to the nearer cell of the least number.
    pub fn descend(&self, alloc: Global, cell: Cell) -> Result<Path, OutOfMemory>
        requires { IsReachable self.now.grid self.now.goal cell }
        // The cells are a path.
        ensures path { IfOk result (IsPath self.now.grid) }
        // It begins at the cell.
        ensures start { IfOk result (λ path. at path 0 ≡ cell) }
        // It ends at the goal.
        ensures goal { IfOk result (λ path. at path (length path - 1) ≡ self.now.goal) }
        // It has as many steps as the distance.
        ensures shortest { IfOk result (λ path. IsDistance self.now.grid self.now.goal cell (length path - 1)) }
        ensures cost { IfOk result (λ path. IsCost self.now.goal path (length path - 1)) }
        // It ends with its last arrival.
        ensures tight { IfOk result IsTight }
        // At each step it goes to the least nearer cell by number.
        ensures least { IfOk result (IsLeastDescent self.now.grid self.now.goal) }
        ensures few { IfOk result (λ path. length path ≤ most_path_cells) }
    {
        let Some(distance) = self.get(cell) else {
            unreachable!()
        };
        let mut cells = Vec::with_capacity(alloc, distance as usize + 1)?;
        let mut here = cell;
        cells.push_reserved(here);
        for steps in 0..distance {
            here = self.nearer(here, distance - steps - 1);
            cells.push_reserved(here);
        }
        Ok(Path::of(cells).unwrap())
    }

    /// Returns the cell of the least number that is one step from this one and at this distance from the goal, one less
    /// than the distance of this cell.
    #[inline(always)]
    pub fn nearer(&self, cell: Cell, distance: u32) -> Cell
        requires { IsDistance self.now.grid self.now.goal cell (distance + 1) }
        ensures step { Step self.now.grid cell result }
        ensures nearer { IsDistance self.now.grid self.now.goal result distance }
        ensures least { (other : ℕ) → Step self.now.grid cell other
            → IsDistance self.now.grid self.now.goal other distance → result ≤ other }
    {
        for beside in self.beside(cell) {
            if let Some(next) = beside {
                if self.is_at(next, distance) {
                    return next;
                }
            }
        }
        unreachable!()
    }

    #[inline(always)]
    fn is_at(&self, cell: Cell, distance: u32) -> bool
        ensures { IsTrue result ↔ IsDistance self.now.grid self.now.goal cell distance }
    {
        self.get(cell) == Some(distance)
    }

    /// Returns the neighbourhood of a free cell: the cells above and left, the cell itself, and those right and below, in
    /// rising order.
    #[inline(always)]
    pub fn beside(&self, cell: Cell) -> [Option<Cell>; 5]
        requires { IsFree self.now.grid cell }
        ensures cells { result ≡ neighbourhood self.now.grid.width cell }
        ensures wide { 0 < self.now.grid.width }
    {
        self.neighbourhoods.around(cell)
    }
}
