//! A* from a goal towards a start, for the distance of the start and for a shortest path.
ghost use Rattle.std.specs.Prelude.{ℕ, ◌≡◌, ◌+◌, ◌<◌, ◌≤◌, ◌^◌, ◌↔◌, [], IfNone, IfOk, IfSome};
ghost use Rattle.std.specs.Prelude.{Contains, OnOk, OnSome, IsTrue, if◌then◌else◌, length, slice_set, vec_len};
ghost use Rattle.mapf_model.specs.Distance.{IsDistance, IsUnreachable};
ghost use Rattle.mapf_model.specs.Grid.{GridMap, IsFree, column, row};
ghost use Rattle.mapf_distance.specs.Distances.{IsDistanceOrNone};
ghost use Rattle.mapf_distance.specs.Marks.{entry_of};
ghost use Rattle.mapf_distance.specs.Search.{IsAim, IsEnded, IsFound, IsPassed, IsPut, IsRelaxed, IsSameSearch};
ghost use Rattle.mapf_distance.specs.Search.{IsSearchAt, IsSearchOn, effort, estimate, gap, open_of, value_of};

use crate::wave::UNREACHED;
use mapf_model::{Cell, Grid, Neighbourhoods, OutOfMemory};
use std::alloc::Global;
use std::mem;

/// Returns the least number of steps from the start to the goal, None if no steps lead there. The search runs from the
/// goal towards the start and ends once the start's distance is known, so it reaches few cells that are farther from
/// both.
pub fn distance_between(
    alloc: Global,
    grid: &Grid,
    start: Cell,
    goal: Cell,
) -> Result<Option<u32>, OutOfMemory>
    requires start { IsFree grid.now start }
    requires goal { IsFree grid.now goal }
    ensures { IfOk result (IsDistanceOrNone grid.now goal start) }
{
    let mut search = Search::of(alloc, grid, start, goal)?;
    search.spread(grid)?;
    Ok(search.found())
}

/// A* from a goal towards a start (Hart et al. 1968): cells are expanded by rising f-value, that is, the steps found
/// between the cell and the goal, plus the Manhattan distance from the start. A step keeps the f-value or raises it
/// by 2.
#[derive(Drop)]
pub struct Search {
    start: Cell,
    goal: Cell,
    // The f-value of the cells that are expanded now.
    level: u64,
    // An entry for each cell: the least number of steps to the goal found so far, or that none was found.
    table: Vec<u32>,
    // The open cells of this f-value. Those that a step along a column reached are in a list of their own.
    due: Vec<Cell>,
    next_row: Vec<Cell>,
    // The open cells of the f-value that is greater by 2.
    later: Vec<Cell>,
}

/// What a search needs of its grid and its start for each cell that it expands.
#[derive(Drop)]
struct Aim {
    neighbourhoods: Neighbourhoods,
    column: u32,
    row: u32,
}

impl Search {
    /// Returns the search that has reached only its goal.
    pub fn of(alloc: Global, grid: &Grid, start: Cell, goal: Cell) -> Result<Search, OutOfMemory>
        requires start { IsFree grid.now start }
        requires goal { IsFree grid.now goal }
        ensures search { IfOk result (IsSearchOn grid.now) }
        ensures start { IfOk result (λ search. search.start ≡ start) }
        ensures goal { IfOk result (λ search. search.goal ≡ goal) }
    {
        let cells = (grid.width() * grid.height()) as usize;
        let mut search = Search {
            start,
            goal,
            level: manhattan_distance(grid.xy(goal), grid.xy(start)),
            table: vec![in alloc; UNREACHED; cells]?,
            due: Vec::new(alloc),
            next_row: Vec::new(alloc),
            later: Vec::new(alloc),
        };
        search.table[goal.0 as usize] = 0;
        search.due.push(goal)?;
        Ok(search)
    }

    /// Returns the cell from which the search looks for the distance.
    pub fn start(&self) -> Cell
        ensures { result ≡ self.now.start }
    {
        self.start
    }

    /// Returns the distance of the start, once it is known. Once no cell is open, None says that no steps lead from
    /// there to the goal.
    pub fn found(&self) -> Option<u32>
        requires { self.now.start < vec_len self.now.table }
        ensures distance { (grid : GridMap) → IsSearchOn grid self.now
            → IfSome result (IsDistance grid self.now.goal self.now.start) }
        ensures small { IfSome result (λ distance. distance < UNREACHED) }
        ensures within { IfSome result (λ distance. distance ≤ self.now.level) }
        ensures none { (grid : GridMap) → IsSearchOn grid self.now → IsEnded self.now
            → IfNone result (IsUnreachable grid self.now.goal self.now.start) }
    {
        if self.is_found() {
            Some(self.entry(self.start))
        } else {
            None
        }
    }

    fn entry(&self, cell: Cell) -> u32
        requires { cell < vec_len self.now.table }
        ensures { result ≡ entry_of self.now.table.items cell }
    {
        self.table[cell.0 as usize]
    }

    /// Returns whether this is the cell's entry.
    pub fn has_entry(&self, cell: Cell, distance: u32) -> bool
        requires { distance < UNREACHED }
        ensures { IsTrue result ↔ (entry_of self.now.table.items cell ≡ distance) }
    {
        self.table.get(cell.0 as usize) == Some(&distance)
    }

    // Returns whether the start was reached, and can't be nearer than what was found.
    fn is_found(&self) -> bool
        requires { self.now.start < vec_len self.now.table }
        ensures { IsTrue result ↔ IsFound self.now }
    {
        let distance = self.entry(self.start);
        distance < UNREACHED && distance as u64 <= self.level
    }

    fn aim(&self, grid: &Grid) -> Aim
        requires { IsSearchOn grid.now self.now }
        ensures { IsAim grid.now self.now.start result }
    {
        let neighbourhoods = Neighbourhoods::of(grid);
        let (column, row) = grid.xy(self.start);
        Aim {
            neighbourhoods,
            column,
            row,
        }
    }

    /// Expands cells until the start's distance is known, or no cell is open. Of the cells of an f-value one that was
    /// reached last comes first. So few cells are expanded where many paths are equally short.
    pub fn spread(&mut self, grid: &Grid) -> Result<(), OutOfMemory>
        requires { IsSearchOn grid.now self.old }
        ensures search { OnOk result (IsSearchOn grid.now self.new) }
        ensures start { OnOk result (self.new.start ≡ self.old.start) }
        ensures goal { OnOk result (self.new.goal ≡ self.old.goal) }
        ensures ended { OnOk result (IsEnded self.new) }
    {
        let aim = self.aim(grid);
        self.dive(grid, &aim)?;
        while !self.is_found() {
            if !self.rise() {
                return Ok(());
            }
            self.dive(grid, &aim)?;
        }
        Ok(())
    }

    /// Expands all cells up to the f-value at which the start's distance is known, or all that lead to the goal. In the
    /// first case each cell of a shortest path has its distance as its entry. Of the cells of an f-value those of a row
    /// come before those of the next one. So most cells are reached in their least number of steps first, and few are
    /// open.
    pub fn settle(&mut self, grid: &Grid) -> Result<(), OutOfMemory>
        requires { IsSearchOn grid.now self.old }
        ensures search { OnOk result (IsSearchOn grid.now self.new) }
        ensures start { OnOk result (self.new.start ≡ self.old.start) }
        ensures goal { OnOk result (self.new.goal ≡ self.old.goal) }
        ensures ended { OnOk result (IsEnded self.new) }
        ensures swept { OnOk result (open_of self.new ≡ []) }
    {
        let aim = self.aim(grid);
        self.sweep(grid, &aim)?;
        while !self.is_found() {
            if !self.rise() {
                return Ok(());
            }
            self.sweep(grid, &aim)?;
        }
        Ok(())
    }

    // Moves to the next f-value, if a cell is open. Returns false otherwise.
    fn rise(&mut self) -> bool
        requires swept { open_of self.old ≡ [] }
        requires low { (cell : ℕ) → Contains self.old.later.items cell → self.old.level < 2 ^ 34 }
        ensures search { (grid : GridMap) → IsSearchOn grid self.old → IsSearchOn grid self.new }
        ensures level { IsTrue result → self.new.level ≡ self.old.level + 2 }
        ensures low { IsTrue result → self.new.level < 2 ^ 35 }
        ensures start { self.new.start ≡ self.old.start }
        ensures goal { self.new.goal ≡ self.old.goal }
        ensures table { self.new.table.items ≡ self.old.table.items }
        ensures ended { (IsTrue result → ⊥) → (self.new ≡ self.old) × (self.new.later.items ≡ []) }
    {
        if self.later.is_empty() {
            return false;
        }
        mem::swap(&mut self.due, &mut self.later);
        self.level += 2;
        true
    }

    // Expands cells of this f-value, one that was reached last first, until the start's distance is known or none is
    // left.
    fn dive(&mut self, grid: &Grid, aim: &Aim) -> Result<(), OutOfMemory>
        requires search { IsSearchOn grid.now self.old }
        requires aim { IsAim grid.now self.old.start aim.now }
        ensures search { OnOk result (IsSearchOn grid.now self.new) }
        ensures same { OnOk result (IsSameSearch self.old self.new) }
        ensures swept { OnOk result ((IsFound self.new → ⊥) → open_of self.new ≡ []) }
    {
        while !self.is_found() {
            let Some(cell) = self.newest() else {
                return Ok(());
            };
            self.look_at(grid, aim, cell)?;
        }
        Ok(())
    }

    // Expands all cells of this f-value.
    fn sweep(&mut self, grid: &Grid, aim: &Aim) -> Result<(), OutOfMemory>
        requires search { IsSearchOn grid.now self.old }
        requires aim { IsAim grid.now self.old.start aim.now }
        ensures search { OnOk result (IsSearchOn grid.now self.new) }
        ensures same { OnOk result (IsSameSearch self.old self.new) }
        ensures swept { OnOk result (open_of self.new ≡ []) }
    {
        while let Some(cell) = self.oldest() {
            self.look_at(grid, aim, cell)?;
        }
        Ok(())
    }

    // Removes and returns an open cell of this f-value. A cell has one step along its column at most that keeps the
    // f-value, so the next row has at most one cell here, and it was reached last.
    fn newest(&mut self) -> Option<Cell>
        ensures some { (grid : GridMap) → IsSearchOn grid self.old → IfSome result (λ cell.
            IsSearchAt grid cell self.new × IsPassed grid cell self.new) }
        ensures none { IfNone result (open_of self.new ≡ []) }
        ensures kept { (grid : GridMap) → IsSearchOn grid self.old → IfNone result (IsSearchOn grid self.new) }
        ensures effort { OnSome result (effort self.new + 1 ≤ effort self.old) }
        ensures same { IsSameSearch self.old self.new }
    {
        if self.next_row.is_empty() {
            self.due.pop()
        } else {
            self.next_row.pop()
        }
    }

    // Removes and returns an open cell of this f-value, one of the next row only if there is no other.
    fn oldest(&mut self) -> Option<Cell>
        ensures some { (grid : GridMap) → IsSearchOn grid self.old → IfSome result (λ cell.
            IsSearchAt grid cell self.new × IsPassed grid cell self.new) }
        ensures none { IfNone result (open_of self.new ≡ []) }
        ensures kept { (grid : GridMap) → IsSearchOn grid self.old → IfNone result (IsSearchOn grid self.new) }
        ensures effort { OnSome result (effort self.new + 1 ≤ effort self.old) }
        ensures same { IsSameSearch self.old self.new }
    {
        if !self.due.is_empty() {
            return self.due.pop();
        }
        mem::swap(&mut self.due, &mut self.next_row);
        self.due.pop()
    }

    // Expands the cell, if it is of this f-value. Otherwise it was reached in fewer steps since it was opened.
    #[inline(always)]
    fn look_at(&mut self, grid: &Grid, aim: &Aim, cell: Cell) -> Result<(), OutOfMemory>
        requires search { IsSearchAt grid.now cell self.old }
        requires passed { IsPassed grid.now cell self.old }
        requires aim { IsAim grid.now self.old.start aim.now }
        ensures search { OnOk result (IsSearchOn grid.now self.new) }
        ensures same { OnOk result (IsSameSearch self.old self.new) }
        ensures effort { OnOk result (effort self.new ≤ effort self.old) }
    {
        let at = aim.neighbourhoods.xy(cell);
        if self.entry(cell) as u64 + manhattan_distance(at, (aim.column, aim.row)) == self.level {
            self.expand(grid, aim, at, cell)?;
        }
        Ok(())
    }

    // Expands the cell, which is in this column and row.
    #[inline(always)]
    fn expand(
        &mut self,
        grid: &Grid,
        aim: &Aim,
        at: (u32, u32),
        cell: Cell,
    ) -> Result<(), OutOfMemory>
        requires search { IsSearchAt grid.now cell self.old }
        requires level { value_of grid.now self.old.start self.old.table.items cell ≡ self.old.level }
        requires low { self.old.level < 2 ^ 34 }
        requires aim { IsAim grid.now self.old.start aim.now }
        requires column { at.0 ≡ column grid.now cell }
        requires row { at.1 ≡ row grid.now cell }
        ensures search { OnOk result (IsSearchOn grid.now self.new) }
        ensures same { OnOk result (IsSameSearch self.old self.new) }
        ensures effort { OnOk result (effort self.new ≤ effort self.old) }
    {
        let distance = self.entry(cell) + 1;
        let (column, row) = at;
        let [above, left, _, right, below] = aim.neighbourhoods.around_in(cell, column);
        // A step towards the start's column or row keeps the f-value, and each other one raises it by 2.
        self.relax(grid, above, distance, aim.row < row, false)?;
        self.relax(grid, left, distance, aim.column < column, true)?;
        self.relax(grid, right, distance, column < aim.column, true)?;
        self.relax(grid, below, distance, row < aim.row, false)?;
        Ok(())
    }

    // Relaxes the step to the cell at a place: reaches it if it is free and each number of steps found from it so far
    // is greater than this one.
    #[inline(always)]
    fn relax(
        &mut self,
        grid: &Grid,
        place: Option<Cell>,
        distance: u32,
        is_due: bool,
        is_in_row: bool,
    ) -> Result<(), OutOfMemory>
        requires count { vec_len self.old.table ≡ length grid.now.free }
        requires due { IfSome place (λ next. distance + estimate grid.now next self.old.start
            ≡ (if is_due then self.old.level else self.old.level + 2)) }
        ensures { OnOk result (IsRelaxed grid.now place distance self.old self.new) }
    {
        if let Some(next) = place {
            if self.is_shorter(grid, next, distance) {
                self.reach(next, distance, is_due, is_in_row)?;
            }
        }
        Ok(())
    }

    // Returns whether the cell is free, and each number of steps found from it so far is greater than this one.
    fn is_shorter(&self, grid: &Grid, cell: Cell, distance: u32) -> bool
        requires { vec_len self.now.table ≡ length grid.now.free }
        ensures { IsTrue result ↔ (IsFree grid.now cell × (distance < entry_of self.now.table.items cell)) }
    {
        grid.is_free(cell) && distance < self.entry(cell)
    }

    // Enters so many steps, and puts the cell to the open ones of this f-value or of the next one.
    fn reach(
        &mut self,
        cell: Cell,
        distance: u32,
        is_due: bool,
        is_in_row: bool,
    ) -> Result<(), OutOfMemory>
        requires inside { cell < vec_len self.old.table }
        ensures table { OnOk result (self.new.table.items ≡ slice_set self.old.table.items cell distance) }
        ensures put { (value : ℕ) → value ≡ (if is_due then self.old.level else self.old.level + 2)
            → OnOk result (IsPut cell value self.old self.new) }
        ensures same { IsSameSearch self.old self.new }
    {
        self.table[cell.0 as usize] = distance;
        if !is_due {
            self.later.push(cell)?;
        } else if is_in_row {
            self.due.push(cell)?;
        } else {
            self.next_row.push(cell)?;
        }
        Ok(())
    }
}

// Returns the Manhattan distance of two cells, from their columns and rows. It is a lower bound on the steps between
// them.
fn manhattan_distance(from: (u32, u32), to: (u32, u32)) -> u64
    ensures exact { result ≡ gap from.0 to.0 + gap from.1 to.1 }
    ensures small { result < 2 ^ 33 }
{
    from.0.abs_diff(to.0) as u64 + from.1.abs_diff(to.1) as u64
}
