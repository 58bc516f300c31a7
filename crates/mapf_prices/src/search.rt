//! A path of least priced cost of one agent: layer by layer over the ticks, up to the last one with a price.
use crate::prices::Prices;
use crate::resources::{NOWHERE, STAY, WAYS};
use mapf_distance::Distances;
use mapf_model::{Agent, Cell, OutOfMemory, Tick};
use std::alloc::Global;

// A key holds a priced cost above so many bits of a number of uses.
const BITS: u32 = 16;

const MOST_USES: u64 = (1 << BITS) - 1;

/// A layer: the cells that are reached at a tick, with what it costs to come there.
#[derive(Debug, Drop)]
pub struct Layer {
    pub cells: Vec<u32>,
    // By cell, the tick of the layer that it was reached in last, counted over all searches, and its key there.
    marks: Vec<u64>,
    keys: Vec<u64>,
}

impl Layer {
    fn of(alloc: Global, cells: usize) -> Result<Layer, OutOfMemory> {
        Ok(Layer {
            cells: Vec::new(alloc),
            marks: vec![in alloc; 0; cells]?,
            keys: vec![in alloc; 0; cells]?,
        })
    }

    #[inline(always)]
    fn key(&self, cell: u32) -> u64 {
        self.keys.get(cell as usize).copied().unwrap_or(u64::MAX)
    }

    /// Returns what it costs to come to a cell of the layer.
    pub fn cost(&self, cell: u32) -> u64 {
        self.key(cell) >> BITS
    }

    // Reaches a cell with a key in the layer of this mark. Returns whether that is better than before.
    #[inline(always)]
    fn reach(&mut self, mark: u64, cell: u32, key: u64) -> Result<bool, OutOfMemory> {
        let place = cell as usize;
        let (Some(at), Some(known)) = (self.marks.get_mut(place), self.keys.get_mut(place)) else {
            return Ok(false);
        };
        if *at == mark {
            if key >= *known {
                return Ok(false);
            }
            *known = key;
            return Ok(true);
        }
        *at = mark;
        *known = key;
        self.cells.push(cell)?;
        Ok(true)
    }
}

/// Whose path is searched for.
#[derive(Clone, Copy, Drop)]
pub struct Traveller<'a> {
    pub agent: Agent,
    /// The distances to its goal.
    pub distances: &'a Distances,
}

impl<'a> Traveller<'a> {
    /// Returns what the way from a cell to the goal costs at least, in units. None if no steps lead there.
    #[inline(always)]
    pub fn left(&self, cell: u32, unit: u32) -> Option<u64> {
        let distance = self.distances.get(Cell(cell))?;
        Some(u64::from(distance).saturating_mul(u64::from(unit)))
    }
}

// Where the best path leaves the layers: it rests at the goal from then on, or goes straight there.
#[derive(Clone, Copy, Debug)]
struct Exit {
    tick: Tick,
    cell: u32,
}

/// The memory of searches.
#[derive(Debug, Drop)]
pub struct PathSearch {
    pub open: Layer,
    next: Layer,
    mark: u64,
    // By tick and cell, the way by which it was reached.
    came: Vec<u8>,
    // By tick, what rest at the goal costs after it.
    rest: Vec<u64>,
    cells: usize,
    /// How many states were expanded by all searches.
    pub expanded: u64,
}

impl PathSearch {
    /// Returns the memory for so many cells and ticks.
    pub fn of(alloc: Global, cells: usize, ticks: Tick) -> Result<PathSearch, OutOfMemory> {
        let states = cells.saturating_mul(ticks as usize);
        Ok(PathSearch {
            open: Layer::of(alloc, cells)?,
            next: Layer::of(alloc, cells)?,
            mark: 0,
            came: vec![in alloc; 0; states]?,
            rest: vec![in alloc; 0; ticks as usize]?,
            cells,
            expanded: 0,
        })
    }

    /// Puts a path of least priced cost in the place of this one, unless that costs no more, and prefers one that shares
    /// few resources with other paths. Returns the least priced cost.
    pub fn improve(
        &mut self,
        prices: &Prices,
        who: &Traveller,
        path: &mut Vec<u32>,
    ) -> Result<u64, OutOfMemory> {
        let known = if path.is_empty() {
            u64::MAX >> BITS
        } else {
            prices.cost_of(path)
        };
        let mut best = (known << BITS) | MOST_USES;
        let mut exit = None;
        self.begin(prices, who)?;
        for tick in 0..=prices.end {
            if let Some(found) = self.exit_at(prices, who, tick, &mut best) {
                exit = Some(found);
            }
            if tick == prices.end || self.open.cells.is_empty() {
                break;
            }
            self.advance(prices, who, tick, best)?;
        }
        if let Some(exit) = exit {
            self.draw(prices, who, exit, path)?;
        }
        Ok(best >> BITS)
    }

    /// Begins at the agent's start.
    pub fn begin(&mut self, prices: &Prices, who: &Traveller) -> Result<(), OutOfMemory> {
        self.note_rest(prices, who.agent.goal.0);
        self.mark = self.mark.saturating_add(1);
        self.open.cells.clear();
        let _is_first = self.open.reach(self.mark, who.agent.start.0, 0)?;
        Ok(())
    }

    // Notes what rest at the goal costs after each tick.
    fn note_rest(&mut self, prices: &Prices, goal: u32) {
        let mut sum = 0u64;
        for tick in (0..prices.end).rev() {
            if let Some(entry) = self.rest.get_mut(tick as usize) {
                *entry = sum;
            }
            sum = sum.saturating_add(u64::from(prices.get(prices.resources.cell(tick, goal))));
        }
    }

    /// Returns what rest at the goal costs after a tick.
    pub fn rest_after(&self, prices: &Prices, tick: Tick) -> u64 {
        if tick >= prices.end {
            return 0;
        }
        self.rest.get(tick as usize).copied().unwrap_or(0)
    }

    // Returns where a path that is better than the best known one leaves the layer of this tick for good.
    fn exit_at(
        &self,
        prices: &Prices,
        who: &Traveller,
        tick: Tick,
        best: &mut u64,
    ) -> Option<Exit> {
        let mut exit = None;
        for &cell in &self.open.cells {
            let left = if tick == prices.end {
                who.left(cell, prices.unit)
            } else if cell == who.agent.goal.0 {
                Some(self.rest_after(prices, tick))
            } else {
                None
            };
            if let Some(left) = left {
                let key = self.open.key(cell).saturating_add(left << BITS);
                if key < *best {
                    *best = key;
                    exit = Some(Exit { tick, cell });
                }
            }
        }
        exit
    }

    /// Goes on from the layer of a tick to the next, along all steps whose paths may be better than this key.
    pub fn advance(
        &mut self,
        prices: &Prices,
        who: &Traveller,
        tick: Tick,
        best: u64,
    ) -> Result<(), OutOfMemory> {
        self.mark = self.mark.saturating_add(1);
        self.next.cells.clear();
        self.expanded = self.expanded.saturating_add(self.open.cells.len() as u64);
        for place in 0..self.open.cells.len() {
            let Some(&cell) = self.open.cells.get(place) else {
                break;
            };
            self.expand(prices, who, tick, cell, best)?;
        }
        std::mem::swap(&mut self.open, &mut self.next);
        Ok(())
    }

    // Reaches the cells to which a step leads.
    #[inline(always)]
    fn expand(
        &mut self,
        prices: &Prices,
        who: &Traveller,
        tick: Tick,
        cell: u32,
        best: u64,
    ) -> Result<(), OutOfMemory> {
        let key = self.open.key(cell);
        for way in 0..WAYS {
            let to = prices.resources.beside(cell, way);
            if to == NOWHERE {
                continue;
            }
            let Some(left) = who.left(to, prices.unit) else {
                continue;
            };
            let cost = u64::from(prices.unit).saturating_add(prices.of_step(tick, cell, to));
            let uses = u64::from(prices.uses_of_step(tick, cell, to));
            let next = key.saturating_add(cost << BITS).saturating_add(uses);
            if next.saturating_add(left << BITS) >= best {
                continue;
            }
            if self.next.reach(self.mark, to, next)? {
                let state = (tick as usize)
                    .saturating_mul(self.cells)
                    .saturating_add(to as usize);
                if let Some(entry) = self.came.get_mut(state) {
                    *entry = way as u8;
                }
            }
        }
        Ok(())
    }

    // Draws the path that leaves the layers there.
    fn draw(
        &self,
        prices: &Prices,
        who: &Traveller,
        exit: Exit,
        path: &mut Vec<u32>,
    ) -> Result<(), OutOfMemory> {
        path.clear();
        let mut cell = exit.cell;
        path.push(cell)?;
        for tick in (0..exit.tick).rev() {
            let state = (tick as usize)
                .saturating_mul(self.cells)
                .saturating_add(cell as usize);
            let way = self.came.get(state).copied().unwrap_or(0) as usize;
            cell = before(prices, cell, way);
            path.push(cell)?;
        }
        path.as_mut_slice().reverse();
        go_straight(prices, who, exit.cell, path)
    }
}

// Returns the cell from which a way leads to this one.
fn before(prices: &Prices, cell: u32, way: usize) -> u32 {
    let back = if way == STAY {
        STAY
    } else {
        way.saturating_add(2) % STAY
    };
    prices.resources.beside(cell, back)
}

// Leaves out the waits at the end of a path.
fn leave_rest_out(path: &mut Vec<u32>) {
    let last = path.last().copied();
    let moves = path.iter().rposition(|&cell| last != Some(cell));
    let rest = moves.map_or(0, |place| place.saturating_add(1));
    path.truncate(rest.saturating_add(1));
}

// Returns a cell beside this one that is nearer to the goal.
fn nearer(prices: &Prices, who: &Traveller, cell: u32) -> u32 {
    let here = who.distances.get(Cell(cell)).unwrap_or(0);
    for way in 0..STAY {
        let to = prices.resources.beside(cell, way);
        if to != NOWHERE
            && who
                .distances
                .get(Cell(to))
                .is_some_and(|there| there < here)
        {
            return to;
        }
    }
    cell
}

/// Goes from a cell to the goal by shortest steps, and ends with the arrival.
pub fn go_straight(
    prices: &Prices,
    who: &Traveller,
    from: u32,
    path: &mut Vec<u32>,
) -> Result<(), OutOfMemory> {
    let mut cell = from;
    for _ in 0..prices.resources.cells {
        if cell == who.agent.goal.0 {
            break;
        }
        cell = nearer(prices, who, cell);
        path.push(cell)?;
    }
    leave_rest_out(path);
    Ok(())
}
