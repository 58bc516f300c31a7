//! The conflict avoidance table: the paths of all agents by tick and cell. A search puts the paths of a node here, and
//! finds by it the conflicts of a new path, and paths with few conflicts.
ghost use Rattle.std.specs.Iterator.{at_most};

use mapf_model::{Cell, Conflict, OutOfMemory, Tick};
use std::alloc::Global;

// No agent. Agents are numbers of one byte here.
const NOBODY: u8 = u8::MAX;

// No cell.
const NOWHERE: Cell = Cell(u32::MAX);

// A factor that spreads the numbers of cells (Knuth 1973): the upper bits of a product name the chain.
const FACTOR: u32 = 2_654_435_769;

/// The paths of up to 200 agents, each of which rests at the end of its path.
///
/// For each tick there is a row of chains, and each cell belongs to one of them. The agents that are in the cells of a
/// chain at the tick are linked. There are at least eight times as many chains as agents, so most are empty, and few
/// have agents of two cells.
#[derive(Debug, Drop)]
pub struct ConflictAvoidanceTable {
    agents: u32,
    // How many ticks there are. All paths end before the last one.
    ticks: u32,
    // How many chains each tick has, a power of two, and by how many bits a product is shifted to name one.
    chains: usize,
    shift: u32,
    // By tick and chain, the first agent.
    heads: Vec<u8>,
    // By agent and tick.
    visits: Vec<Visit>,
    // By agent, the number of cells of its path, 0 as long as it has none.
    lengths: Vec<u32>,
}

/// Where an agent is at a tick.
#[derive(Clone, Copy, Debug, PartialEq, Eq)]
struct Visit {
    cell: Cell,
    // The next agent of the chain.
    next: u8,
}

/// The agents of a chain at a tick, with the cell of each.
#[derive(Drop)]
struct Chain<'a> {
    visits: &'a [Visit],
    ticks: u32,
    tick: Tick,
    agent: u8,
    left: u32,
}

impl<'a> Iterator for Chain<'a> {
    type Item = (u8, Cell);

    ghost remaining = { λ chain. at_most chain.left };

    #[inline(always)]
    fn next(&mut self) -> Option<(u8, Cell)> {
        let agent = self.agent;
        if agent == NOBODY || self.left == 0 {
            return None;
        }
        let visit = *self.visits.get(place_of(self.ticks, agent, self.tick))?;
        self.left -= 1;
        self.agent = visit.next;
        Some((agent, visit.cell))
    }
}

/// What a path meets in a cell at a tick: how many other agents are there, and from which cell another agent comes there
/// at the next tick, which is the cell itself if none does.
#[derive(Clone, Copy, Debug)]
pub(crate) struct Meeting {
    pub(crate) others: u32,
    pub(crate) next_from: Cell,
}

impl ConflictAvoidanceTable {
    /// Returns the table of so many agents, none of which has a path yet.
    pub fn of(alloc: Global, agents: u32) -> Result<ConflictAvoidanceTable, OutOfMemory> {
        ConflictAvoidanceTable::with_ticks(alloc, agents, 0)
    }

    /// Makes room for paths of so many cells.
    pub fn reserve(&mut self, alloc: Global, cells: u32) -> Result<(), OutOfMemory> {
        if cells.saturating_add(2) <= self.ticks {
            return Ok(());
        }
        let ticks = cells.saturating_add(cells / 2).saturating_add(16);
        let mut wider = ConflictAvoidanceTable::with_ticks(alloc, self.agents, ticks)?;
        for agent in 0..self.agents {
            wider.follow(self, agent);
        }
        *self = wider;
        Ok(())
    }

    /// Puts the agent on a path, for which there is room.
    pub fn set(&mut self, agent: u32, path: &[Cell]) {
        let cells = count_of(path);
        let (Some(length), Some(&last)) = (self.lengths.get_mut(agent as usize), path.last()) else {
            return;
        };
        // Where both paths have ended the agent rests at its goal.
        let until = if *length == 0 {
            self.ticks
        } else {
            cells.max(*length)
        };
        *length = cells;
        for tick in 0..until.min(self.ticks) {
            let cell = path.get(tick as usize).copied().unwrap_or(last);
            self.put(name_of(agent), tick, cell);
        }
    }

    /// Returns the conflicts of the agent on this path, for which there is room, with all others: by the other agent,
    /// then by tick.
    pub fn conflicts(
        &self,
        alloc: Global,
        agent: u32,
        path: &[Cell],
    ) -> Result<Vec<Conflict>, OutOfMemory> {
        let mut found = Vec::new(alloc);
        let end = count_of(path);
        for tick in 0..end {
            let here = path.get(tick as usize).copied().unwrap_or(NOWHERE);
            self.add_vertices(&mut found, agent, tick, here)?;
            let next = tick.saturating_add(1);
            if let Some(&to) = path.get(next as usize) {
                self.add_swaps(&mut found, agent, tick, (here, to))?;
            }
        }
        let goal = path.last().copied().unwrap_or(NOWHERE);
        self.add_rests(&mut found, agent, end, goal)?;
        // Two agents have at most one conflict at a tick, since those that exchange cells aren't in one cell.
        found.sort_unstable_by_key(|conflict| (other_of(conflict, agent), conflict.tick()));
        Ok(found)
    }

    /// Returns the table at a tick, as the agent meets it.
    pub(crate) fn at(&self, agent: u32, tick: Tick) -> TableAtTick<'_> {
        let low = (tick as usize).saturating_mul(self.chains);
        let high = low.saturating_add(self.chains);
        let end = high.saturating_add(self.chains);
        TableAtTick {
            table: self,
            agent: name_of(agent),
            tick,
            here: self.heads.get(low..high).unwrap_or(&[]),
            next: self.heads.get(high..end).unwrap_or(&[]),
        }
    }

    fn with_ticks(
        alloc: Global,
        agents: u32,
        ticks: u32,
    ) -> Result<ConflictAvoidanceTable, OutOfMemory> {
        let mut chains = 16usize;
        let mut shift = 28u32;
        for _ in 0..8 {
            if chains < 8 * agents as usize {
                chains = chains.saturating_mul(2);
                shift = shift.saturating_sub(1);
            }
        }
        let nowhere = Visit {
            cell: NOWHERE,
            next: NOBODY,
        };
        Ok(ConflictAvoidanceTable {
            agents,
            ticks,
            chains,
            shift,
            heads: vec![in alloc; NOBODY; product(chains, ticks)?]?,
            visits: vec![in alloc; nowhere; product(agents as usize, ticks)?]?,
            lengths: vec![in alloc; 0; agents as usize]?,
        })
    }

    // Puts the agent on its path in another table of fewer ticks.
    fn follow(&mut self, other: &ConflictAvoidanceTable, agent: u32) {
        let length = other.lengths.get(agent as usize).copied().unwrap_or(0);
        if length == 0 {
            return;
        }
        if let Some(own) = self.lengths.get_mut(agent as usize) {
            *own = length;
        }
        let name = name_of(agent);
        let last = other.ticks.saturating_sub(1);
        for tick in 0..self.ticks {
            let cell = other.cell_at(name, tick.min(last));
            self.put(name, tick, cell);
        }
    }

    // Returns the number of a cell's chain.
    #[inline(always)]
    fn chain_of(&self, cell: Cell) -> usize {
        cell.0.wrapping_mul(FACTOR).wrapping_shr(self.shift) as usize
    }

    // Returns the place of the head of a cell's chain at a tick.
    #[inline(always)]
    fn head_of(&self, tick: Tick, cell: Cell) -> usize {
        (tick as usize)
            .wrapping_mul(self.chains)
            .wrapping_add(self.chain_of(cell))
    }

    // Returns the agents of the cell's chain at a tick, some of which may be in other cells.
    #[inline(always)]
    fn chain(&self, tick: Tick, cell: Cell) -> Chain<'_> {
        let head = self.heads.get(self.head_of(tick, cell));
        self.chain_from(tick, head.copied().unwrap_or(NOBODY))
    }

    // Returns the agents of the chain that this one heads at a tick.
    #[inline(always)]
    fn chain_from(&self, tick: Tick, head: u8) -> Chain<'_> {
        Chain {
            visits: &self.visits,
            ticks: self.ticks,
            tick,
            agent: head,
            left: self.agents,
        }
    }

    // Returns the cell of the agent at a tick.
    #[inline(always)]
    fn cell_at(&self, agent: u8, tick: Tick) -> Cell {
        match self.visits.get(place_of(self.ticks, agent, tick)) {
            Some(visit) => visit.cell,
            None => NOWHERE,
        }
    }

    // Puts the agent into the cell at a tick.
    fn put(&mut self, agent: u8, tick: Tick, cell: Cell) {
        let Some(visit) = self.visits.get_mut(place_of(self.ticks, agent, tick)) else {
            return;
        };
        let Visit { cell: old, next } = *visit;
        if old == cell {
            return;
        }
        if old != NOWHERE {
            self.unlink(agent, tick, old, next);
        }
        self.link(agent, tick, cell);
    }

    // Takes the agent, before this next one, out of the chain of a cell.
    fn unlink(&mut self, agent: u8, tick: Tick, cell: Cell, next: u8) {
        let place = self.head_of(tick, cell);
        let Some(head) = self.heads.get_mut(place) else {
            return;
        };
        let mut other = *head;
        if other == agent {
            *head = next;
            return;
        }
        for _ in 0..self.agents {
            let Some(visit) = self.visits.get_mut(place_of(self.ticks, other, tick)) else {
                return;
            };
            if visit.next == agent {
                visit.next = next;
                return;
            }
            other = visit.next;
        }
    }

    // Puts the agent first into the chain of a cell.
    fn link(&mut self, agent: u8, tick: Tick, cell: Cell) {
        let place = self.head_of(tick, cell);
        if let Some(head) = self.heads.get_mut(place) {
            let next = *head;
            *head = agent;
            if let Some(visit) = self.visits.get_mut(place_of(self.ticks, agent, tick)) {
                *visit = Visit { cell, next };
            }
        }
    }

    // Adds the agent's vertex conflicts in a cell at a tick.
    fn add_vertices(
        &self,
        found: &mut Vec<Conflict>,
        agent: u32,
        tick: Tick,
        cell: Cell,
    ) -> Result<(), OutOfMemory> {
        for (other, place) in self.chain(tick, cell) {
            let other = u32::from(other);
            if place == cell && other != agent {
                found.push(Conflict::Vertex {
                    i: agent.min(other),
                    j: agent.max(other),
                    cell,
                    tick,
                })?;
            }
        }
        Ok(())
    }

    // Adds the agent's swapping conflicts on a step that begins at a tick.
    fn add_swaps(
        &self,
        found: &mut Vec<Conflict>,
        agent: u32,
        tick: Tick,
        (from, to): (Cell, Cell),
    ) -> Result<(), OutOfMemory> {
        if from == to {
            return Ok(());
        }
        for (other, place) in self.chain(tick.saturating_add(1), from) {
            if place == from && u32::from(other) != agent && self.cell_at(other, tick) == to {
                found.push(swap(agent, u32::from(other), (from, to), tick))?;
            }
        }
        Ok(())
    }

    // Adds the conflicts of the agent that rests in its goal from a tick on.
    fn add_rests(
        &self,
        found: &mut Vec<Conflict>,
        agent: u32,
        from: Tick,
        goal: Cell,
    ) -> Result<(), OutOfMemory> {
        for tick in from..self.ticks {
            self.add_vertices(found, agent, tick, goal)?;
        }
        Ok(())
    }
}

/// The table at a tick, and at the next one, as an agent meets it.
#[derive(Drop)]
pub(crate) struct TableAtTick<'a> {
    table: &'a ConflictAvoidanceTable,
    agent: u8,
    tick: Tick,
    // The heads of the chains at this tick and at the next one.
    here: &'a [u8],
    next: &'a [u8],
}

impl<'a> TableAtTick<'a> {
    /// Returns what the agent meets in a cell.
    #[inline(always)]
    pub(crate) fn meeting(&self, cell: Cell) -> Meeting {
        let chain = self.table.chain_of(cell);
        let here = self.here.get(chain).copied().unwrap_or(NOBODY);
        let next = self.next.get(chain).copied().unwrap_or(NOBODY);
        // Most chains have no agent.
        if here == NOBODY && next == NOBODY {
            return Meeting {
                others: 0,
                next_from: cell,
            };
        }
        Meeting {
            others: self.others(cell, here),
            next_from: self.next_from(cell, next),
        }
    }

    // Returns how many other agents are in the cell, whose chain has this head.
    fn others(&self, cell: Cell, head: u8) -> u32 {
        let mut others = 0u32;
        for (other, place) in self.table.chain_from(self.tick, head) {
            if place == cell && other != self.agent {
                others = others.saturating_add(1);
            }
        }
        others
    }

    // Returns from which cell another agent comes to the cell, whose chain has this head at the next tick: of several
    // agents the one of the least number. The cell itself if none comes.
    fn next_from(&self, cell: Cell, head: u8) -> Cell {
        let mut first = NOBODY;
        for (other, place) in self.table.chain_from(self.tick.saturating_add(1), head) {
            if place == cell && other != self.agent && other < first {
                first = other;
            }
        }
        if first == NOBODY {
            cell
        } else {
            self.table.cell_at(first, self.tick)
        }
    }
}

/// Returns the agent of a conflict that isn't this one.
pub(crate) fn other_of(conflict: &Conflict, agent: u32) -> u32 {
    let (i, j) = match *conflict {
        Conflict::Vertex { i, j, .. } => (i, j),
        Conflict::Swap { i, j, .. } => (i, j),
    };
    if i == agent { j } else { i }
}

// Returns the swapping conflict of an agent on this step and another one on the step back.
fn swap(agent: u32, other: u32, (from, to): (Cell, Cell), tick: Tick) -> Conflict {
    let (from, to) = if agent < other {
        (from, to)
    } else {
        (to, from)
    };
    Conflict::Swap {
        i: agent.min(other),
        j: agent.max(other),
        from,
        to,
        tick,
    }
}

// Returns the place of an agent's visit at a tick.
#[inline(always)]
fn place_of(ticks: u32, agent: u8, tick: Tick) -> usize {
    usize::from(agent)
        .wrapping_mul(ticks as usize)
        .wrapping_add(tick as usize)
}

// Returns the number of an agent as a byte.
#[inline(always)]
fn name_of(agent: u32) -> u8 {
    u8::try_from(agent).unwrap_or(NOBODY)
}

// Returns how many cells a path has. A path has at most 10,000,000.
fn count_of(path: &[Cell]) -> u32 {
    u32::try_from(path.len()).unwrap_or(u32::MAX)
}

// Returns the length of a table. A product that is too great doesn't fit into memory.
fn product(rows: usize, ticks: u32) -> Result<usize, OutOfMemory> {
    rows.checked_mul(ticks as usize).ok_or(OutOfMemory)
}
