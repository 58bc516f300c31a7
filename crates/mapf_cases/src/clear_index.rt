//! The cells that all agents but one keep clear of. A split on a cost adds one such cell, for the agent whose cost it
//! bounds. The constraints at a node keep theirs here, once for each split and not once for each agent.
ghost use Rattle.std.specs.Prelude.{◌≡◌, ◌≢◌, ◌↔◌, ◌⊎◌, ◌≤◌, ◌∷◌, ℕ, [], List, Some, IfOk, OnOk, OnErr, IsTrue};

use mapf_model::{Cell, OutOfMemory, Tick};
use std::alloc::Global;
use std::collections::BTreeMap;

/// From which tick on agents keep clear of a cell: the earliest tick of all, with the one agent for which it doesn't
/// hold, and the earliest for this agent.
#[derive(Clone, Copy, Debug, PartialEq, Eq)]
pub struct Earliest {
    tick: Tick,
    /// The one agent that may be in the cell from `tick` on.
    agent: u32,
    /// From when on `agent` keeps clear of the cell; this isn't before `tick`.
    own: Option<Tick>,
}

impl Earliest {
    ghost use Rattle.mapf_cases.specs.Clears.{IsClearFor, IsOrdered};

    // Returns whether the agent keeps clear of the cell from the tick on.
    fn is_clear(self, agent: u32, tick: Tick) -> bool
        ensures { IsTrue result ↔ IsClearFor (Some self) agent tick }
    {
        if agent == self.agent {
            self.own.is_some_and(|own| own <= tick)
        } else {
            self.tick <= tick
        }
    }

    // Returns what is kept of a cell after all agents but this one have to keep clear of it from this tick on.
    fn with(before: Option<Earliest>, agent: u32, tick: Tick) -> Earliest
        ensures ordered { IsOrdered before → IsOrdered (Some result) }
        ensures clear { IsOrdered before → (other later : ℕ) → IsClearFor (Some result) other later
            ↔ (IsClearFor before other later ⊎ ((agent ≢ other) × (tick ≤ later))) }
    {
        let Some(kept) = before else {
            return Earliest {
                tick,
                agent,
                own: None,
            };
        };
        if agent == kept.agent {
            return Earliest {
                tick: kept.tick.min(tick),
                ..kept
            };
        }
        if tick < kept.tick {
            return Earliest {
                tick,
                agent,
                own: Some(kept.tick),
            };
        }
        let own = match kept.own {
            Some(own) => own.min(tick),
            None => tick,
        };
        Earliest {
            own: Some(own),
            ..kept
        }
    }
}

/// The cells that agents keep clear of. Finding, adding and removing one takes time that grows with the logarithm of
/// the number of these cells, whatever the ticks. They are removed in the reverse of the order in which they were
/// added.
#[derive(Drop)]
pub struct ClearIndex {
    earliest: BTreeMap<Cell, Earliest>,
}

impl ClearIndex {
    ghost use Rattle.mapf_cases.specs.Clears.{Clearing, Keeps, IsEntryOf, IsClear};

    /// Returns an index without cells.
    pub fn new(alloc: Global) -> ClearIndex
        ensures { Keeps [] result }
    {
        ClearIndex {
            earliest: BTreeMap::new(alloc),
        }
    }

    /// Returns whether the agent keeps clear of the cell from the tick on.
    pub fn is_clear(&self, agent: u32, cell: Cell, tick: Tick) -> bool
        ensures { (clears : List Clearing) → Keeps clears self.now → IsTrue result ↔ IsClear clears cell agent tick }
    {
        match self.earliest.get(&cell) {
            Some(earliest) => earliest.is_clear(agent, tick),
            None => false,
        }
    }

    /// Adds that all agents but this one keep clear of the cell from the tick on. Returns what was kept of the cell
    /// before.
    pub fn add(
        &mut self,
        agent: u32,
        cell: Cell,
        tick: Tick,
    ) -> Result<Option<Earliest>, OutOfMemory>
        ensures added { OnOk result ((clears : List Clearing) → Keeps clears self.old
            → Keeps (record { agent = agent; cell = cell; tick = tick } ∷ clears) self.new) }
        ensures undo { IfOk result (λ before. (clears : List Clearing) → Keeps clears self.old
            → IsEntryOf clears cell before) }
        ensures unchanged { OnErr result ((clears : List Clearing) → Keeps clears self.old → Keeps clears self.new) }
    {
        let before = self.earliest.get(&cell).copied();
        let now = Earliest::with(before, agent, tick);
        self.earliest.insert(cell, now)?;
        Ok(before)
    }

    /// Removes what was added last, by what was kept of the cell before.
    pub fn remove(&mut self, agent: u32, cell: Cell, tick: Tick, before: Option<Earliest>)
        ensures { (clears : List Clearing)
            → Keeps (record { agent = agent; cell = cell; tick = tick } ∷ clears) self.old
            → IsEntryOf clears cell before → Keeps clears self.new }
    {
        match before {
            Some(earliest) => {
                if let Some(kept) = self.earliest.get_mut(&cell) {
                    *kept = earliest;
                }
            }
            None => {
                self.earliest.remove(&cell);
            }
        }
    }
}
