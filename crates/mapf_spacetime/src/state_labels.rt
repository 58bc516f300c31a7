//! The labels that the search for one agent finds. Nodes of the constraint tree hold them until the certificate is
//! written.
ghost use Rattle.std.specs.Prelude.{◌≡◌, ◌<◌, ◌↔◌, ◌^◌, [], Some, AllPairs, IfOk, IsTrue, length, map, slice_get};
ghost use Rattle.mapf_spacetime.specs.Listed.{AreEntriesOf, entry_for};
ghost use Rattle.mapf_model.specs.States.{IsEarlier};

use mapf_model::{Entry, Label, OutOfMemory, State};
use std::alloc::Global;
use std::marker::Model;

/// The labels of one agent as a search returns them: the states that have one, in rising order of tick and cell, and
/// one cost. The label of a state is that cost less its tick, or `Never` if there is no cost. These are the entries of
/// `Labels` in half the memory.
#[derive(Debug, Drop)]
pub struct StateLabels {
    states: Vec<State>,
    // The cost at which the agent arrives, None if it can't.
    cost: Option<u32>,
}

impl Model for StateLabels {
    ghost use Rattle.std.specs.Prelude.{List, map};
    ghost use Rattle.mapf_model.specs.declared.label.Entry.{Entry};
    ghost use Rattle.mapf_spacetime.specs.Listed.{entry_for};

    ghost Value = { List Entry };

    ghost view = { λ labels. map (entry_for labels.cost) labels.states.items };
}

impl StateLabels {
    /// Returns labels of no state.
    pub fn none(alloc: Global) -> StateLabels
        ensures { result ≡ [] }
    {
        StateLabels {
            states: Vec::new(alloc),
            cost: None,
        }
    }

    /// Returns the labels of these states, which rise by tick and then by cell, at the cost.
    pub(crate) fn of(
        alloc: Global,
        states: &[State],
        cost: Option<u32>,
    ) -> Result<StateLabels, OutOfMemory>
        requires { AllPairs IsEarlier states.now }
        ensures { IfOk result (λ labels. AreEntriesOf states.now cost labels) }
    {
        Ok(StateLabels {
            states: Vec::from_slice(alloc, states)?,
            cost,
        })
    }

    /// Returns how many labels there are.
    pub fn len(&self) -> usize
        ensures count { result ≡ length self.now }
        ensures small { length self.now < 2 ^ 64 }
    {
        self.states.len()
    }

    /// Returns whether there are none.
    pub fn is_empty(&self) -> bool
        ensures { IsTrue result ↔ (self.now ≡ []) }
    {
        self.states.is_empty()
    }

    /// Returns the entry at this index.
    pub fn entry(&self, place: usize) -> Entry
        requires { place < length self.now }
        ensures { slice_get self.now place ≡ Some result }
    {
        entry_of(&self.states[place], self.cost)
    }

    /// Returns the entries, in memory of their own.
    pub fn into_entries(self, alloc: Global) -> Result<Vec<Entry>, OutOfMemory>
        ensures { IfOk result (λ entries. entries.items ≡ self) }
    {
        entries_of(alloc, self.states.as_slice(), self.cost)
    }
}

// Returns an entry for each of the states.
fn entries_of(alloc: Global, states: &[State], cost: Option<u32>) -> Result<Vec<Entry>, OutOfMemory>
    ensures { IfOk result (λ entries. entries.items ≡ map (entry_for cost) states.now) }
{
    let mut entries = Vec::with_capacity(alloc, states.len())?;
    for state in states {
        entries.push(entry_of(state, cost))?;
    }
    Ok(entries)
}

// Returns the entry of a state: the cost less its tick, `Never` if there is no cost.
fn entry_of(state: &State, cost: Option<u32>) -> Entry
    ensures { result ≡ entry_for cost state.now }
{
    Entry {
        cell: state.cell,
        tick: state.tick,
        label: match cost {
            Some(cost) => Label::Ticks(cost.saturating_sub(state.tick)),
            None => Label::Never,
        },
    }
}
