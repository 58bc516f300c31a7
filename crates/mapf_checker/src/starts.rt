//! The entries of the starts that a node inherits. The path from the root changes them at a split, and restores them
//! when it leaves the split.
ghost use Rattle.std.specs.Prelude.{◌≡◌, ◌≢◌, ◌<◌, ℕ, Some, IfOk, length, slice_get};
ghost use Rattle.mapf_model.specs.Labels.{Entries};
ghost use Rattle.mapf_model.specs.Tree.{no_entries};

use mapf_model::{Label, OutOfMemory};
use std::alloc::Global;

/// How a block changes the entry of its agent's start at tick 0.
#[derive(Clone, Copy)]
pub struct StartChange {
    pub agent: u32,
    /// The entry in the nearest block above.
    pub before: Option<Label>,
    /// The entry in the block. If the block doesn't list it, the label is the distance.
    pub now: Option<Label>,
}

/// For each agent the entry of its start at tick 0, in its nearest block above a node.
#[derive(Drop)]
pub struct Starts {
    entries: Vec<Option<Label>>,
}

impl Starts {
    ghost use Rattle.mapf_checker.specs.Starts.{IsKept, AreKept, AreOfFirst, KnowEntries, with_changes};

    /// Returns the entries at the root: none.
    pub fn new(alloc: Global, agents: usize) -> Result<Starts, OutOfMemory>
        ensures count { IfOk result (λ starts. length starts.entries.items ≡ agents) }
        ensures none { IfOk result (λ starts. AreKept no_entries starts.entries.items) }
    {
        Ok(Starts {
            entries: vec![in alloc; None; agents]?,
        })
    }

    /// Returns the label of the entry of an agent's start at tick 0, None if no block has one.
    pub fn get(&self, agent: usize) -> Option<Label>
        requires { agent < length self.now.entries.items }
        ensures { (entries : ℕ → Entries) → AreKept entries self.now.entries.items → IsKept entries agent result }
    {
        self.entries[agent]
    }

    /// Makes these changes. If several are of one agent, the first counts.
    pub fn change(&mut self, changes: &[StartChange])
        requires agents { AreOfFirst (length self.old.entries.items) changes.now }
        ensures entries { (entries : ℕ → Entries) → AreKept entries self.old.entries.items
            → AreKept (with_changes changes.now entries) self.new.entries.items }
        ensures count { length self.new.entries.items ≡ length self.old.entries.items }
    {
        let mut k = changes.len();
        while 0 < k {
            k -= 1;
            set(&mut self.entries, changes[k].agent, changes[k].now);
        }
    }

    /// Restores the entries before these changes.
    pub fn undo(&mut self, changes: &[StartChange])
        requires agents { AreOfFirst (length self.old.entries.items) changes.now }
        ensures entries { (entries : ℕ → Entries) → AreKept (with_changes changes.now entries) self.old.entries.items
            → KnowEntries entries changes.now → AreKept entries self.new.entries.items }
        ensures count { length self.new.entries.items ≡ length self.old.entries.items }
    {
        for change in changes {
            set(&mut self.entries, change.agent, change.before);
        }
    }
}

fn set(entries: &mut Vec<Option<Label>>, agent: u32, entry: Option<Label>)
    requires { agent < length entries.old.items }
    ensures count { length entries.new.items ≡ length entries.old.items }
    ensures here { slice_get entries.new.items agent ≡ Some entry }
    ensures others { (i : ℕ) → i ≢ agent → slice_get entries.new.items i ≡ slice_get entries.old.items i }
{
    entries[agent as usize] = entry;
}
