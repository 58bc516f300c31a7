//! How the joint entries of one tick are found by their cells, for the judge of two agents' entries.
ghost use Rattle.std.specs.Prelude.{◌≡◌, ◌+◌, ◌<◌, ◌≤◌, AllPairs, OnOk, length};
ghost use Rattle.mapf_lemmas.specs.JointLabels.{joint_entries_of};
ghost use Rattle.mapf_lemmas.specs.declared.joint.JointState.TheVariants.{Both};
ghost use Rattle.mapf_joint_labels.specs.JointMarks.{AreBegun, AreEnded, IsMarking, PartsAt};
ghost use Rattle.mapf_joint_labels.specs.JointOrder.{IsJointBefore};

use crate::order::label_in;
use crate::runs::{CellRuns, Run};
use mapf_lemmas::{Amount, JointEntry, JointState};
use mapf_model::{Cell, OutOfMemory, Tick};
use std::alloc::Global;
use std::marker::Model;

/// Marks by which the joint entries of one tick are found: a run for each cell of a grid, of the entries with this
/// first cell. They are never cleared, so one value serves for all lemmas on a grid.
#[derive(Drop)]
pub struct JointMarks {
    runs: CellRuns,
    tick: Tick,
}

impl Model for JointMarks {
    ghost use Rattle.mapf_joint_labels.specs.JointMarks.{Marks};

    ghost Value = { Marks };

    ghost view = { λ marks. record { runs = marks.runs; tick = marks.tick } };
}

impl JointMarks {
    /// Returns marks of no cells, which take no memory.
    pub fn new(alloc: Global) -> JointMarks
        ensures { length result.runs ≡ 0 }
    {
        JointMarks {
            runs: CellRuns::new(alloc),
            tick: 0,
        }
    }

    /// Makes marks for the cells below this number, if they aren't made yet.
    pub fn make(&mut self, cells: usize) -> Result<(), OutOfMemory>
        ensures { OnOk result (cells ≤ length self.new.runs) }
    {
        self.runs.make(cells)
    }

    /// Marks the entries of this tick in place of all others.
    pub fn mark(&mut self, entries: &[JointEntry], tick: Tick)
        requires rising { AllPairs IsJointBefore entries.now }
        ensures marking { IsMarking entries.now self.new }
        ensures tick { self.new.tick ≡ tick }
        ensures size { length self.new.runs ≡ length self.old.runs }
    {
        let from = first_at(entries, tick);
        let to = first_after(entries, tick);
        end_runs(&mut self.runs, entries, from, to);
        begin_runs(&mut self.runs, entries, from, to);
        self.tick = tick;
    }

    /// Returns the tick whose entries are marked.
    pub fn tick(&self) -> Tick
        ensures { result ≡ self.now.tick }
    {
        self.tick
    }

    /// Returns the label that the entries give both agents in these cells at the marks' tick, None if they give none.
    #[inline(always)]
    pub fn label(&self, entries: &[JointEntry], first: Cell, second: Cell) -> Option<Amount>
        requires rising { AllPairs IsJointBefore entries.now }
        requires marking { IsMarking entries.now self.now }
        requires marked { first < length self.now.runs }
        ensures { result ≡ joint_entries_of entries.now (Both first second) self.now.tick }
    {
        let state = JointState::Both { first, second };
        label_in(entries, self.runs.get(first), &state, self.tick)
    }
}

// Returns the index of the first entry that isn't of an earlier tick; the number of entries if there is none. Searches
// by bisection.
fn first_at(entries: &[JointEntry], tick: Tick) -> usize
    requires { AllPairs IsJointBefore entries.now }
    ensures { PartsAt entries.now result tick }
{
    let mut from = 0;
    let mut to = entries.len();
    while from < to {
        let middle = from + (to - from) / 2;
        if entries[middle].tick < tick {
            from = middle + 1;
        } else {
            to = middle;
        }
    }
    from
}

// Returns the index of the first entry of a later tick; the number of entries if there is none.
fn first_after(entries: &[JointEntry], tick: Tick) -> usize
    requires { AllPairs IsJointBefore entries.now }
    ensures { PartsAt entries.now result (tick + 1) }
{
    let mut from = 0;
    let mut to = entries.len();
    while from < to {
        let middle = from + (to - from) / 2;
        if entries[middle].tick <= tick {
            from = middle + 1;
        } else {
            to = middle;
        }
    }
    from
}

// Sets for each first cell of the entries of both agents, from the one index on and below the other, a run that ends
// after the last of them.
fn end_runs(runs: &mut CellRuns, entries: &[JointEntry], from: usize, to: usize)
    requires { to ≤ length entries.now }
    ensures ended { AreEnded entries.now runs.new from to }
    ensures size { length runs.new ≡ length runs.old }
{
    for k in from..to {
        if let JointState::Both { first, .. } = entries[k].state {
            runs.set(
                first,
                Run {
                    begin: 0,
                    end: k + 1,
                },
            );
        }
    }
}

// Lets these runs begin with the first of the entries.
fn begin_runs(runs: &mut CellRuns, entries: &[JointEntry], from: usize, to: usize)
    requires within { to ≤ length entries.now }
    requires ended { AreEnded entries.now runs.old from to }
    ensures ended { AreEnded entries.now runs.new from to }
    ensures begun { AreBegun entries.now runs.new from to }
    ensures size { length runs.new ≡ length runs.old }
{
    for k in (from..to).rev() {
        if let JointState::Both { first, .. } = entries[k].state {
            let end = runs.get(first).end;
            runs.set(first, Run { begin: k, end });
        }
    }
}
