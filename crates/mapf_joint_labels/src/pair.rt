//! What the joint entries of two agents are judged by, and the labels of joint states. The judge of joint entries asks
//! for the label of both agents at the tick after an entry, and for those of one agent alone.
ghost use Rattle.std.specs.Prelude.{◌≡◌, ◌≤◌, ◌↔◌, AllPairs, IsTrue, OnOk, length};
ghost use Rattle.mapf_lemmas.specs.JointLabels.{IsJointLabel};
ghost use Rattle.mapf_lemmas.specs.SingleLabels.{IsSingleLabel};
ghost use Rattle.mapf_lemmas.specs.declared.joint.JointState.TheVariants.{Both, FirstAlone, SecondAlone};
ghost use Rattle.mapf_model.specs.Grid.{IsFree};
ghost use Rattle.mapf_model.specs.Labels.{entries_of, IsAtMost, label_plus};
ghost use Rattle.mapf_model.specs.Limits.{most_cells};
ghost use Rattle.mapf_model.specs.Printed.{IsBefore};
ghost use Rattle.mapf_model.specs.States.{state_of};
ghost use Rattle.mapf_model.specs.declared.label.Label.TheVariants.{Ticks};
ghost use Rattle.mapf_joint_labels.specs.Pairs.{AreMarks, IsPair, alone, lists_of, other_goal, own_task, task_of};

use crate::joint_marks::JointMarks;
use crate::order::label_in;
use crate::runs::Run;
use mapf_lemmas::{Amount, JointEntry, JointState, PricedEntry};
use mapf_model::{Cell, OutOfMemory, State, Tick};
use mapf_single_labels::{EntryMarks, SingleTask};
use std::alloc::Global;

/// Two agents with their tasks, which are on one grid and have one list of prices, and the entries of each agent and of
/// both.
#[derive(Drop)]
pub struct Pair<'a, 't> {
    pub first_task: &'a SingleTask<'t>,
    pub second_task: &'a SingleTask<'t>,
    pub first: &'a [PricedEntry],
    pub second: &'a [PricedEntry],
    pub joint: &'a [JointEntry],
}

/// Marks by which the entries of one tick are found.
#[derive(Drop)]
pub struct PairMarks {
    pub first: EntryMarks,
    pub second: EntryMarks,
    pub joint: JointMarks,
}

impl PairMarks {
    /// Returns marks of no cells, which take no memory.
    pub fn new(alloc: Global) -> PairMarks
        ensures first { length result.first.offsets ≡ 0 }
        ensures second { length result.second.offsets ≡ 0 }
        ensures joint { length result.joint.runs ≡ 0 }
    {
        PairMarks {
            first: EntryMarks::new(alloc),
            second: EntryMarks::new(alloc),
            joint: JointMarks::new(alloc),
        }
    }

    /// Makes marks for the cells below this number, if they aren't made yet.
    pub fn make(&mut self, cells: usize) -> Result<(), OutOfMemory>
        requires { cells ≤ most_cells }
        ensures first { OnOk result (cells ≤ length self.new.first.offsets) }
        ensures second { OnOk result (cells ≤ length self.new.second.offsets) }
        ensures joint { OnOk result (cells ≤ length self.new.joint.runs) }
    {
        self.first.make(cells)?;
        self.second.make(cells)?;
        self.joint.make(cells)
    }
}

/// One of the two agents.
#[derive(Clone, Copy, Debug, PartialEq, Eq)]
pub enum Side {
    First,
    Second,
}

impl<'a, 't> Pair<'a, 't> {
    /// Returns the task of the agent on this side.
    pub fn task(&self, side: Side) -> &SingleTask<'t>
        requires { IsPair self.now }
        ensures { result.now ≡ own_task (task_of self.now) side }
    {
        match side {
            Side::First => self.first_task,
            Side::Second => self.second_task,
        }
    }

    /// Returns the goal of the agent on the other side.
    pub fn other_goal(&self, side: Side) -> Cell
        ensures { result ≡ other_goal (task_of self.now) side }
    {
        match side {
            Side::First => self.second_task.agent().goal,
            Side::Second => self.first_task.agent().goal,
        }
    }

    /// Returns the label of the agent on this side in the cell at the tick, after the other has arrived.
    pub fn alone_label(&self, side: Side, cell: Cell, tick: Tick) -> Amount
        requires { IsPair self.now }
        ensures { IsJointLabel (task_of self.now) (lists_of self.now) (alone side cell) tick result }
    {
        match side {
            Side::First => self.first_label(cell, tick),
            Side::Second => self.second_label(cell, tick),
        }
    }

    /// Returns the label of both agents in these cells at the marks' tick. The first cell is free.
    pub fn both_label(&self, marks: &PairMarks, first: Cell, second: Cell) -> Amount
        requires pair { IsPair self.now }
        requires marks { AreMarks self.now marks.now marks.now.joint.tick }
        requires free { IsFree self.now.first_task.now.grid first }
        ensures { IsJointLabel (task_of self.now) (lists_of self.now) (Both first second) marks.now.joint.tick result }
    {
        match marks.joint.label(self.joint, first, second) {
            Some(label) => label,
            None => {
                let one = self.first_task.label(self.first, &marks.first, first);
                one.plus(self.second_task.label(self.second, &marks.second, second))
            }
        }
    }

    /// Returns the label of the first agent in this cell at the tick, after the second has arrived.
    pub fn first_label(&self, cell: Cell, tick: Tick) -> Amount
        requires { IsPair self.now }
        ensures { IsJointLabel (task_of self.now) (lists_of self.now) (FirstAlone cell) tick result }
    {
        let state = JointState::FirstAlone { first: cell };
        match label_in(self.joint, whole(self.joint), &state, tick) {
            Some(label) => label,
            None => label_at(self.first_task, self.first, cell, tick),
        }
    }

    /// Returns the label of the second agent in this cell at the tick, after the first has arrived.
    pub fn second_label(&self, cell: Cell, tick: Tick) -> Amount
        requires { IsPair self.now }
        ensures { IsJointLabel (task_of self.now) (lists_of self.now) (SecondAlone cell) tick result }
    {
        let state = JointState::SecondAlone { second: cell };
        match label_in(self.joint, whole(self.joint), &state, tick) {
            Some(label) => label,
            None => label_at(self.second_task, self.second, cell, tick),
        }
    }
}

/// Returns whether the label is at most the sum of this many units and the label after it.
#[inline(always)]
pub fn is_within(label: Amount, price: u64, after: Amount) -> bool
    ensures { IsTrue result ↔ IsAtMost label (label_plus (Ticks price) after) }
{
    match (label.units(), after.units()) {
        (_, None) => true,
        (None, Some(_)) => false,
        (Some(units), Some(later)) => units.saturating_sub(later) <= price,
    }
}

/// Returns the run of all entries.
pub fn whole(entries: &[JointEntry]) -> Run
    ensures { result ≡ record { begin = 0; end = length entries.now } }
{
    Run {
        begin: 0,
        end: entries.len(),
    }
}

// Returns the label of one agent in the cell at the tick.
fn label_at(task: &SingleTask, entries: &[PricedEntry], cell: Cell, tick: Tick) -> Amount
    requires { AllPairs IsBefore entries.now }
    ensures { IsSingleLabel task.now (entries_of entries.now) cell tick result }
{
    match entry_at(entries, cell, tick) {
        Some(label) => label,
        None => task.default_label(cell, tick),
    }
}

// Returns the label of the entry of a state, None if there is no such entry. Searches by bisection.
fn entry_at(entries: &[PricedEntry], cell: Cell, tick: Tick) -> Option<Amount>
    requires { AllPairs IsBefore entries.now }
    ensures { result ≡ entries_of entries.now cell tick }
{
    match entries.binary_search_by_key(
        &State { tick, cell },
        |entry: &PricedEntry| state_of(entry),
    ) {
        Ok(place) => Some(label_of(&entries[place])),
        Err(_) => None,
    }
}

fn state_of(entry: &PricedEntry) -> State
    ensures { result ≡ state_of entry.now }
{
    State {
        tick: entry.tick,
        cell: entry.cell,
    }
}

fn label_of(entry: &PricedEntry) -> Amount
    ensures { result ≡ entry.now.label }
{
    entry.label
}
