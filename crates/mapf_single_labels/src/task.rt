//! What the entries of one agent are judged by. The judges of one agent's entries and of two agents' entries ask it for
//! labels, barred states, steps and rest.
ghost use Rattle.std.specs.Prelude.{◌≡◌, ◌↔◌, ◌<◌, ◌≤◌, AllPairs, All, IsTrue, length, slice_get};
ghost use Rattle.mapf_distance.specs.Tables.{AreMade, HasTable};
ghost use Rattle.mapf_lemmas.specs.SingleLabels.{IsBarred, IsDefault, IsSingleLabel, MayRest, MayStep};
ghost use Rattle.mapf_model.specs.Grid.{IsFree};
ghost use Rattle.mapf_model.specs.Labels.{entries_of};
ghost use Rattle.mapf_model.specs.Limits.{greatest_cost};
ghost use Rattle.mapf_model.specs.Neighbours.{neighbourhood};
ghost use Rattle.mapf_model.specs.Printed.{IsBefore};
ghost use Rattle.mapf_single_labels.specs.Marks.{IsMarking};
ghost use Rattle.mapf_single_labels.specs.Ranges.{IsLabelUpTo, IsPricedEntryInRange, greatest_entry_label};
ghost use Rattle.mapf_single_labels.specs.Ranges.{greatest_label};
ghost use Rattle.mapf_single_labels.specs.Tasks.{IsTooLate};

use crate::marks::EntryMarks;
use crate::price_table::PriceTable;
use crate::task_constraints::TaskConstraints;
use mapf_distance::{Distances, LazyTables};
use mapf_lemmas::{Amount, PricedEntry};
use mapf_model::{Agent, Cell, Grid, Problem, Tick};
use std::marker::Model;

/// The task of one agent, to reach its goal under the constraints of a lemma, and what entries of it are judged by.
#[derive(Drop)]
pub struct SingleTask<'a> {
    grid: &'a Grid,
    // The distances to the agent's goal.
    distances: &'a Distances,
    prices: &'a PriceTable,
    constraints: &'a TaskConstraints,
    agent: Agent,
}

impl<'a> Model for SingleTask<'a> {
    ghost use Rattle.mapf_lemmas.specs.SingleLabels.{Task};

    ghost Value = { Task };

    ghost use Rattle.std.specs.Prelude.{◌≡◌};

    ghost view = { λ task. record {
      grid = task.grid.now;
      list = task.prices.now;
      agent = task.agent;
      constraints = task.constraints.now;
    } };

    ghost invariant = { λ task.
        (task.distances.now.grid ≡ task.grid.now) × (task.distances.now.goal ≡ task.agent.goal) };
}

impl<'a> SingleTask<'a> {
    /// Returns the task of an agent, with the distances to its goal.
    pub fn of(
        grid: &'a Grid,
        distances: &'a Distances,
        prices: &'a PriceTable,
        constraints: &'a TaskConstraints,
        agent: Agent,
    ) -> SingleTask<'a>
        requires grid { distances.now.grid ≡ grid.now }
        requires goal { distances.now.goal ≡ agent.goal }
        ensures { result ≡ record { grid = grid.now; list = prices.now; agent = agent; constraints = constraints.now } }
    {
        SingleTask {
            grid,
            distances,
            prices,
            constraints,
            agent,
        }
    }

    /// Returns the task of the agent of this number in a problem. The table of its distances must have been made.
    pub fn of_agent(
        problem: &'a Problem,
        tables: &'a LazyTables,
        prices: &'a PriceTable,
        constraints: &'a TaskConstraints,
        agent: u32,
    ) -> SingleTask<'a>
        requires tables { AreMade problem.now tables.now }
        requires made { HasTable tables.now agent }
        ensures grid { result.grid ≡ problem.now.grid }
        ensures agent { slice_get problem.now.agents agent ≡ Some result.agent }
        ensures list { result.list ≡ prices.now }
        ensures constraints { result.constraints ≡ constraints.now }
    {
        let own = agent_at(problem, agent);
        SingleTask::of(problem.grid(), tables.get(agent), prices, constraints, own)
    }

    /// Returns the agent.
    pub fn agent(&self) -> Agent
        ensures { result ≡ self.now.agent }
    {
        self.agent
    }

    /// Returns the grid.
    pub fn grid(&self) -> &Grid
        ensures { result.now ≡ self.now.grid }
    {
        self.grid
    }

    /// Returns the table of prices.
    #[inline(always)]
    pub fn prices(&self) -> &PriceTable
        ensures { result.now ≡ self.now.list }
    {
        self.prices
    }

    /// Returns the neighbourhood of a free cell: the cells above and left, the cell itself, and those right and below,
    /// in rising order.
    #[inline(always)]
    pub fn beside(&self, cell: Cell) -> [Option<Cell>; 5]
        requires { IsFree self.now.grid cell }
        ensures cells { result ≡ neighbourhood self.now.grid.width cell }
        ensures wide { 0 < self.now.grid.width }
    {
        self.distances.beside(cell)
    }

    /// Returns whether a constraint excludes the cell at the tick, for an agent that hasn't arrived for good at an
    /// earlier tick.
    pub fn is_barred(&self, cell: Cell, tick: Tick) -> bool
        ensures { IsTrue result ↔ IsBarred self.now cell tick }
    {
        self.constraints.forbids(cell, tick) || self.is_too_late(cell, tick)
    }

    // Returns whether an agent in the cell at the tick costs more than some constraint allows.
    fn is_too_late(&self, cell: Cell, tick: Tick) -> bool
        ensures { IsTrue result ↔ IsTooLate self.now cell tick }
    {
        match (self.constraints.most(), self.distances.get(cell)) {
            (None, _) => false,
            (Some(_), None) => true,
            (Some(most), Some(distance)) => (most as u64) < tick as u64 + distance as u64,
        }
    }

    /// Returns whether the agent may go from the one cell at the tick to the other, in one tick.
    pub fn may_step(&self, from: Cell, to: Cell, tick: Tick) -> bool
        requires { tick ≤ greatest_cost }
        ensures { IsTrue result ↔ MayStep self.now from to tick }
    {
        self.grid.is_step(from, to)
            && !self.is_barred(to, tick + 1)
            && !self.constraints.forbids_move(from, to, tick)
    }

    /// Returns whether the agent may arrive for good in the cell at the tick.
    pub fn may_rest(&self, cell: Cell, tick: Tick) -> bool
        ensures { IsTrue result ↔ MayRest self.now cell tick }
    {
        cell == self.agent.goal
            && self.constraints.least() <= tick
            && !self.constraints.forbids_from(cell, tick)
    }

    /// Returns the label of the cell at the tick if no entry gives one, in units: at most 4,294,967,295,000 if it is
    /// finite.
    #[inline(always)]
    pub fn default_label(&self, cell: Cell, tick: Tick) -> Amount
        ensures is { IsDefault self.now cell tick result }
        ensures small { IsLabelUpTo greatest_label result }
        // Where a tick is worth 1 unit it isn't greater than the greatest label of an entry.
        ensures plain { self.now.list.unit ≡ 1 → IsLabelUpTo greatest_entry_label result }
    {
        match self.distances.get(cell) {
            Some(distance) => {
                let ticks = distance.max(self.constraints.least().saturating_sub(tick));
                Amount::of(self.prices.unit() * ticks as u64)
            }
            None => Amount::infinite(),
        }
    }

    /// Returns the label of the cell at the tick whose entries are marked, in units: at most 4,294,967,295,000 if it is
    /// finite.
    #[inline(always)]
    pub fn label(&self, entries: &[PricedEntry], marks: &EntryMarks, cell: Cell) -> Amount
        requires rising { AllPairs IsBefore entries.now }
        requires range { All IsPricedEntryInRange entries.now }
        requires marking { IsMarking entries.now marks.now }
        ensures is { IsSingleLabel self.now (entries_of entries.now) cell marks.now.tick result }
        ensures small { IsLabelUpTo greatest_label result }
    {
        match marks.entry(entries, cell) {
            Some(label) => label,
            None => self.default_label(cell, marks.tick()),
        }
    }
}

// Returns the agent of this number.
fn agent_at(problem: &Problem, agent: u32) -> Agent
    requires { agent < length problem.now.agents }
    ensures { slice_get problem.now.agents agent ≡ Some result }
{
    problem.agents()[agent as usize]
}
