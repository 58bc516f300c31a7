//! The dispatcher: may an agent that follows a plan move on? The runs of `dispatch` and `follow` and the calls for C
//! make one, and ask it.
ghost use Rattle.std.specs.Prelude.{◌≡◌, ◌<◌, ◌≤◌, ◌+◌, ◌*◌, ◌^◌, ◌++◌, ◌↔◌, ℕ, All, Some, None, min, length};
ghost use Rattle.std.specs.Prelude.{IfOk, IfSome, IsTrue, OnOk, MatchOption, slice_get};
ghost use Rattle.std.specs.List.Sorted.{IsNonDecreasingBy};
ghost use Rattle.mapf_model.specs.Plan.{Instance, IsValid};
ghost use Rattle.mapf_player.specs.Cycles.{IsHeldBy};
ghost use Rattle.mapf_player.specs.Visits.{AreVisitsOfAll};
ghost use Rattle.mapf_player.specs.Dispatching.{Advances, IsIn, IsLeastAwaited, IsNext, IsOfValidPlan};
ghost use Rattle.mapf_player.specs.Dispatching.{IsProgress, IsReply, beginning};
ghost use Rattle.mapf_player.specs.Turns.{AreSortedTurns, IsDue, IsTurn, key_of, own_turns};
ghost use Rattle.mapf_model.specs.Limits.{most_agents, most_path_cells};

use crate::reply::Reply;
use crate::visit::{Visit, Visits};
use mapf_model::limits::MOST_PATH_CELLS;
use mapf_model::{OutOfMemory, Plan};
use std::alloc::Global;
use std::marker::Model;

// A visit in the list of all visits, which is ordered by cell and tick of entry.
#[derive(Clone, Copy, Debug)]
struct Turn {
    // The cell and the tick of entry as one number.
    key: u64,
    agent: u32,
    // The number of the agent's visit.
    number: u32,
}

fn key_of(visit: &Visit) -> u64
    requires { visit.now.entry < most_path_cells }
    ensures { result ≡ key_of visit.now }
{
    first_key(visit) + visit.entry as u64
}

// Returns the least key that a visit of the same cell can have.
fn first_key(visit: &Visit) -> u64
    ensures key { result ≡ visit.now.cell * most_path_cells }
    ensures small { result < 2 ^ 32 * most_path_cells }
{
    visit.cell.0 as u64 * MOST_PATH_CELLS as u64
}

// Returns the smaller of two agents, of which one may be missing.
fn lesser(least: Option<u32>, agent: u32) -> u32
    ensures { MatchOption least (result ≡ agent) (λ other. result ≡ min other agent) }
{
    match least {
        Some(other) => other.min(agent),
        None => agent,
    }
}

// Returns the visits of each agent's path.
fn visits_of(alloc: Global, plan: &Plan) -> Result<Vec<Visits>, OutOfMemory>
    ensures visits { IfOk result (λ visits. AreVisitsOfAll plan.now visits.items) }
    ensures few { IfOk result (λ visits. length visits.items ≤ most_agents) }
{
    let mut visits = Vec::new(alloc);
    for path in plan.paths() {
        visits.push(Visits::of(alloc, path)?)?;
    }
    Ok(visits)
}

// Adds the turns of one agent.
fn add_turns(turns: &mut Vec<Turn>, agent: u32, visits: &Visits) -> Result<(), OutOfMemory>
    ensures turns { OnOk result (turns.new.items ≡ turns.old.items ++ own_turns agent 0 visits.now) }
    ensures early { All (λ visit. visit.entry < most_path_cells) visits.now }
{
    let visits = visits.as_slice();
    for (number, visit) in visits.iter().enumerate() {
        turns.push(Turn {
            key: key_of(visit),
            agent,
            number: number as u32,
        })?;
    }
    Ok(())
}

// Returns all visits by cell and then by tick of entry. In a valid plan no two of them have the same of both.
fn turns_of(alloc: Global, visits: &[Visits]) -> Result<Vec<Turn>, OutOfMemory>
    requires { length visits.now ≤ most_agents }
    ensures { IfOk result (λ turns. AreSortedTurns visits.now turns.items) }
{
    let mut turns = Vec::new(alloc);
    for (agent, own) in visits.iter().enumerate() {
        add_turns(&mut turns, agent as u32, own)?;
    }
    turns.sort_unstable_by_key(|turn| turn.key);
    Ok(turns)
}

// Returns how many turns have a smaller key.
fn place_of(turns: &[Turn], key: u64) -> usize
    requires { IsNonDecreasingBy (λ turn. turn.key) turns.now }
    ensures bound { result ≤ length turns.now }
    ensures before { (p : ℕ) (turn : Turn) → p < result → slice_get turns.now p ≡ Some turn → turn.key < key }
    ensures behind { (p : ℕ) (turn : Turn) → result ≤ p → slice_get turns.now p ≡ Some turn → key ≤ turn.key }
{
    turns.partition_point(|turn| turn.key < key)
}

/// Agents that follow a valid plan, each at its own pace: how far each is, and in which order they visit each cell.
#[derive(Debug, Drop)]
pub struct Dispatch {
    visits: Vec<Visits>,
    // All visits by cell and then by tick of entry.
    turns: Vec<Turn>,
    // The number of the visit in which each agent is.
    numbers: Vec<u32>,
}

impl Model for Dispatch {
    ghost use Rattle.std.specs.Prelude.{length, ◌≤◌};
    ghost use Rattle.mapf_model.specs.Limits.{most_agents};
    ghost use Rattle.mapf_player.specs.Dispatching.{Progress, IsOfValidPlan};
    ghost use Rattle.mapf_player.specs.Turns.{AreSortedTurns};

    ghost Value = { Progress };

    ghost view = { λ d. record { visits = d.visits.items; numbers = d.numbers.items } };

    ghost invariant = { λ d. IsOfValidPlan (record { visits = d.visits.items; numbers = d.numbers.items })
        × AreSortedTurns d.visits.items d.turns.items × (length d.numbers.items ≤ most_agents) };
}

impl Dispatch {
    /// Returns the state in which each agent of the plan is in its first visit. Allocates all memory; later calls
    /// allocate nothing.
    pub fn new(alloc: Global, plan: &Plan) -> Result<Dispatch, OutOfMemory>
        requires valid { (problem : Instance) × IsValid problem plan.now }
        // It has the visits of each path.
        ensures visits { IfOk result (λ dispatch. AreVisitsOfAll plan.now dispatch.visits) }
        // Each agent is in its first visit.
        ensures beginning { IfOk result (λ dispatch. dispatch ≡ beginning dispatch.visits) }
    {
        let visits = visits_of(alloc, plan)?;
        let turns = turns_of(alloc, &visits)?;
        let mut numbers = Vec::new(alloc);
        numbers.resize(visits.len(), 0)?;
        Ok(Dispatch {
            visits,
            turns,
            numbers,
        })
    }

    /// Returns how many agents there are: at most 200.
    pub fn agents(&self) -> u32
        ensures count { result ≡ length self.now.numbers }
        ensures few { result ≤ most_agents }
        // They follow a valid plan.
        ensures valid { IsOfValidPlan self.now }
    {
        self.numbers.len() as u32
    }

    /// Returns the visits of an agent, in their order. None if it isn't an agent. Nothing is allocated.
    pub fn visits(&self, agent: u32) -> Option<&[Visit]>
        ensures own { MatchOption result (slice_get self.now.visits agent ≡ None)
            (λ own. slice_get self.now.visits agent ≡ Some own.now) }
        ensures few { IfSome result (λ own. length own.now ≤ most_path_cells) }
    {
        match self.visits.get(agent as usize) {
            Some(own) => Some(own.as_slice()),
            None => None,
        }
    }

    /// Returns the reply to an agent that asks to move on to its next cell. If the reply is `Go`, the agent is in that
    /// cell from now on, and has left the one before. Nothing is allocated.
    pub fn ask(&mut self, agent: u32) -> Reply
        requires { agent < length self.old.numbers }
        ensures reply { IsReply self.old agent result self.new }
        // The agents' progress is one that agents that follow a valid plan can reach, so no two of them are in one
        // cell.
        ensures valid { IsOfValidPlan self.new }
        ensures agents { length self.new.numbers ≡ length self.old.numbers }
    {
        let number = self.number(agent);
        let Some(next) = self.next(agent, number) else {
            return Reply::Done;
        };
        if let Some(other) = self.awaited(&next) {
            return Reply::Hold { other };
        }
        self.advance(agent, number);
        Reply::Go(next.cell)
    }

    /// Returns the other agent by which this one is held if it asks now, None if it isn't held. Nothing is allocated.
    pub fn holder(&self, agent: u32) -> Option<u32>
        requires { agent < length self.now.numbers }
        ensures held { MatchOption result ((other : ℕ) → IsHeldBy self.now agent other → ⊥) (IsHeldBy self.now agent) }
        ensures within { IfSome result (λ other. other < length self.now.numbers) }
    {
        let Some(next) = self.next(agent, self.number(agent)) else {
            return None;
        };
        self.awaited(&next)
    }

    // Returns the agent's next visit after this one, in which it is.
    fn next(&self, agent: u32, number: u32) -> Option<Visit>
        requires { slice_get self.now.numbers agent ≡ Some number }
        ensures next { MatchOption result ((visit : Visit) → IsNext self.now agent visit → ⊥) (IsNext self.now agent) }
        ensures early { IfSome result (λ visit. visit.entry < most_path_cells) }
        ensures current { (visit : Visit) × IsIn self.now agent visit }
        ensures valid { IsOfValidPlan self.now }
        ensures small { number < most_path_cells }
    {
        let visits = self.visits.as_slice();
        let own = visits[agent as usize].as_slice();
        let place = number as usize + 1;
        if place < own.len() {
            Some(own[place])
        } else {
            None
        }
    }

    // Moves the agent from this visit to its next one.
    fn advance(&mut self, agent: u32, number: u32)
        requires number { slice_get self.old.numbers agent ≡ Some number }
        requires small { number < most_path_cells }
        requires free { (visit : Visit) × IsNext self.old agent visit × IsLeastAwaited self.old agent visit None }
        ensures change { Advances self.old agent self.new }
        ensures valid { IsOfValidPlan self.new }
    {
        self.numbers[agent as usize] = number + 1;
    }

    // Returns the number of the visit in which the agent is.
    fn number(&self, agent: u32) -> u32
        requires { agent < length self.now.numbers }
        ensures { slice_get self.now.numbers agent ≡ Some result }
    {
        self.numbers[agent as usize]
    }

    // Returns whether the turn has at least this key and its agent hasn't left it.
    fn is_due(&self, turn: &Turn, from: u64) -> bool
        requires progress { IsProgress self.now }
        requires turn { IsTurn self.now turn.now }
        ensures { IsTrue result ↔ IsDue self.now turn.now from }
    {
        from <= turn.key && self.number(turn.agent) <= turn.number
    }

    // Returns the least other agent that visits the cell earlier in the plan and hasn't left it.
    fn awaited(&self, visit: &Visit) -> Option<u32>
        requires { visit.now.entry < most_path_cells }
        ensures { (agent : ℕ) → IsNext self.now agent visit.now → IsLeastAwaited self.now agent visit.now result }
    {
        let key = key_of(visit);
        let from = first_key(visit);
        let earlier = place_of(&self.turns, key);
        let mut least: Option<u32> = None;
        let mut place = earlier;
        while place > 0 {
            let turn = self.turns[place - 1];
            if !self.is_due(&turn, from) {
                break;
            }
            least = Some(lesser(least, turn.agent));
            place -= 1;
        }
        least
    }
}
