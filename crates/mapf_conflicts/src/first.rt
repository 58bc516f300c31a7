//! The search for the first conflict, tick by tick, whatever holds the paths. The simple search calls it without marks,
//! the search over trees by way of `marks.rt`.
ghost use Rattle.std.specs.Prelude.{◌≡◌, ◌<◌, ◌≤◌, length, slice_index, IfNone, IfOk, IfSome};
ghost use Rattle.mapf_model.specs.declared.conflict.Conflict.TheVariants.{Vertex};
ghost use Rattle.mapf_model.specs.Conflicts.{tick_of, HasConflict, AreConflictFreeBefore, HaveSomeConflict};
ghost use Rattle.mapf_model.specs.Limits.{most_agents};
ghost use Rattle.mapf_model.specs.Pairs.{IsFirstPair, HoldsOfNoPair};
ghost use Rattle.mapf_conflicts.specs.Pairs.{ShareCell, ExchangeCells};
ghost use Rattle.mapf_conflicts.specs.Pairs.{AreOthersApart, AreOthersFreeBefore};
ghost use Rattle.mapf_conflicts.specs.Pairs.{IsConflictOf, IsFirstOf, IsFirstOfItsTick, IsOrdered};

use crate::marked_pairs::{Unmarked, marked_exchanging_pair, marked_sharing_pair};
use crate::pairs::{exchanging_pair, may_conflict, meets_another, sharing_pair};
use crate::path_list::PathList;
use crate::paths_by_tick::PathsByTick;
use mapf_model::limits::MOST_AGENTS;
use mapf_model::{Cell, Conflict, Plan, Tick};

/// Returns the first conflict of the paths: of the least tick, at a tick a vertex conflict before a swapping conflict,
/// then of the least agent `i`, then of the least agent `j` greater than `i`. None if and only if no two agents are in
/// conflict at any tick, also after the ends of their paths.
pub fn first_conflict(plan: &Plan) -> Option<Conflict>
    // A conflict that is returned is one of the plan.
    ensures some { IfSome result (HasConflict plan.now) }
    // No two agents conflict at an earlier tick.
    ensures first { IfSome result (λ conflict. AreConflictFreeBefore plan.now (tick_of conflict)) }
    // Its first agent has the smaller number.
    ensures ordered { IfSome result IsOrdered }
    // It is the first of its tick: vertex conflicts come before swapping ones, then the agents' numbers decide.
    ensures least { IfSome result (IsFirstOfItsTick plan.now) }
    // No conflict is returned only if no two agents conflict at any tick.
    ensures none { IfNone result (HaveSomeConflict plan.now → ⊥) }
{
    first_among(&mut [], &PathList::of(plan.paths()), 0, 0)
}

/// Returns the first conflict of these paths. The marks may be for some cells or for none, and may have any values. The
/// caller ensures that before the tick `free` no two agents other than this one conflict.
pub fn first_among<P: PathsByTick>(
    marks: &mut [u8],
    paths: &P,
    agent: u32,
    free: Tick,
) -> Option<Conflict>
    requires few { length (P.paths paths.now) ≤ most_agents }
    requires others { AreOthersFreeBefore (P.paths paths.now) agent free }
    ensures some { IfSome result (HasConflict (P.paths paths.now)) }
    ensures first { IfSome result (λ conflict. AreConflictFreeBefore (P.paths paths.now) (tick_of conflict)) }
    ensures ordered { IfSome result IsOrdered }
    ensures least { IfSome result (IsFirstOfItsTick (P.paths paths.now)) }
    ensures none { IfNone result (HaveSomeConflict (P.paths paths.now) → ⊥) }
{
    let count = paths.count();
    let mut here = [Cell(0); MOST_AGENTS as usize];
    let mut next = [Cell(0); MOST_AGENTS as usize];
    paths.write_cells(0, &mut here[..count]);
    for tick in 0..paths.length_bound() {
        paths.write_cells(tick + 1, &mut next[..count]);
        let only = agent_before(agent, tick, free);
        if let Some(conflict) = conflict_of(marks, &here[..count], &next[..count], only, tick) {
            return Some(conflict);
        }
        here[..count].copy_from_slice(&next[..count]);
    }
    None
}

// Returns the agent if the tick is before `free`, else None.
fn agent_before(agent: u32, tick: Tick, free: Tick) -> Option<usize>
    ensures { IfSome result (λ only. (only ≡ agent) × (tick < free)) }
{
    if tick < free {
        return Some(agent as usize);
    }
    None
}

// Returns the first conflict of agents that are in the cells `here` at the tick and in the cells `next` at the next
// one. If `only` names an agent, no two others share a cell or exchange their cells.
fn conflict_of(
    marks: &mut [u8],
    here: &[Cell],
    next: &[Cell],
    only: Option<usize>,
    tick: Tick,
) -> Option<Conflict>
    requires size { length next.now ≡ length here.now }
    requires few { length here.now ≤ most_agents }
    requires others { IfSome only (AreOthersApart here.now next.now) }
    ensures some { IfSome result (IsConflictOf here.now next.now tick) }
    ensures first { IfSome result (IsFirstOf here.now next.now) }
    ensures share { IfNone result (HoldsOfNoPair (ShareCell here.now) (length here.now)) }
    ensures exchange { IfNone result (HoldsOfNoPair (ExchangeCells here.now next.now) (length here.now)) }
{
    if let Some(agent) = only {
        // This takes less time than marks, since it is compiled to instructions on several agents at once.
        if !meets_another(here, next, agent) {
            return None;
        }
    }
    match marked_conflict(marks, here, next, tick) {
        Ok(found) => found,
        Err(Unmarked) => unmarked_conflict(here, next, tick),
    }
}

// Returns the same by marks, in time linear in the number of agents. An error if a cell that is looked up has no mark.
fn marked_conflict(
    marks: &mut [u8],
    here: &[Cell],
    next: &[Cell],
    tick: Tick,
) -> Result<Option<Conflict>, Unmarked>
    requires size { length next.now ≡ length here.now }
    requires few { length here.now ≤ most_agents }
    ensures some { IfOk result (λ found. IfSome found (IsConflictOf here.now next.now tick)) }
    ensures first { IfOk result (λ found. IfSome found (IsFirstOf here.now next.now)) }
    ensures share { IfOk result (λ found. IfNone found (HoldsOfNoPair (ShareCell here.now) (length here.now))) }
    ensures exchange { IfOk result (λ found.
        IfNone found (HoldsOfNoPair (ExchangeCells here.now next.now) (length here.now))) }
{
    if let Some((i, j)) = marked_sharing_pair(marks, here)? {
        return Ok(Some(vertex(here, i, j, tick)));
    }
    match marked_exchanging_pair(marks, here, next)? {
        Some((i, j)) => Ok(Some(swap(here, next, i, j, tick))),
        None => Ok(None),
    }
}

// Returns the same without marks.
fn unmarked_conflict(here: &[Cell], next: &[Cell], tick: Tick) -> Option<Conflict>
    requires size { length next.now ≡ length here.now }
    requires few { length here.now ≤ most_agents }
    ensures some { IfSome result (IsConflictOf here.now next.now tick) }
    ensures first { IfSome result (IsFirstOf here.now next.now) }
    ensures share { IfNone result (HoldsOfNoPair (ShareCell here.now) (length here.now)) }
    ensures exchange { IfNone result (HoldsOfNoPair (ExchangeCells here.now next.now) (length here.now)) }
{
    if !may_conflict(here, next) {
        return None;
    }
    if let Some((i, j)) = sharing_pair(here) {
        return Some(vertex(here, i, j, tick));
    }
    let (i, j) = exchanging_pair(here, next)?;
    Some(swap(here, next, i, j, tick))
}

// Returns the vertex conflict of the two agents.
fn vertex(here: &[Cell], i: usize, j: usize, tick: Tick) -> Conflict
    requires few { length here.now ≤ most_agents }
    requires first { IsFirstPair (ShareCell here.now) (length here.now) (i, j) }
    ensures is { result ≡ Vertex i j (slice_index here.now i) tick }
{
    Conflict::Vertex {
        i: i as u32,
        j: j as u32,
        cell: here[i],
        tick,
    }
}

// Returns the swapping conflict of the two agents.
fn swap(here: &[Cell], next: &[Cell], i: usize, j: usize, tick: Tick) -> Conflict
    requires size { length next.now ≡ length here.now }
    requires few { length here.now ≤ most_agents }
    requires apart { HoldsOfNoPair (ShareCell here.now) (length here.now) }
    requires first { IsFirstPair (ExchangeCells here.now next.now) (length here.now) (i, j) }
    ensures is { IsConflictOf here.now next.now tick result }
    ensures first { IsFirstOf here.now next.now result }
{
    Conflict::Swap {
        i: i as u32,
        j: j as u32,
        from: here[i],
        to: next[i],
        tick,
    }
}
