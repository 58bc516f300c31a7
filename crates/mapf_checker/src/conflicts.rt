//! The first conflict of the paths of a plan, for the check of plans. The search has one of its own, in
//! `mapf_conflicts`.
ghost use Rattle.std.specs.Prelude.{◌<◌, ◌≤◌, ◌↔◌, length, All, IfNone, IfSome, IsTrue};
ghost use Rattle.mapf_model.specs.Conflicts.{HaveSomeConflict};
ghost use Rattle.mapf_model.specs.Limits.{most_agents, most_path_cells};
ghost use Rattle.mapf_model.specs.Pairs.{HoldsOfNoPair};
ghost use Rattle.mapf_model.specs.Plan.{Instance};
ghost use Rattle.mapf_checker.specs.Conflicts.{AreInOneCell, ExchangeCells, AreApartAt, IsPairWith};
ghost use Rattle.mapf_checker.specs.Defects.{HasDefect};

use crate::plan_fault::PlanFault;
use mapf_model::{Path, Tick, first_pair};

/// Returns the first conflict of the paths: the least tick, at a tick vertex conflicts before swapping conflicts, then
/// the least agents. None if and only if no two agents are in conflict at any tick.
pub fn first_conflict(paths: &[Path]) -> Option<PlanFault>
    requires { length paths.now ≤ most_agents }
    ensures some { (problem : Instance) → IfSome result (HasDefect problem paths.now) }
    ensures none { IfNone result (HaveSomeConflict paths.now → ⊥) }
{
    for tick in 0..longest(paths) {
        if let Some(fault) = conflict_at(paths, tick) {
            return Some(fault);
        }
    }
    None
}

// Returns the number of cells of the longest path, 1 if there are no paths.
fn longest(paths: &[Path]) -> Tick
    ensures longest { All (λ path. length path ≤ result) paths.now }
    ensures positive { 1 ≤ result }
    ensures bounded { result ≤ most_path_cells }
{
    let mut longest = 1;
    for path in paths {
        longest = longest.max(path.cells().len());
    }
    longest as Tick
}

// Returns the first conflict at the tick.
fn conflict_at(paths: &[Path], tick: Tick) -> Option<PlanFault>
    requires few { length paths.now ≤ most_agents }
    requires early { tick < most_path_cells }
    ensures some { (problem : Instance) → IfSome result (HasDefect problem paths.now) }
    ensures none { IfNone result (AreApartAt paths.now tick) }
{
    if let Some((i, j)) = sharing_pair(paths, tick) {
        return Some(PlanFault::V4 {
            i: i as u32,
            j: j as u32,
            tick,
        });
    }
    let (i, j) = exchanging_pair(paths, tick)?;
    Some(PlanFault::V5 {
        i: i as u32,
        j: j as u32,
        tick,
    })
}

// Returns the first two agents that are in one cell at the tick.
fn sharing_pair(paths: &[Path], tick: Tick) -> Option<(usize, usize)>
    requires { tick < most_path_cells }
    ensures some { IfSome result (IsPairWith (AreInOneCell paths.now tick) (length paths.now)) }
    ensures none { IfNone result (HoldsOfNoPair (AreInOneCell paths.now tick) (length paths.now)) }
{
    first_pair(
        paths.len(),
        |i: usize, j: usize| -> bool
            requires { (i < j) × (j < length paths.now) }
            ensures { IsTrue result ↔ AreInOneCell paths.entry.now tick i j }
        { share_cell(paths, tick, i, j) },
    )
}

// Returns the first two agents that exchange their cells between the tick and the next.
fn exchanging_pair(paths: &[Path], tick: Tick) -> Option<(usize, usize)>
    requires { tick < most_path_cells }
    ensures some { IfSome result (IsPairWith (ExchangeCells paths.now tick) (length paths.now)) }
    ensures none { IfNone result (HoldsOfNoPair (ExchangeCells paths.now tick) (length paths.now)) }
{
    first_pair(
        paths.len(),
        |i: usize, j: usize| -> bool
            requires place { (i < j) × (j < length paths.now) }
            requires early { tick < most_path_cells }
            ensures { IsTrue result ↔ ExchangeCells paths.entry.now tick i j }
        { exchange_cells(paths, tick, i, j) },
    )
}

fn share_cell(paths: &[Path], tick: Tick, i: usize, j: usize) -> bool
    requires { (i < j) × (j < length paths.now) }
    ensures { IsTrue result ↔ AreInOneCell paths.now tick i j }
{
    let (p, q) = (&paths[i], &paths[j]);
    p.at(tick) == q.at(tick)
}

fn exchange_cells(paths: &[Path], tick: Tick, i: usize, j: usize) -> bool
    requires place { (i < j) × (j < length paths.now) }
    requires early { tick < most_path_cells }
    ensures { IsTrue result ↔ ExchangeCells paths.now tick i j }
{
    let (p, q) = (&paths[i], &paths[j]);
    let (from, to) = (p.at(tick), p.at(tick + 1));
    from != to && q.at(tick) == to && q.at(tick + 1) == from
}
