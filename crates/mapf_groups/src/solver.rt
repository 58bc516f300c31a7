//! The search for an optimal plan, from the problem to the certificate.
ghost use Rattle.std.specs.Prelude.{◌≤◌};
ghost use Rattle.mapf_model.specs.Limits.{most_splits};

use crate::begin::impossible;
use crate::expand::Ended;
use crate::outcome::Outcome;
use crate::priced::{Priced, priced_within};
use crate::searcher::Searcher;
use mapf_model::{Cause, OutOfMemory, Path, Plan, Problem, Unwatched, Watcher};
use mapf_nodes::{Members, SearchTree};
use mapf_prices::{Budgets, FULL_BUDGETS, Known, QUICK_BUDGETS};
use std::alloc::Global;

/// Prices are tried after so many splits, or at the limit if that comes first. Then their budgets are smaller.
const SPLITS_BEFORE_PRICES: u32 = 1000;

/// Searches for an optimal plan, with at most `limit` splits, 0 to 100,000; below 300 the searches for groups at the
/// root may still make 300. A bypass is no split. Out of memory is the only error.
pub fn search(alloc: Global, problem: &Problem, limit: u32) -> Result<Outcome, OutOfMemory>
    requires { limit ≤ most_splits }
{
    search_below(alloc, problem, limit, u64::MAX, &mut Unwatched)
}

/// Searches as `search` does, but only for a plan with a sum of costs below this one, in ticks, and tells the watcher how
/// far it is. Where no such plan is left, the search ends as at a limit, with this sum as the bound: a plan that has it
/// is optimal. Prices may show that, or a greater bound at the limit.
pub fn search_below<W: Watcher>(
    alloc: Global,
    problem: &Problem,
    limit: u32,
    below: u64,
    watcher: &mut W,
) -> Result<Outcome, OutOfMemory>
    requires { limit ≤ most_splits }
{
    if let Some(parts) = impossible(alloc, problem)? {
        return Ok(Outcome::Impossible { parts });
    }
    let tree = tree_of_all(alloc, problem)?;
    let mut searcher = Searcher::of(alloc, problem, tree, limit)?;
    searcher.below = below;
    searcher.plant()?;
    if let Some(parts) = searcher.blocking()? {
        return Ok(Outcome::Impossible { parts });
    }
    let Some(ended) = searcher.run(SPLITS_BEFORE_PRICES, watcher)? else {
        return go_on(&mut searcher, watcher);
    };
    let priced = match &ended {
        Ended::Plan(_) => None,
        _ => by_prices(&searcher, &QUICK_BUDGETS)?,
    };
    let outcome = end(&mut searcher, ended)?;
    Ok(with_prices(outcome, priced))
}

// Goes on with a search that has paused, unless prices show that no cheaper plan is left.
fn go_on<W: Watcher>(searcher: &mut Searcher, watcher: &mut W) -> Result<Outcome, OutOfMemory> {
    let priced = by_prices(searcher, &FULL_BUDGETS)?;
    let is_in_vain = match &priced {
        Some(found) => found.bound >= searcher.below,
        None => false,
    };
    let outcome = if is_in_vain {
        Outcome::Limit {
            cause: Cause::Splits(searcher.limit),
            bound: 0,
            parts: Vec::new(searcher.alloc),
        }
    } else {
        let ended = searcher.finish(watcher)?;
        end(searcher, ended)?
    };
    Ok(with_prices(outcome, priced))
}

// Returns the bound by prices, if a plan is known that costs more than the bound of the search.
fn by_prices(searcher: &Searcher, budgets: &Budgets) -> Result<Option<Priced>, OutOfMemory> {
    let known = Known {
        bound: searcher.bound(),
        cost: searcher.below,
    };
    if known.cost == u64::MAX || known.bound >= known.cost {
        return Ok(None);
    }
    priced_within(searcher.alloc, searcher.problem, known, budgets)
}

// Returns the outcome of a search, with the bound by prices if the search ended with a smaller one.
fn with_prices(outcome: Outcome, priced: Option<Priced>) -> Outcome {
    let Some(priced) = priced else {
        return outcome;
    };
    let Priced {
        bound: shown,
        parts,
    } = priced;
    if let Outcome::Limit { cause, bound, .. } = &outcome {
        if shown > *bound {
            return Outcome::Limit {
                cause: *cause,
                bound: shown,
                parts,
            };
        }
    }
    outcome
}

// Returns the tree of all agents without nodes.
fn tree_of_all(alloc: Global, problem: &Problem) -> Result<SearchTree, OutOfMemory> {
    let count = problem.agents().len();
    let mut agents = Vec::new(alloc);
    for place in 0..count {
        agents.push(u32::try_from(place).map_err(|_| OutOfMemory)?)?;
    }
    let members = Members::of(alloc, agents, count)?;
    Ok(SearchTree::new(alloc, members, Vec::new(alloc)))
}

// Returns the outcome of a search that has ended.
fn end(searcher: &mut Searcher, ended: Ended) -> Result<Outcome, OutOfMemory> {
    let bound = searcher.tree.bound.min(searcher.below);
    match ended {
        Ended::Plan(paths) => match plan_of(searcher, &paths)? {
            Some((plan, cost)) => Ok(Outcome::Found {
                plan,
                parts: searcher.certify(cost)?,
            }),
            None => limited(searcher, Cause::Ticks, bound),
        },
        Ended::AtLimit(cause) => limited(searcher, cause, bound),
        // Each leaf is dead, but the labels of an agent whose goal is cut off for good would never end, so it is told
        // as `limit ticks`, though no conflict is late.
        Ended::Exhausted => limited(searcher, Cause::Ticks, bound),
    }
}

fn limited(searcher: &mut Searcher, cause: Cause, bound: u64) -> Result<Outcome, OutOfMemory> {
    Ok(Outcome::Limit {
        cause,
        bound,
        parts: searcher.certify(bound)?,
    })
}

// Returns the plan of these paths, without waits at their ends, and its sum of costs. None if one of them doesn't end
// at its agent's goal.
fn plan_of(searcher: &Searcher, numbers: &[u32]) -> Result<Option<(Plan, u64)>, OutOfMemory> {
    let mut paths = Vec::new(searcher.alloc);
    let mut sum = 0u64;
    for (&number, agent) in numbers.iter().zip(searcher.problem.agents()) {
        let cells = searcher.store.paths.cells(number);
        let arrival = cells.iter().rposition(|&cell| cell != agent.goal);
        let cost = arrival.map_or(0, |place| place.saturating_add(1));
        let Some(kept) = cells.get(..=cost) else {
            return Ok(None);
        };
        let Some(path) = Path::of(Vec::from_slice(searcher.alloc, kept)?) else {
            return Ok(None);
        };
        paths.push(path)?;
        sum = sum.saturating_add(cost as u64);
    }
    Ok(Plan::of(paths).map(|plan| (plan, sum)))
}
