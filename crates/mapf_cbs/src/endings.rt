//! How a search over trees ends, by the labels and the status of each node.
ghost use Rattle.std.specs.Prelude.{ℕ, IfOk};
ghost use Rattle.mapf_model.specs.Plan.{Instance};
ghost use Rattle.mapf_cbs.specs.Answer.{IsOutcome};
ghost use Rattle.mapf_cbs.specs.Endings.{CanBeDrawn, IsExhausted, IsAtPlan, IsAtCause};

use crate::bound_labels::BoundLabels;
use crate::node::Status;
use crate::outcome::Outcome;
use crate::written::tree_nodes;
use mapf_model::{Cause, OutOfMemory, Plan};
use std::alloc::Global;

/// Returns the outcome if no node is open, so that no plan is valid.
pub fn impossible(
    alloc: Global,
    lists: Vec<BoundLabels>,
    statuses: &[Status],
) -> Result<Outcome, OutOfMemory>
    requires { CanBeDrawn lists.items statuses.now }
    ensures { IfOk result (λ outcome. (problem : Instance) (limit : ℕ) →
        IsExhausted problem limit lists.items statuses.now → IsOutcome problem limit outcome) }
{
    let tree = tree_nodes(alloc, lists, statuses)?;
    Ok(Outcome::Impossible { tree })
}

/// Returns the outcome if the paths of the least open node are a valid plan.
pub fn found(
    alloc: Global,
    plan: Plan,
    lists: Vec<BoundLabels>,
    statuses: &[Status],
) -> Result<Outcome, OutOfMemory>
    requires { CanBeDrawn lists.items statuses.now }
    ensures { IfOk result (λ outcome. (problem : Instance) (limit : ℕ) →
        IsAtPlan problem limit lists.items statuses.now plan → IsOutcome problem limit outcome) }
{
    let tree = tree_nodes(alloc, lists, statuses)?;
    Ok(Outcome::Found { plan, tree })
}

/// Returns the outcome if the search stops for this cause, at the least open node, of this sum.
pub fn stopped(
    alloc: Global,
    cause: Cause,
    bound: u64,
    lists: Vec<BoundLabels>,
    statuses: &[Status],
) -> Result<Outcome, OutOfMemory>
    requires { CanBeDrawn lists.items statuses.now }
    ensures { IfOk result (λ outcome. (problem : Instance) (limit : ℕ) →
        IsAtCause problem limit lists.items statuses.now cause bound → IsOutcome problem limit outcome) }
{
    let tree = tree_nodes(alloc, lists, statuses)?;
    Ok(Outcome::Limit { cause, bound, tree })
}
