//! The result of a search with the nodes of its tree, from which the run of `solve` writes its texts. An `Answer` is
//! made of it.
ghost use Rattle.std.specs.Prelude.{◌≡◌, ℕ, IfOk, map};
ghost use Rattle.mapf_model.specs.Tree.{node_of};
ghost use Rattle.mapf_cbs.specs.Answer.{IsOutcome, IsSearchAnswer};
ghost use Rattle.mapf_model.specs.Plan.{Instance};

use crate::answer::Answer;
use crate::tree_node::TreeNode;
use mapf_model::{Cause, Item, OutOfMemory, Plan};
use std::alloc::Global;

/// What a search found, with the nodes of its constraint tree in pre-order: an `Answer` that takes less memory.
#[derive(Debug, Drop)]
pub enum Outcome {
    /// An optimal plan, and a tree that shows that no valid plan is cheaper.
    Found {
        plan: Plan,
        tree: Vec<TreeNode>,
    },
    /// No plan is valid, and the tree shows it.
    Impossible {
        tree: Vec<TreeNode>,
    },
    /// The search stopped at its limit, at a leaf of the tree whose paths conflict. The tree shows that no valid plan
    /// has a sum of costs below the bound, in ticks, and shows no greater bound.
    Limit {
        cause: Cause,
        bound: u64,
        tree: Vec<TreeNode>,
    },
}

impl Outcome {
    /// Returns the same as an answer, whose tree is a list of items.
    pub fn into_answer(self, alloc: Global) -> Result<Answer, OutOfMemory>
        ensures { IfOk result (λ answer. (problem : Instance) (limit : ℕ) → IsOutcome problem limit self →
            IsSearchAnswer problem limit answer) }
    {
        match self {
            Outcome::Found { plan, tree } => Ok(Answer::Found {
                plan,
                tree: items_of(alloc, tree)?,
            }),
            Outcome::Impossible { tree } => Ok(Answer::Impossible {
                tree: items_of(alloc, tree)?,
            }),
            Outcome::Limit { cause, bound, tree } => Ok(Answer::Limit {
                cause,
                bound,
                tree: items_of(alloc, tree)?,
            }),
        }
    }
}

// Returns an item for each of the nodes.
fn items_of(alloc: Global, nodes: Vec<TreeNode>) -> Result<Vec<Item>, OutOfMemory>
    ensures { IfOk result (λ items. map node_of items.items ≡ nodes.items) }
{
    let mut items = Vec::new(alloc);
    for node in nodes {
        items.push(node.into_item(alloc)?)?;
    }
    Ok(items)
}
