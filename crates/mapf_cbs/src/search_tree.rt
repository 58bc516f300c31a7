//! The constraint tree while the search over trees grows it: its nodes, their statuses and the open list. The tree of
//! the simple search keeps statuses by the same functions.
ghost use Rattle.std.specs.Prelude.{◌≡◌, ◌+◌, ◌^◌, ◌<◌, ◌≤◌, ◌∷◌, [], length, All, IfOk, OnOk};
ghost use Rattle.mapf_model.specs.Limits.{most_agents};
ghost use Rattle.mapf_cbs.specs.State.{status_of, with_children, split_statuses, with_key, with_keys};

use crate::child::GeneratedChild;
use crate::node::{Node, Status};
use crate::open_nodes::OpenNodes;
use mapf_conflicts::BasePaths;
use mapf_model::{Conflict, OutOfMemory, Path};
use std::alloc::Global;

/// The constraint tree of a search. Nodes are numbered in the order in which they were made; the root has number 0.
#[derive(Debug, Drop)]
pub struct SearchTree {
    pub nodes: Vec<Node>,
    // The status of each node.
    pub statuses: Vec<Status>,
    // The open list: the sum and the number of each open node.
    pub waiting: OpenNodes,
    // How many nodes were split.
    pub splits: u32,
}

impl SearchTree {
    /// Returns the tree of a root with these paths, whose costs have this sum.
    pub fn of(alloc: Global, paths: Vec<Path>, total: u64) -> Result<SearchTree, OutOfMemory>
        requires { length paths.items ≤ most_agents }
        ensures nodes { IfOk result (λ tree. tree.nodes.items ≡ Node.Root paths.items ∷ []) }
        ensures statuses { IfOk result (λ tree. tree.statuses.items ≡ Status.Open ∷ []) }
        ensures waiting { IfOk result (λ tree. tree.waiting ≡ (total, 0) ∷ []) }
        ensures splits { IfOk result (λ tree. tree.splits ≡ 0) }
    {
        let mut nodes = Vec::new(alloc);
        nodes.push(Node::Root {
            paths: BasePaths::of(alloc, paths)?,
        })?;
        Ok(SearchTree {
            nodes,
            statuses: root_statuses(alloc)?,
            waiting: OpenNodes::of(alloc, total, 0)?,
            splits: 0,
        })
    }

    /// Splits a node on the conflict: its children are added, the left one first.
    pub fn grow(
        &mut self,
        k: u32,
        conflict: &Conflict,
        left: GeneratedChild,
        right: GeneratedChild,
    ) -> Result<(), OutOfMemory>
        requires same { length self.old.nodes.items ≡ length self.old.statuses.items }
        requires few { length self.old.nodes.items < 2 ^ 31 }
        requires inside { k < length self.old.statuses.items }
        requires splits { self.old.splits < 2 ^ 31 }
        requires newest { All (λ key. key.1 < length self.old.nodes.items) self.old.waiting }
        ensures nodes { OnOk result
            (self.new.nodes.items ≡ with_children self.old.nodes.items k conflict.now left.found right.found) }
        ensures statuses { OnOk result
            (self.new.statuses.items ≡ split_statuses self.old.statuses.items k conflict.now left.total right.total) }
        ensures waiting { OnOk result (self.new.waiting ≡
            with_keys self.old.waiting (length self.old.nodes.items) left.total right.total) }
        ensures splits { OnOk result (self.new.splits ≡ self.old.splits + 1) }
    {
        let number = expand(&mut self.statuses, k, conflict, left.total, right.total)?;
        self.add_open(left.total, number)?;
        self.add_open(right.total, number + 1)?;
        self.nodes.push(Node::Child {
            parent: k,
            constraint: conflict.left(),
            found: left.found,
        })?;
        self.nodes.push(Node::Child {
            parent: k,
            constraint: conflict.right(),
            found: right.found,
        })?;
        self.splits += 1;
        Ok(())
    }

    // Adds a node to the open list, if it has a sum.
    fn add_open(&mut self, total: Option<u64>, number: u32) -> Result<(), OutOfMemory>
        requires { All (λ key. key.1 < number) self.old.waiting }
        ensures waiting { OnOk result (self.new.waiting ≡ with_key self.old.waiting number total) }
        ensures nodes { OnOk result (self.new.nodes ≡ self.old.nodes) }
        ensures statuses { OnOk result (self.new.statuses ≡ self.old.statuses) }
        ensures splits { OnOk result (self.new.splits ≡ self.old.splits) }
    {
        if let Some(total) = total {
            self.waiting.add(total, number)?;
        }
        Ok(())
    }
}

/// Returns the statuses of the nodes of a tree that has only an open root.
pub fn root_statuses(alloc: Global) -> Result<Vec<Status>, OutOfMemory>
    ensures { IfOk result (λ statuses. statuses.items ≡ Status.Open ∷ []) }
{
    // The prover finds the type of a status's conflict only if it is named.
    let _conflict: Option<Conflict> = None;
    let mut statuses = Vec::new(alloc);
    statuses.push(Status::Open)?;
    Ok(statuses)
}

/// Splits a node on the conflict: its children are the next two nodes. Returns the number of the left one.
pub fn expand(
    statuses: &mut Vec<Status>,
    k: u32,
    conflict: &Conflict,
    left: Option<u64>,
    right: Option<u64>,
) -> Result<u32, OutOfMemory>
    requires few { length statuses.old.items < 2 ^ 31 }
    requires inside { k < length statuses.old.items }
    ensures number { IfOk result (λ number. number ≡ length statuses.old.items) }
    ensures statuses { OnOk result (statuses.new.items ≡ split_statuses statuses.old.items k conflict.now left right) }
{
    let number = statuses.len() as u32;
    statuses.push(status_of(&left))?;
    statuses.push(status_of(&right))?;
    statuses[k as usize] = Status::Expanded {
        conflict: *conflict,
        left: number,
    };
    Ok(number)
}

// Returns the status of a child: it is open if it has a sum.
fn status_of(total: &Option<u64>) -> Status
    ensures { result ≡ status_of total.now }
{
    match total {
        Some(_) => Status::Open,
        None => Status::Dead,
    }
}
