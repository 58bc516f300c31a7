//! Which bounds the lemmas of a certificate have to show.
use mapf_model::OutOfMemory;
use mapf_nodes::{Costs, Fact, Node, NodeState, SearchTree, SplitKind, Store};
use std::alloc::Global;

/// The greatest bounds that leaves and splits use, in ticks: 0 where nothing is used.
#[derive(Debug, Drop)]
pub struct Needs {
    /// By number of an agent under its constraints.
    pub singles: Vec<u64>,
    /// By number of a pair.
    pub pairs: Vec<u64>,
    /// By number of a group.
    pub groups: Vec<u64>,
}

/// A group of bounds that a leaf uses.
#[derive(Clone, Copy, Debug)]
pub struct UsedGroup {
    /// Its place among those that show the leaf's bound.
    pub place: usize,
    // What a single bound of it has to show at most.
    most: u64,
}

impl Needs {
    /// Returns what the nodes of the tree of all agents need to show the claim, and then the groups that they use.
    pub fn of(store: &Store, tree: &SearchTree, claim: u64) -> Result<Needs, OutOfMemory> {
        let alloc = store.alloc;
        let mut needs = Needs {
            singles: vec![in alloc; 0; store.singles.len()]?,
            pairs: vec![in alloc; 0; store.pairs.len()]?,
            groups: vec![in alloc; 0; store.groups.len()]?,
        };
        needs.add_tree(store, tree, claim)?;
        // A group uses smaller ones alone.
        for &number in group_order(store)?.iter().rev() {
            let need = needs.groups.get(number as usize).copied().unwrap_or(0);
            if need > 0 {
                needs.add_group(store, number, need)?;
            }
        }
        Ok(needs)
    }

    fn add_group(&mut self, store: &Store, number: u32, need: u64) -> Result<(), OutOfMemory> {
        match store
            .groups
            .get(number)
            .and_then(|group| group.tree.as_ref())
        {
            Some(tree) => self.add_tree(store, tree, need),
            None => Ok(()),
        }
    }

    fn add_tree(
        &mut self,
        store: &Store,
        tree: &SearchTree,
        claim: u64,
    ) -> Result<(), OutOfMemory> {
        for number in order(store.alloc, tree, claim)? {
            if let Some(node) = tree.node(number) {
                self.add_node(store, tree, node, claim)?;
            }
        }
        Ok(())
    }

    // Adds what a node uses.
    fn add_node(
        &mut self,
        store: &Store,
        tree: &SearchTree,
        node: &Node,
        claim: u64,
    ) -> Result<(), OutOfMemory> {
        if is_leaf(node, claim) {
            self.add_singles(store, node, claim);
            return self.add_groups(store, tree, node, claim);
        }
        if let Some(split) = node.split {
            if let SplitKind::Costs(costs) = split.kind {
                let bound = u64::from(costs.ticks).saturating_add(u64::from(costs.least));
                raise(&mut self.pairs, costs.pair.pair, bound);
            }
        }
        Ok(())
    }

    // Adds what each agent of a leaf costs alone. One that can't arrive costs what the claim asks for.
    fn add_singles(&mut self, store: &Store, node: &Node, claim: u64) {
        for &number in &node.singles {
            let value = match store.singles.cost(number) {
                Some(cost) => u64::from(cost),
                None => claim.saturating_sub(node.base),
            };
            raise(&mut self.singles, number, value);
        }
    }

    // Adds what the groups of bounds of a leaf use.
    fn add_groups(
        &mut self,
        store: &Store,
        tree: &SearchTree,
        node: &Node,
        claim: u64,
    ) -> Result<(), OutOfMemory> {
        for used in used_groups(store, tree, node, claim)? {
            if let Some(group) = node.shown.get(used.place) {
                for weighted in &group.uses {
                    self.add_fact(&weighted.fact, used.most);
                }
            }
        }
        Ok(())
    }

    fn add_fact(&mut self, fact: &Fact, most: u64) {
        let bound = fact.bound().min(most);
        match fact {
            Fact::Pair(fact) => raise(&mut self.pairs, fact.pair, bound),
            Fact::Group(fact) => raise(&mut self.groups, fact.group, bound),
        }
    }
}

/// Returns whether a node shows the claim by itself.
pub fn is_leaf(node: &Node, claim: u64) -> bool {
    node.state == NodeState::Dead || node.bound >= claim || node.split.is_none()
}

/// Returns the numbers of the nodes that show the claim, in pre-order.
pub fn order(alloc: Global, tree: &SearchTree, claim: u64) -> Result<Vec<u32>, OutOfMemory> {
    let mut order = Vec::new(alloc);
    let mut pending = Vec::new(alloc);
    pending.push(0)?;
    for _ in 0..tree.nodes.len() {
        let Some(number) = pending.pop() else {
            break;
        };
        order.push(number)?;
        let Some(node) = tree.node(number) else {
            continue;
        };
        if let Some(split) = node.split {
            if !is_leaf(node, claim) {
                pending.push(split.left.saturating_add(1))?;
                pending.push(split.left)?;
            }
        }
    }
    Ok(order)
}

/// Returns the numbers of all groups, the smallest first.
pub fn group_order(store: &Store) -> Result<Vec<u32>, OutOfMemory> {
    let mut sized = Vec::new(store.alloc);
    for (number, _) in (0u32..).zip(0..store.groups.len()) {
        if let Some(group) = store.groups.get(number) {
            sized.push((group.agents.len(), number))?;
        }
    }
    sized.sort_unstable();
    let mut order = Vec::with_capacity(store.alloc, sized.len())?;
    for (_, number) in sized {
        order.push(number)?;
    }
    Ok(order)
}

/// Returns the groups of bounds that a leaf uses: the greatest first, and no more than the claim asks for.
pub fn used_groups(
    store: &Store,
    tree: &SearchTree,
    node: &Node,
    claim: u64,
) -> Result<Vec<UsedGroup>, OutOfMemory> {
    let costs = Costs {
        store,
        members: &tree.members,
    };
    let mut sorted = Vec::new(store.alloc);
    for (place, group) in node.shown.iter().enumerate() {
        sorted.push((u64::MAX - costs.worth(node, group), place))?;
    }
    sorted.sort_unstable();
    let mut used = Vec::new(store.alloc);
    let mut reached = node.base;
    for (less, place) in sorted {
        if reached >= claim {
            break;
        }
        let most = node
            .shown
            .get(place)
            .map_or(0, |group| match group.uses.as_slice() {
                [only] => costs
                    .alone(node, &only.fact)
                    .saturating_add(claim.saturating_sub(reached)),
                _ => u64::MAX,
            });
        used.push(UsedGroup { place, most })?;
        reached = reached.saturating_add(u64::MAX - less);
    }
    Ok(used)
}

// Raises an entry to a bound.
fn raise(bounds: &mut [u64], number: u32, bound: u64) {
    if let Some(entry) = bounds.get_mut(number as usize) {
        *entry = (*entry).max(bound);
    }
}
