//! What the pairs of agents in conflict at a node cost at least together, and the node's bound.
use crate::searcher::Searcher;
use mapf_model::{Cell, Conflict, OutOfMemory, Path};
use mapf_nodes::{
    ConflictCount, Costs, Fact, FactGroup, Node, NodeState, PairFact, WeightedFact, is_of, pairs_of,
};
use mapf_packing::PackedGroup;
use std::alloc::Global;

impl<'a> Searcher<'a> {
    /// Finds what the pairs in conflict at a node cost at least together. If a pair costs no more than its agents
    /// alone, the two paths of the pair take the place of the node's, where fewer conflicts are left.
    pub fn evaluate(&mut self, number: u32) -> Result<(), OutOfMemory> {
        self.weighed.begin();
        // Each turn but the last lowers the number of pairs in conflict.
        for _ in 0..u32::MAX {
            if !self.evaluate_once(number)? {
                break;
            }
        }
        if self.state_of(number) == NodeState::Dead {
            return Ok(());
        }
        if let Some(node) = self.tree.node_mut(number) {
            node.state = NodeState::Evaluated;
            node.plan = None;
        }
        self.raise_bound(number)
    }

    /// Raises the bound of a node by what is known of its pairs and groups.
    pub fn raise_bound(&mut self, number: u32) -> Result<(), OutOfMemory> {
        self.list_facts(number)?;
        let packing = self.packings.find()?;
        let Some(node) = self.tree.nodes.get_mut(number as usize) else {
            return Ok(());
        };
        let bound = node.base.saturating_add(packing.sum);
        if bound < node.bound {
            return self.inherit_shown(number);
        }
        if packing.sum > 0 && (bound > node.bound || node.shown.is_empty()) {
            let mut shown = Vec::with_capacity(self.alloc, packing.groups.len())?;
            for group in &packing.groups {
                shown.push(group_of(self.alloc, group, &self.facts)?)?;
            }
            node.shown = shown;
        }
        node.bound = bound;
        Ok(())
    }

    // Lets what shows the bound of a node's parent show that of the node, unless something else does: the bounds hold
    // there too, and the agents cost alone at least as much. A packing that is found anew may be a lesser one.
    fn inherit_shown(&mut self, number: u32) -> Result<(), OutOfMemory> {
        let Some(node) = self.tree.node(number) else {
            return Ok(());
        };
        let (true, Some(parent)) = (node.shown.is_empty(), self.tree.node(node.parent)) else {
            return Ok(());
        };
        let mut shown = Vec::with_capacity(self.alloc, parent.shown.len())?;
        for group in &parent.shown {
            shown.push(group.duplicate(self.alloc)?)?;
        }
        if let Some(node) = self.tree.node_mut(number) {
            node.shown = shown;
        }
        Ok(())
    }

    // Lists the pairs and groups that cost more together than alone.
    fn list_facts(&mut self, number: u32) -> Result<(), OutOfMemory> {
        self.facts.clear();
        self.packings.begin();
        let Some(node) = self.tree.nodes.get(number as usize) else {
            return Ok(());
        };
        let costs = Costs {
            store: &self.store,
            members: &self.tree.members,
        };
        for fact in &node.pairs {
            let excess = costs.pair_excess(node, fact);
            if excess > 0 {
                self.facts.push(Fact::Pair(*fact))?;
                self.packings.add(&[fact.i, fact.j], excess)?;
            }
        }
        for fact in &node.groups {
            let Some(group) = costs.store.groups.get(fact.group) else {
                continue;
            };
            let excess = fact.bound.saturating_sub(costs.sum(node, &group.agents));
            if excess > 0 {
                self.facts.push(Fact::Group(*fact))?;
                self.packings.add(&group.agents, excess)?;
            }
        }
        Ok(())
    }

    /// Returns the number of two agents under their constraints, whose numbers these are. None if one of them can't
    /// arrive.
    pub fn pair_number(&mut self, first: u32, second: u32) -> Result<Option<u32>, OutOfMemory> {
        let store = &mut self.store;
        store.pairs.number_of(&mut store.singles, first, second)
    }

    // Looks at each pair in conflict that wasn't looked at yet. Returns whether two paths took the place of the node's.
    fn evaluate_once(&mut self, number: u32) -> Result<bool, OutOfMemory> {
        let Some(node) = self.tree.node(number) else {
            return Ok(false);
        };
        for (i, j) in pairs_of(self.alloc, &node.conflicts)? {
            if !self.weighed.mark(i, j) {
                continue;
            }
            if self.weigh(number, (i, j))? {
                return Ok(true);
            }
            if self.state_of(number) == NodeState::Dead {
                break;
            }
        }
        Ok(false)
    }

    // Notes what a pair costs at least together. Returns whether its two paths took the place of the node's.
    fn weigh(&mut self, number: u32, (i, j): (u32, u32)) -> Result<bool, OutOfMemory> {
        let Some((first, second)) = self.singles_at(number, i, j) else {
            return Ok(false);
        };
        let Some(pair) = self.pair_number(first, second)? else {
            return Ok(false);
        };
        let bound = self.store.pairs.get(pair).map_or(0, |known| known.bound());
        if bound == u64::MAX {
            self.kill(number, Fact::Pair(PairFact { i, j, pair, bound }))?;
            return Ok(false);
        }
        if bound > self.store.singles.cost_of_two(first, second) {
            if let Some(node) = self.tree.node_mut(number) {
                node.note_pair(PairFact { i, j, pair, bound })?;
            }
            return Ok(false);
        }
        self.take_pair(number, (i, j), pair)
    }

    /// Returns the numbers of two agents under their constraints at a node.
    pub fn singles_at(&self, number: u32, i: u32, j: u32) -> Option<(u32, u32)> {
        let node = self.tree.node(number)?;
        let first = *node.singles.get(self.tree.members.place(i)?)?;
        let second = *node.singles.get(self.tree.members.place(j)?)?;
        Some((first, second))
    }

    // Puts two agents on the paths of a pair, if these obey what stands at the node, and fewer conflicts are left.
    // Returns whether it did.
    fn take_pair(
        &mut self,
        number: u32,
        (i, j): (u32, u32),
        pair: u32,
    ) -> Result<bool, OutOfMemory> {
        let Some((first, second)) = self.pair_paths(pair)? else {
            return Ok(false);
        };
        if !self.obeys(number, i, first.cells())? || !self.obeys(number, j, second.cells())? {
            return Ok(false);
        }
        let Some((conflicts, count)) = self.fewer_conflicts(number, (i, &first), (j, &second))?
        else {
            return Ok(false);
        };
        let first = self.store.paths.add(first)?;
        let second = self.store.paths.add(second)?;
        self.replace_path(number, i, first);
        self.replace_path(number, j, second);
        if let Some(node) = self.tree.node_mut(number) {
            node.conflicts = conflicts;
            node.count = count;
        }
        Ok(true)
    }

    /// Returns the two paths of a pair, None if none were found.
    pub fn pair_paths(&self, pair: u32) -> Result<Option<(Path, Path)>, OutOfMemory> {
        let Some((first, second)) = self.store.pairs.get(pair).and_then(|known| known.paths())
        else {
            return Ok(None);
        };
        let first = Path::of(Vec::from_slice(self.alloc, first)?);
        let second = Path::of(Vec::from_slice(self.alloc, second)?);
        Ok(first.zip(second))
    }

    /// Returns whether a path of an agent obeys what stands at a node.
    pub fn obeys(&mut self, number: u32, agent: u32, path: &[Cell]) -> Result<bool, OutOfMemory> {
        self.gather(number, agent)?;
        Ok(self.standing.is_obeyed_by(path))
    }

    // Returns the conflicts of a node whose paths of two agents were replaced by these, which have none with each
    // other. None if no fewer pairs are in conflict.
    fn fewer_conflicts(
        &mut self,
        number: u32,
        (i, first): (u32, &Path),
        (j, second): (u32, &Path),
    ) -> Result<Option<(Vec<Conflict>, ConflictCount)>, OutOfMemory> {
        let Some(node) = self.tree.node(number) else {
            return Ok(None);
        };
        let paths = Vec::from_slice(self.alloc, &node.paths)?;
        self.place_all(&paths)?;
        let mut added = Vec::new(self.alloc);
        self.add_without(&mut added, (i, first), j)?;
        self.add_without(&mut added, (j, second), i)?;
        match self.tree.node(number) {
            Some(node) => replaced(self.alloc, node, (i, j), &added),
            None => Ok(None),
        }
    }

    // Adds the conflicts of an agent on this path with the others of the tree but one.
    fn add_without(
        &mut self,
        conflicts: &mut Vec<Conflict>,
        (agent, path): (u32, &Path),
        other: u32,
    ) -> Result<(), OutOfMemory> {
        let mut found = Vec::new(self.alloc);
        self.conflicts_within(&mut found, agent, path)?;
        for conflict in found {
            if !is_of(&conflict, other) {
                conflicts.push(conflict)?;
            }
        }
        Ok(())
    }

    // Puts an agent of a node on the path of a number.
    fn replace_path(&mut self, number: u32, agent: u32, path: u32) {
        let place = self.tree.members.place(agent).unwrap_or(usize::MAX);
        if let Some(node) = self.tree.node_mut(number) {
            if let Some(entry) = node.paths.get_mut(place) {
                *entry = path;
            }
        }
    }
}

// Returns the conflicts of a node in which these take the place of those of two agents. None if no fewer pairs are in
// conflict.
fn replaced(
    alloc: Global,
    node: &Node,
    (i, j): (u32, u32),
    added: &[Conflict],
) -> Result<Option<(Vec<Conflict>, ConflictCount)>, OutOfMemory> {
    let mut count = ConflictCount::of(added);
    let mut last = None;
    for conflict in &node.conflicts {
        if !is_of(conflict, i) && !is_of(conflict, j) {
            count.add(conflict, &mut last);
        }
    }
    if count.pairs >= node.count.pairs {
        return Ok(None);
    }
    let mut conflicts = Vec::from_slice(alloc, &node.conflicts)?;
    conflicts.retain(|conflict| !is_of(conflict, i) && !is_of(conflict, j));
    for &conflict in added {
        conflicts.push(conflict)?;
    }
    Ok(Some((conflicts, count)))
}

// Returns a group with the bounds that its uses name by their places.
fn group_of(alloc: Global, group: &PackedGroup, facts: &[Fact]) -> Result<FactGroup, OutOfMemory> {
    let mut uses = Vec::with_capacity(alloc, group.uses.len())?;
    for used in &group.uses {
        if let Some(&fact) = facts.get(used.place as usize) {
            uses.push(WeightedFact {
                fact,
                weight: used.weight,
            })?;
        }
    }
    Ok(FactGroup {
        divisor: group.divisor,
        uses,
    })
}
