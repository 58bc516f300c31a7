//! The memory of a search, and how it makes the nodes of its tree.
use crate::group_search::Suspended;
use crate::pair_marks::PairMarks;
use crate::visit::Visit;
use mapf_layers::ConstraintSet;
use mapf_lemma_texts::Part;
use mapf_model::{Conflict, OutOfMemory, Path, Problem};
use mapf_nodes::{
    Added, ConflictCount, Costs, Fact, LABEL_DEPTH, Node, NodeState, Packings, Placed, SearchTree,
    Store, add_relevant, is_of, pair_of,
};
use mapf_tree_lemmas::certificate;
use std::alloc::Global;

/// A search: the tree that it grows, and what serves all trees.
#[derive(Drop)]
pub struct Searcher<'a> {
    pub alloc: Global,
    pub problem: &'a Problem,
    pub store: Store<'a>,
    pub packings: Packings,
    pub placed: Placed,
    pub tree: SearchTree,
    // What stands for an agent at a node, and those of it that matter for its cheapest paths.
    pub standing: ConstraintSet,
    relevant: ConstraintSet,
    /// The pairs that were looked at in the evaluation of a node.
    pub weighed: PairMarks,
    /// The bounds of a node that are packed.
    pub facts: Vec<Fact>,
    /// How many nodes were split, and how many may be.
    pub splits: u32,
    pub limit: u32,
    /// What the plan that is searched for has to cost less than.
    pub below: u64,
    /// How many children were made, in all trees.
    pub work: u64,
    /// How much of it went to groups of any size below the root of the tree of all agents.
    pub wide_work: u64,
    /// How much work may be done before the search of the present tree has to end.
    pub until: u64,
    /// Visits that wait for the search of a group, the outermost first.
    pub suspended: Vec<Suspended>,
    /// The visit that is to be gone on with, if there is one.
    pub resumed: Option<Visit>,
    /// Whether the limit was reached in some tree.
    pub is_stopped: bool,
}

impl<'a> Searcher<'a> {
    /// Returns the search of the problem before the root of its tree is made. It may split so many nodes.
    pub fn of(
        alloc: Global,
        problem: &'a Problem,
        tree: SearchTree,
        limit: u32,
    ) -> Result<Searcher<'a>, OutOfMemory> {
        let agents = problem.agents().len();
        Ok(Searcher {
            alloc,
            problem,
            store: Store::of(alloc, problem)?,
            packings: Packings::of(alloc, agents)?,
            placed: Placed::of(alloc, problem.grid(), agents)?,
            tree,
            standing: ConstraintSet::new(alloc),
            relevant: ConstraintSet::new(alloc),
            weighed: PairMarks::of(alloc, agents)?,
            facts: Vec::new(alloc),
            splits: 0,
            limit,
            below: u64::MAX,
            work: 0,
            wide_work: 0,
            until: u64::MAX,
            suspended: Vec::new(alloc),
            resumed: None,
            is_stopped: false,
        })
    }

    /// Makes the root of the tree of all agents, and opens it. The paths are shortest ones that have few conflicts with
    /// those before them.
    pub fn plant(&mut self) -> Result<(), OutOfMemory> {
        let mut singles = Vec::new(self.alloc);
        let mut base = 0u64;
        for agent in 0..self.agents() {
            self.relevant.reset();
            let number = self.store.singles.number_of(agent, &mut self.relevant, 0)?;
            singles.push(number)?;
            base = base.saturating_add(u64::from(self.store.singles.cost(number).unwrap_or(0)));
        }
        let mut root = Node::root(self.alloc, singles, Vec::new(self.alloc), base);
        for place in 0..root.singles.len() {
            self.add_path(&mut root, place)?;
        }
        root.count = ConflictCount::of(&root.conflicts);
        self.tree.nodes.push(root)?;
        self.tree.push(0)
    }

    /// Makes the child of a node that adds this to its constraints. None if there is no such node.
    pub fn child(&mut self, number: u32, added: Added) -> Result<Option<Node>, OutOfMemory> {
        self.work = self.work.saturating_add(1);
        self.tree.account.own = self.tree.account.own.saturating_add(1);
        let Some(node) = self.tree.node(number) else {
            return Ok(None);
        };
        let mut child = node.child(self.alloc, number, added)?;
        for place in 0..self.tree.members.len() {
            if child.state == NodeState::Dead {
                break;
            }
            self.replan(&mut child, place)?;
        }
        child.count = ConflictCount::of(&child.conflicts);
        child.bound = child.bound.max(child.base);
        Ok(Some(child))
    }

    /// Returns the parts of the certificate that shows by the search's tree that no valid plan has a smaller sum of costs
    /// than the claim, in ticks.
    pub fn certify(&mut self, claim: u64) -> Result<Vec<Part>, OutOfMemory> {
        certificate(&mut self.store, &self.tree, claim)
    }

    /// Returns what the agents of the tree cost.
    pub fn costs(&self) -> Costs<'_, 'a> {
        Costs {
            store: &self.store,
            members: &self.tree.members,
        }
    }

    /// Returns a cheapest path of an agent of a node with few conflicts with the others, as they were placed.
    pub fn path_at(&mut self, number: u32, place: usize) -> Result<Option<Path>, OutOfMemory> {
        let single = match self.tree.node(number) {
            Some(node) => node.singles.get(place).copied(),
            None => None,
        };
        self.path_of(single)
    }

    /// Puts the agents of the tree on these paths, and those outside of it on theirs.
    pub fn place_all(&mut self, paths: &[u32]) -> Result<(), OutOfMemory> {
        for (&agent, &number) in self.tree.members.agents().iter().zip(paths) {
            self.placed.put(&self.store.paths, agent, number)?;
        }
        for &(agent, number) in &self.tree.outside {
            self.placed.put(&self.store.paths, agent, number)?;
        }
        Ok(())
    }

    /// Makes `standing` what stands for an agent at a node.
    pub fn gather(&mut self, number: u32, agent: u32) -> Result<(), OutOfMemory> {
        self.standing.reset();
        self.tree.gather(&mut self.standing, number, agent)?;
        self.standing.tidy();
        Ok(())
    }

    /// Returns the conflicts of an agent on this path with the other agents of the tree, as they were placed.
    pub fn conflicts_within(
        &mut self,
        conflicts: &mut Vec<Conflict>,
        agent: u32,
        path: &Path,
    ) -> Result<(), OutOfMemory> {
        for conflict in self.placed.conflicts(agent, path.cells())? {
            let (i, j) = pair_of(&conflict);
            if self.tree.members.has(i) && self.tree.members.has(j) {
                conflicts.push(conflict)?;
            }
        }
        Ok(())
    }

    // Adds the path of the next agent to a root.
    fn add_path(&mut self, root: &mut Node, place: usize) -> Result<(), OutOfMemory> {
        let Some(path) = self.path_of(root.singles.get(place).copied())? else {
            return Ok(());
        };
        let Some(&agent) = self.tree.members.agents().get(place) else {
            return Ok(());
        };
        self.conflicts_within(&mut root.conflicts, agent, &path)?;
        let number = self.store.paths.add(path)?;
        self.placed.put(&self.store.paths, agent, number)?;
        root.paths.push(number)?;
        Ok(())
    }

    /// Returns a cheapest path of an agent with few conflicts with the others, as they were placed. None if it can't
    /// arrive.
    pub fn path_of(&mut self, number: Option<u32>) -> Result<Option<Path>, OutOfMemory> {
        let Some(single) = number.and_then(|number| self.store.singles.get(number)) else {
            return Ok(None);
        };
        match &single.layers {
            Some(layers) => Ok(Some(self.placed.best_path(layers, single.agent)?)),
            None => Ok(None),
        }
    }

    // Plans an agent of a child again, if what the child adds asks for it.
    fn replan(&mut self, child: &mut Node, place: usize) -> Result<(), OutOfMemory> {
        let (Some(&agent), Some(added)) = (self.tree.members.agents().get(place), child.added)
        else {
            return Ok(());
        };
        let path = child.paths.get(place).copied().unwrap_or(u32::MAX);
        if !added.asks_for(agent, self.store.paths.cells(path)) {
            return Ok(());
        }
        let Some(&old) = child.singles.get(place) else {
            return Ok(());
        };
        let before = self.store.singles.cost(old).unwrap_or(0);
        let number = self.single_under(child.parent, added, agent, before)?;
        if let Some(entry) = child.singles.get_mut(place) {
            *entry = number;
        }
        child.base = child.base.saturating_sub(u64::from(before));
        match self.store.singles.cost(number) {
            Some(cost) => {
                child.base = child.base.saturating_add(u64::from(cost));
                self.reroute(child, place)
            }
            None => {
                child.state = NodeState::Dead;
                Ok(())
            }
        }
    }

    // Returns the number of an agent under what stands at a node and what a child of it adds. It cost so much before.
    // Constraints that no path of about this cost can break are left out, since then more nodes share what is found.
    fn single_under(
        &mut self,
        parent: u32,
        added: Added,
        agent: u32,
        before: u32,
    ) -> Result<u32, OutOfMemory> {
        self.standing.reset();
        added.add_to(&mut self.standing, agent)?;
        self.tree.gather(&mut self.standing, parent, agent)?;
        self.standing.tidy();
        let last = before.saturating_add(LABEL_DEPTH + 2);
        self.relevant.reset();
        if let Some(ends) = self.store.singles.ends(agent)? {
            add_relevant(&mut self.relevant, &self.standing, ends, last)?;
        }
        self.relevant.tidy();
        let number = self
            .store
            .singles
            .number_of(agent, &mut self.relevant, before)?;
        match self.store.singles.cost(number) {
            Some(cost) if cost > last => self
                .store
                .singles
                .number_of(agent, &mut self.standing, before),
            _ => Ok(number),
        }
    }

    // Gives an agent of a child a new path.
    fn reroute(&mut self, child: &mut Node, place: usize) -> Result<(), OutOfMemory> {
        self.place_all(&child.paths)?;
        let Some(path) = self.path_of(child.singles.get(place).copied())? else {
            return Ok(());
        };
        let Some(&agent) = self.tree.members.agents().get(place) else {
            return Ok(());
        };
        child.conflicts.retain(|conflict| !is_of(conflict, agent));
        self.conflicts_within(&mut child.conflicts, agent, &path)?;
        let number = self.store.paths.add(path)?;
        if let Some(entry) = child.paths.get_mut(place) {
            *entry = number;
        }
        Ok(())
    }

    // Returns how many agents the problem has.
    fn agents(&self) -> u32 {
        u32::try_from(self.problem.agents().len()).unwrap_or(u32::MAX)
    }
}
