//! Searches for groups of agents within the search for all of them: the same search, over a tree of their own.
use crate::expand::{Ended, Step};
use crate::searcher::Searcher;
use crate::visit::Visit;
use mapf_layers::ConstraintSet;
use mapf_model::{Cell, OutOfMemory};
use mapf_nodes::{
    ConflictCount, Fact, GroupFact, GroupKey, LABEL_DEPTH, Members, Node, NodeState, PairFact,
    SearchTree, add_relevant, pair_of,
};
use std::mem;

/// How much work a search for a group may take at one visit, at least.
const PATIENCE: u64 = 1000;

/// The most agents of a group that may always be searched.
const TINY: usize = 4;

/// What is known of a group at a node.
#[derive(Debug, Drop)]
struct Found {
    // `u64::MAX` if the agents have no plan.
    bound: u64,
    // Numbers of paths without a conflict that obey what stands at the node, and whose costs add up to the bound.
    plan: Option<Vec<u32>>,
    // The bound of the pair or the group, None if nothing is known.
    fact: Option<Fact>,
}

// What is to be done for a group.
#[derive(Debug, Drop)]
enum Look {
    Found(Found),
    // The search for the group of this number, begun with all constraints or with those that matter.
    Search { group: u32, is_full: bool },
}

// A group of a visit that is searched.
#[derive(Debug, Drop)]
struct Due {
    // The place that names it.
    name: usize,
    places: Vec<usize>,
    agents: Vec<u32>,
}

/// A visit that waits for the search of one of its groups.
#[derive(Drop)]
pub struct Suspended {
    // The tree whose node is visited.
    tree: SearchTree,
    visit: Visit,
    due: Due,
    group: u32,
    is_full: bool,
    // How much work could be done when the tree's search has to end, and how much was done before the group's search.
    until: u64,
    begin: u64,
}

impl Suspended {
    /// Returns the tree whose node is visited.
    pub fn tree(&self) -> &SearchTree {
        &self.tree
    }

    /// Returns whether the node is the root of its tree.
    pub fn is_at_root(&self) -> bool {
        self.visit.number == 0
    }
}

impl<'a> Searcher<'a> {
    /// Goes on with a visit until a group has to be searched, or it is over.
    pub fn go_on(&mut self, mut visit: Visit) -> Result<Step, OutOfMemory> {
        // Each turn searches a group or unites two.
        for _ in 0..=self.tree.members.len().saturating_mul(2) {
            if visit.is_over {
                break;
            }
            let Some(name) = visit.first_due() else {
                if self.unite_in_conflict(&mut visit)? {
                    continue;
                }
                self.note_visited(visit.number);
                break;
            };
            let places = visit.places(self.alloc, name)?;
            let agents = self.agents_at(&places)?;
            let due = Due {
                name,
                places,
                agents,
            };
            match self.look(&visit, &due.agents)? {
                Look::Found(found) => visit.is_over = self.take(&mut visit, &due, found)?,
                Look::Search { group, is_full } => {
                    return self.suspend(visit, due, group, is_full);
                }
            }
        }
        self.after_visit(&visit)
    }

    fn note_visited(&mut self, number: u32) {
        if let Some(node) = self.tree.node_mut(number) {
            node.state = NodeState::Visited;
        }
    }

    // Takes what was found of a group. Returns whether the visit is over, since the bound rose or no plan is valid.
    fn take(&mut self, visit: &mut Visit, due: &Due, found: Found) -> Result<bool, OutOfMemory> {
        if let (u64::MAX, Some(fact)) = (found.bound, found.fact) {
            self.kill(visit.number, fact)?;
            return Ok(true);
        }
        let alone = self.sum_at(visit.number, &due.agents);
        let excess = found.bound.saturating_sub(alone);
        visit.note(due.name, excess, found.plan.is_some());
        if let Some(plan) = found.plan {
            self.take_paths(visit, &due.places, &plan)?;
        }
        self.raise_bound(visit.number)?;
        Ok(self.has_risen(visit.number, visit.before))
    }

    // Begins or goes on with the search for a group, while the visit waits.
    fn suspend(
        &mut self,
        visit: Visit,
        due: Due,
        group: u32,
        is_full: bool,
    ) -> Result<Step, OutOfMemory> {
        let Some(tree) = self.store.groups.take_tree(group) else {
            return self.after_visit(&visit);
        };
        let spent = self.store.groups.get(group).map_or(0, |known| known.spent);
        let until = self.until;
        self.until = until.min(self.work.saturating_add(PATIENCE.max(spent)));
        self.suspended.push(Suspended {
            tree: mem::replace(&mut self.tree, tree),
            visit,
            due,
            group,
            is_full,
            until,
            begin: self.work,
        })?;
        Ok(Step::Opened)
    }

    /// Goes on with a visit after the search for one of its groups has ended for now.
    pub fn resume(&mut self, suspended: Suspended, ended: Ended) -> Result<(), OutOfMemory> {
        let Suspended {
            tree,
            mut visit,
            due,
            group,
            is_full,
            until,
            begin,
        } = suspended;
        let searched = mem::replace(&mut self.tree, tree);
        self.until = until;
        self.note_search(group, searched, ended, begin);
        if self.is_stopped {
            return self.tree.push(visit.number);
        }
        let found = self.found_at(visit.number, group)?;
        let look = if self.is_broken(&found) && !is_full {
            self.look_into(&visit, &due.agents, true)?
        } else {
            Look::Found(found)
        };
        match look {
            Look::Found(found) => {
                visit.is_over = self.take(&mut visit, &due, found)?;
                self.resumed = Some(visit);
                Ok(())
            }
            Look::Search { group, is_full } => {
                let _opened = self.suspend(visit, due, group, is_full)?;
                Ok(())
            }
        }
    }

    // Notes what the search for a group has found.
    fn note_search(&mut self, number: u32, tree: SearchTree, ended: Ended, begin: u64) {
        let spent = self.work.saturating_sub(begin).saturating_add(1);
        if let Some(group) = self.store.groups.get_mut(number) {
            group.spent = group.spent.saturating_add(spent);
            group.bound = group.bound.max(tree.bound);
            group.tree = Some(tree);
            match ended {
                Ended::Plan(plan) => group.plan = Some(plan),
                Ended::Exhausted => group.bound = u64::MAX,
                Ended::AtLimit(_) => {}
            }
        }
    }

    // Looks at what is known of a group of agents under what stands at the node.
    fn look(&mut self, visit: &Visit, agents: &[u32]) -> Result<Look, OutOfMemory> {
        let number = visit.number;
        if let Some(found) = self.pair_found(number, agents)? {
            return Ok(Look::Found(found));
        }
        if let Some(found) = self.inherited(number, agents)? {
            return Ok(Look::Found(found));
        }
        match self.look_into(visit, agents, false)? {
            Look::Found(found) if self.is_broken(&found) => self.look_into(visit, agents, true),
            look => Ok(look),
        }
    }

    // Looks at the group of these agents that begins with all constraints, or with those that matter.
    fn look_into(
        &mut self,
        visit: &Visit,
        agents: &[u32],
        is_full: bool,
    ) -> Result<Look, OutOfMemory> {
        let number = visit.number;
        let key = self.key_at(number, agents, is_full)?;
        let may_search = !visit.is_frugal || agents.len() <= TINY;
        let group = match self.store.groups.find(&key) {
            Some(group) => group,
            None if !may_search => {
                return Ok(Look::Found(Found {
                    bound: 0,
                    plan: None,
                    fact: None,
                }));
            }
            None => self.new_group(visit, key)?,
        };
        if may_search && self.store.groups.has_more(group) {
            return Ok(Look::Search { group, is_full });
        }
        Ok(Look::Found(self.found_at(number, group)?))
    }

    // Returns what is known of the group of this number at a node.
    fn found_at(&mut self, number: u32, group: u32) -> Result<Found, OutOfMemory> {
        self.note_group(number, group)?;
        let bound = self.store.groups.get(group).map_or(0, |known| known.bound);
        Ok(Found {
            bound,
            plan: self.plan_at(number, group)?,
            fact: Some(Fact::Group(GroupFact { group, bound })),
        })
    }

    // Returns what is known of a group of two agents by its search over joint states, if that has found paths which
    // obey what stands at the node.
    fn pair_found(&mut self, number: u32, agents: &[u32]) -> Result<Option<Found>, OutOfMemory> {
        let [i, j] = *agents else {
            return Ok(None);
        };
        let Some((first, second)) = self.singles_at(number, i, j) else {
            return Ok(None);
        };
        let Some(pair) = self.pair_number(first, second)? else {
            return Ok(None);
        };
        let bound = self.store.pairs.get(pair).map_or(0, |known| known.bound());
        let fact = PairFact { i, j, pair, bound };
        if bound == u64::MAX {
            return Ok(Some(Found {
                bound,
                plan: None,
                fact: Some(Fact::Pair(fact)),
            }));
        }
        if bound > self.store.singles.cost_of_two(first, second) {
            if let Some(node) = self.tree.node_mut(number) {
                node.note_pair(fact)?;
            }
        }
        let Some((one, other)) = self.pair_paths(pair)? else {
            return Ok(None);
        };
        if !self.obeys(number, i, one.cells())? || !self.obeys(number, j, other.cells())? {
            return Ok(None);
        }
        let mut plan = Vec::new(self.alloc);
        plan.push(self.store.paths.add(one)?)?;
        plan.push(self.store.paths.add(other)?)?;
        Ok(Some(Found {
            bound,
            plan: Some(plan),
            fact: Some(Fact::Pair(fact)),
        }))
    }

    // Returns what a node above has found of just these agents, if its plan obeys what stands at the node.
    fn inherited(&mut self, number: u32, agents: &[u32]) -> Result<Option<Found>, OutOfMemory> {
        let fact = self
            .tree
            .node(number)
            .and_then(|node| self.group_fact(node, agents));
        let Some(fact) = fact else {
            return Ok(None);
        };
        let Some(plan) = self.plan_at(number, fact.group)? else {
            return Ok(None);
        };
        // It may have been found after the bound was noted.
        self.note_group(number, fact.group)?;
        Ok(Some(Found {
            bound: self
                .store
                .groups
                .get(fact.group)
                .map_or(0, |group| group.bound),
            plan: Some(plan),
            fact: Some(Fact::Group(fact)),
        }))
    }

    // Returns the plan of a group, if it has one that obeys what stands at the node.
    fn plan_at(&mut self, number: u32, group: u32) -> Result<Option<Vec<u32>>, OutOfMemory> {
        let store = &self.store;
        let Some(known) = store.groups.get(group) else {
            return Ok(None);
        };
        let (Some(plan), Some(tree)) = (&known.plan, &known.tree) else {
            return Ok(None);
        };
        for (place, (&agent, &path)) in known.agents.iter().zip(plan.iter()).enumerate() {
            let least = tree.given.get(place).map_or(0, |given| given.least());
            self.standing.reset();
            self.tree.gather(&mut self.standing, number, agent)?;
            self.standing.tidy();
            let cells = store.paths.cells(path);
            // The search counted waits at the goal up to the least cost that it knew.
            let is_late = self.standing.least() <= least || self.standing.least() <= cost_of(cells);
            if !is_late || !self.standing.is_obeyed_by(cells) {
                return Ok(None);
            }
        }
        Ok(Some(Vec::from_slice(self.alloc, plan)?))
    }

    // Returns whether the group has a plan, but it breaks a constraint that was left out when its search began.
    fn is_broken(&self, found: &Found) -> bool {
        match found.fact {
            Some(Fact::Group(fact)) if found.plan.is_none() => {
                self.store
                    .groups
                    .get(fact.group)
                    .is_some_and(|known| known.plan.is_some())
            }
            _ => false,
        }
    }

    // Notes the bound of a group at a node, with the greatest of those that were found.
    fn note_group(&mut self, number: u32, group: u32) -> Result<(), OutOfMemory> {
        let Some(known) = self.store.groups.get(group) else {
            return Ok(());
        };
        let bound = known.bound;
        let old = self
            .tree
            .node(number)
            .and_then(|node| self.group_fact(node, &known.agents));
        let Some(node) = self.tree.node_mut(number) else {
            return Ok(());
        };
        match node
            .groups
            .iter_mut()
            .find(|fact| old.is_some_and(|old| old.group == fact.group))
        {
            Some(fact) if fact.bound > bound => {}
            Some(fact) => *fact = GroupFact { group, bound },
            None => node.groups.push(GroupFact { group, bound })?,
        }
        Ok(())
    }

    // Returns the key of a group of agents at a node: what stands for each of them, all or what matters, and what its
    // number at the node knows.
    fn key_at(
        &mut self,
        number: u32,
        agents: &[u32],
        is_full: bool,
    ) -> Result<GroupKey, OutOfMemory> {
        let mut given = Vec::new(self.alloc);
        for &agent in agents {
            given.push(self.given_at(number, agent, is_full)?)?;
        }
        Ok(GroupKey {
            agents: Vec::from_slice(self.alloc, agents)?,
            given,
        })
    }

    // Returns what a group's search is given of an agent.
    fn given_at(
        &mut self,
        number: u32,
        agent: u32,
        is_full: bool,
    ) -> Result<ConstraintSet, OutOfMemory> {
        self.gather(number, agent)?;
        let mut given = ConstraintSet::new(self.alloc);
        let single = self.single_at(number, agent);
        let cost = self.store.singles.cost(single).unwrap_or(0);
        if is_full {
            given.add_all(&self.standing)?;
        } else if let Some(ends) = self.store.singles.ends(agent)? {
            let last = cost.saturating_add(LABEL_DEPTH + 6);
            add_relevant(&mut given, &self.standing, ends, last)?;
        }
        if let Some(known) = self.store.singles.get(single) {
            given.add_all(&known.constraints)?;
        }
        given.tidy();
        Ok(given)
    }

    /// Returns the number of an agent under its constraints at a node.
    pub fn single_at(&self, number: u32, agent: u32) -> u32 {
        let place = self.tree.members.place(agent).unwrap_or(usize::MAX);
        match self.tree.node(number) {
            Some(node) => node.singles.get(place).copied().unwrap_or(u32::MAX),
            None => u32::MAX,
        }
    }

    // Returns the sum of what these agents cost alone at a node.
    fn sum_at(&self, number: u32, agents: &[u32]) -> u64 {
        match self.tree.node(number) {
            Some(node) => self.costs().sum(node, agents),
            None => 0,
        }
    }

    // Begins the search for a group. Of what is known at the node it takes what follows from its own constraints.
    fn new_group(&mut self, visit: &Visit, key: GroupKey) -> Result<u32, OutOfMemory> {
        let number = visit.number;
        let alloc = self.alloc;
        let members = Members::of(
            alloc,
            Vec::from_slice(alloc, &key.agents)?,
            self.problem.agents().len(),
        )?;
        let mut given = Vec::new(alloc);
        for set in &key.given {
            given.push(set.duplicate(alloc)?)?;
        }
        let mut tree = SearchTree::new(alloc, members, given);
        let mut root = self.group_root(number, &tree.members)?;
        self.hand_down(number, &tree, &mut root)?;
        self.add_outside(visit, &mut tree)?;
        tree.nodes.push(root)?;
        let above = mem::replace(&mut self.tree, tree);
        let begun = self.begin_tree();
        let tree = mem::replace(&mut self.tree, above);
        begun?;
        self.store.groups.add(key, tree)
    }

    // Raises the bound of the root of the present tree, and opens it.
    fn begin_tree(&mut self) -> Result<(), OutOfMemory> {
        self.raise_bound(0)?;
        self.tree.push(0)
    }

    // Returns the root of a group's tree: its agents are as at the node.
    fn group_root(&self, number: u32, members: &Members) -> Result<Node, OutOfMemory> {
        let mut singles = Vec::new(self.alloc);
        let mut paths = Vec::new(self.alloc);
        for &agent in members.agents() {
            let place = self.tree.members.place(agent).unwrap_or(usize::MAX);
            if let Some(node) = self.tree.node(number) {
                singles.push(self.single_at(number, agent))?;
                paths.push(node.paths.get(place).copied().unwrap_or(u32::MAX))?;
            }
        }
        let base = self.sum_at(number, members.agents());
        let mut root = Node::root(self.alloc, singles, paths, base);
        self.hand_conflicts(number, members, &mut root)?;
        Ok(root)
    }

    // Hands the conflicts of these agents at a node to a root.
    fn hand_conflicts(
        &self,
        number: u32,
        members: &Members,
        root: &mut Node,
    ) -> Result<(), OutOfMemory> {
        let Some(node) = self.tree.node(number) else {
            return Ok(());
        };
        for conflict in &node.conflicts {
            let (i, j) = pair_of(conflict);
            if members.has(i) && members.has(j) {
                root.conflicts.push(*conflict)?;
            }
        }
        root.count = ConflictCount::of(&root.conflicts);
        Ok(())
    }

    // Hands those bounds of a node to the root of a group's tree that follow from what the group is given.
    fn hand_down(
        &self,
        number: u32,
        tree: &SearchTree,
        root: &mut Node,
    ) -> Result<(), OutOfMemory> {
        let Some(node) = self.tree.node(number) else {
            return Ok(());
        };
        for fact in &node.pairs {
            if self.pair_follows(tree, fact) {
                root.pairs.push(*fact)?;
            }
        }
        for fact in &node.groups {
            if self.group_follows(tree, fact) {
                root.groups.push(*fact)?;
            }
        }
        Ok(())
    }

    fn pair_follows(&self, tree: &SearchTree, fact: &PairFact) -> bool {
        let Some(pair) = self.store.pairs.get(fact.pair) else {
            return false;
        };
        let follows = |agent: u32, single: u32| {
            match self.store.singles.get(single) {
                Some(known) => is_given(tree, agent, &known.constraints),
                None => false,
            }
        };
        follows(fact.i, pair.first) && follows(fact.j, pair.second)
    }

    fn group_follows(&self, tree: &SearchTree, fact: &GroupFact) -> bool {
        let Some(group) = self.store.groups.get(fact.group) else {
            return false;
        };
        let Some(of) = &group.tree else {
            return false;
        };
        group.agents.len() < tree.members.len()
            && fact.bound != u64::MAX
            && group
                .agents
                .iter()
                .zip(of.given.iter())
                .all(|(&agent, set)| is_given(tree, agent, set))
    }

    // Adds the agents outside of a group's tree, with their paths.
    fn add_outside(&self, visit: &Visit, tree: &mut SearchTree) -> Result<(), OutOfMemory> {
        for (&agent, &path) in self.tree.members.agents().iter().zip(visit.paths.iter()) {
            if !tree.members.has(agent) {
                tree.outside.push((agent, path))?;
            }
        }
        tree.outside.extend_from_slice(&self.tree.outside)?;
        Ok(())
    }
}

// Returns whether an agent is one of the tree, and the tree is given what this set asks of it.
fn is_given(tree: &SearchTree, agent: u32, set: &ConstraintSet) -> bool {
    match tree
        .members
        .place(agent)
        .and_then(|place| tree.given.get(place))
    {
        Some(given) => given.covers(set),
        None => false,
    }
}

/// Returns the tick of a path's last arrival in its last cell.
pub fn cost_of(path: &[Cell]) -> u32 {
    let arrival = path.iter().rposition(|cell| path.last() != Some(cell));
    match arrival {
        Some(place) => u32::try_from(place.saturating_add(1)).unwrap_or(u32::MAX),
        None => 0,
    }
}
