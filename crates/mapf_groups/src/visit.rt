//! Independence detection at a node (Standley 2010): groups of agents are searched by themselves, and grow as their
//! plans conflict.
use crate::group_search::cost_of;
use crate::searcher::Searcher;
use mapf_model::{Conflict, OutOfMemory, Path};
use mapf_nodes::{
    Added, CostAtLeast, Fact, FactGroup, GroupFact, Node, NodeState, WeightedFact, is_of, pair_of,
};
use std::alloc::Global;

/// The most agents of a group at nodes at which not all sizes are searched.
const SMALL: usize = 12;

/// The most conflicts between groups that count as few. With more of them agents keep their paths, at such nodes, and
/// no node is split on one of them.
pub const FEW_CONFLICTS: usize = 3;

/// The groups of a node's agents, while they grow. What is listed by agent is listed by its place in the tree.
#[derive(Drop)]
pub struct Visit {
    pub number: u32,
    /// Whether groups of any size are searched, and whether that is so though the node isn't the root.
    pub is_wide: bool,
    pub is_turn: bool,
    /// Whether no search is begun or gone on with, unless the group is tiny.
    pub is_frugal: bool,
    /// Whether nothing more is to be done.
    pub is_over: bool,
    /// How much work was done before.
    pub begin: u64,
    /// The bound of the node at the beginning.
    pub before: u64,
    // By agent, the place that names its group.
    parts: Vec<usize>,
    /// By agent.
    pub paths: Vec<u32>,
    // The conflicts of these paths.
    conflicts: Vec<Conflict>,
    // By agent, whether its path is of a group that is solved, or the agent is alone.
    is_solved: Vec<bool>,
    // By the place that names a group, how many agents it has, how much more these cost together than alone, and whether
    // it was searched.
    sizes: Vec<usize>,
    excesses: Vec<u64>,
    is_done: Vec<bool>,
}

impl Visit {
    /// Returns the visit of a node, whose agents are all alone, after so much work.
    pub fn of(alloc: Global, node: &Node, number: u32, begin: u64) -> Result<Visit, OutOfMemory> {
        let count = node.singles.len();
        let mut parts = Vec::with_capacity(alloc, count)?;
        for place in 0..count {
            parts.push(place)?;
        }
        Ok(Visit {
            number,
            is_wide: false,
            is_turn: false,
            is_frugal: false,
            is_over: false,
            begin,
            before: node.bound,
            parts,
            paths: Vec::from_slice(alloc, &node.paths)?,
            conflicts: Vec::from_slice(alloc, &node.conflicts)?,
            is_solved: vec![in alloc; true; count]?,
            sizes: vec![in alloc; 1; count]?,
            excesses: vec![in alloc; 0; count]?,
            is_done: vec![in alloc; false; count]?,
        })
    }

    /// Returns the places of the agents of the group with this name.
    pub fn places(&self, alloc: Global, name: usize) -> Result<Vec<usize>, OutOfMemory> {
        let mut places = Vec::new(alloc);
        for (place, &part) in self.parts.iter().enumerate() {
            if part == name {
                places.push(place)?;
            }
        }
        Ok(places)
    }

    /// Returns the name of the first group that is still to be searched.
    pub fn first_due(&self) -> Option<usize> {
        (0..self.parts.len()).find(|&name| self.is_done.get(name) == Some(&false)
            && self.size(name) > 1)
    }

    /// Notes what was found of the group with this name.
    pub fn note(&mut self, name: usize, excess: u64, is_solved: bool) {
        for (solved, &part) in self.is_solved.iter_mut().zip(self.parts.iter()) {
            if part == name {
                *solved = is_solved;
            }
        }
        if let Some(entry) = self.excesses.get_mut(name) {
            *entry = excess;
        }
        if let Some(entry) = self.is_done.get_mut(name) {
            *entry = true;
        }
    }

    // Returns the name of the group of an agent.
    fn part(&self, place: usize) -> usize {
        self.parts.get(place).copied().unwrap_or(place)
    }

    // Returns how many agents the group with this name has.
    fn size(&self, name: usize) -> usize {
        self.sizes.get(name).copied().unwrap_or(0)
    }

    // Unites the groups of two agents, if they may be. Returns whether it did.
    fn unite(&mut self, first: usize, second: usize) -> bool {
        let (name, other) = (self.part(first), self.part(second));
        let size = self.size(name).saturating_add(self.size(other));
        let fits = self.is_wide || size <= SMALL;
        if name == other || size >= self.parts.len() || !fits {
            return false;
        }
        for part in self.parts.iter_mut() {
            if *part == other {
                *part = name;
            }
        }
        if let Some(entry) = self.sizes.get_mut(name) {
            *entry = size;
        }
        if let Some(entry) = self.sizes.get_mut(other) {
            *entry = 0;
        }
        if let Some(entry) = self.is_done.get_mut(name) {
            *entry = false;
        }
        if let Some(entry) = self.excesses.get_mut(other) {
            *entry = 0;
        }
        true
    }

    /// Returns whether each group of several agents has a plan.
    pub fn is_all_solved(&self) -> bool {
        self.is_solved.iter().all(|&is_solved| is_solved)
    }

    // Returns the sum of the excesses of all groups.
    fn excess(&self) -> u64 {
        let mut sum = 0u64;
        for &excess in &self.excesses {
            sum = sum.saturating_add(excess);
        }
        sum
    }
}

impl<'a> Searcher<'a> {
    /// Unites the agents of each pair that costs more together than alone, those of the greatest excess first.
    pub fn unite_linked(&self, visit: &mut Visit) -> Result<(), OutOfMemory> {
        let Some(node) = self.tree.node(visit.number) else {
            return Ok(());
        };
        let mut linked = Vec::new(self.alloc);
        for fact in &node.pairs {
            let excess = self.costs().pair_excess(node, fact);
            if excess > 0 {
                linked.push((u64::MAX - excess, fact.i, fact.j))?;
            }
        }
        linked.sort_unstable();
        for (_, i, j) in linked {
            if let (Some(first), Some(second)) = (
                self.tree.members.place(i),
                self.tree.members.place(j),
            ) {
                let _united = visit.unite(first, second);
            }
        }
        Ok(())
    }

    /// Looks at the conflicts between groups, all of which were searched: unites two of them, or ends the visit.
    /// Returns whether it unites two.
    pub fn unite_in_conflict(&mut self, visit: &mut Visit) -> Result<bool, OutOfMemory> {
        self.reroute_in_conflict(visit)?;
        let cross = self.cross(visit)?;
        if cross.is_empty() {
            self.end_visit(visit)?;
            return Ok(false);
        }
        Ok(self.unite_first(visit, &cross))
    }

    /// Returns the conflicts between groups.
    pub fn cross(&self, visit: &Visit) -> Result<Vec<Conflict>, OutOfMemory> {
        let mut cross = Vec::new(self.alloc);
        for conflict in &visit.conflicts {
            if let Some((first, second)) = self.parts_of(visit, conflict) {
                if first != second {
                    cross.push(*conflict)?;
                }
            }
        }
        Ok(cross)
    }

    // Returns the groups of the two agents of a conflict.
    fn parts_of(&self, visit: &Visit, conflict: &Conflict) -> Option<(usize, usize)> {
        let (i, j) = pair_of(conflict);
        let first = visit.part(self.tree.members.place(i)?);
        let second = visit.part(self.tree.members.place(j)?);
        Some((first, second))
    }

    // Unites the groups of two agents in conflict, the smallest ones first. Returns whether it does.
    fn unite_first(&self, visit: &mut Visit, cross: &[Conflict]) -> bool {
        let mut best: Option<(usize, u32, u32, u32)> = None;
        for conflict in cross {
            let (i, j) = pair_of(conflict);
            if let Some(size) = self.size_of_both(visit, conflict) {
                let key = (size, conflict.tick(), i, j);
                if best.is_none_or(|least| key < least) && self.may_unite(visit, conflict, size) {
                    best = Some(key);
                }
            }
        }
        let Some((_, _, i, j)) = best else {
            return false;
        };
        match (self.tree.members.place(i), self.tree.members.place(j)) {
            (Some(first), Some(second)) => visit.unite(first, second),
            _ => false,
        }
    }

    /// Returns how many agents the two groups of a conflict have.
    pub fn size_of_both(&self, visit: &Visit, conflict: &Conflict) -> Option<usize> {
        let (first, second) = self.parts_of(visit, conflict)?;
        Some(visit.size(first).saturating_add(visit.size(second)))
    }

    // Returns whether the groups of the two agents of a conflict are solved, and with this size not too large together.
    fn may_unite(&self, visit: &Visit, conflict: &Conflict, size: usize) -> bool {
        let (i, j) = pair_of(conflict);
        let (Some(first), Some(second)) = (self.tree.members.place(i), self.tree.members.place(j))
        else {
            return false;
        };
        let is_solved = |place: usize| visit.is_solved.get(place) == Some(&true);
        is_solved(first)
            && is_solved(second)
            && size < visit.parts.len()
            && (visit.is_wide || size <= SMALL)
    }

    /// Puts the agents of a visit at these places on these paths.
    pub fn take_paths(
        &mut self,
        visit: &mut Visit,
        places: &[usize],
        plan: &[u32],
    ) -> Result<(), OutOfMemory> {
        for (&place, &number) in places.iter().zip(plan) {
            if let Some(entry) = visit.paths.get_mut(place) {
                *entry = number;
            }
        }
        for &place in places {
            if let Some(&agent) = self.tree.members.agents().get(place) {
                visit.conflicts.retain(|conflict| !is_of(conflict, agent));
            }
        }
        self.place_all(&visit.paths)?;
        for (index, &place) in places.iter().enumerate() {
            self.add_conflicts(visit, place, places.get(..index).unwrap_or(&[]))?;
        }
        Ok(())
    }

    // Adds the conflicts of an agent of a visit, but for those with agents at these places, which were added.
    fn add_conflicts(
        &mut self,
        visit: &mut Visit,
        place: usize,
        earlier: &[usize],
    ) -> Result<(), OutOfMemory> {
        let (Some(&agent), Some(&path)) = (
            self.tree.members.agents().get(place),
            visit.paths.get(place),
        ) else {
            return Ok(());
        };
        for conflict in self.placed.conflicts(agent, self.store.paths.cells(path))? {
            let (i, j) = pair_of(&conflict);
            let other = if i == agent { j } else { i };
            if let Some(with) = self.tree.members.place(other) {
                if !earlier.contains(&with) {
                    visit.conflicts.push(conflict)?;
                }
            }
        }
        Ok(())
    }

    // Gives agents that are in conflict paths of the same cost with fewer conflicts.
    fn reroute_in_conflict(&mut self, visit: &mut Visit) -> Result<(), OutOfMemory> {
        let cross = self.cross(visit)?;
        if !visit.is_wide && cross.len() > FEW_CONFLICTS {
            return Ok(());
        }
        let mut agents = Vec::new(self.alloc);
        for conflict in &cross {
            let (i, j) = pair_of(conflict);
            agents.push(i)?;
            agents.push(j)?;
        }
        agents.sort_unstable();
        agents.dedup();
        for agent in agents {
            self.reroute_one(visit, agent)?;
        }
        Ok(())
    }

    // Gives an agent a path of the same cost with fewer conflicts, if there is one that meets none of the others of its
    // group.
    fn reroute_one(&mut self, visit: &mut Visit, agent: u32) -> Result<(), OutOfMemory> {
        let Some(place) = self.tree.members.place(agent) else {
            return Ok(());
        };
        let old = visit
            .conflicts
            .iter()
            .filter(|conflict| is_of(conflict, agent))
            .count();
        if old == 0 || visit.is_solved.get(place) != Some(&true) {
            return Ok(());
        }
        self.place_all(&visit.paths)?;
        let Some(path) = self.path_as_dear(visit, agent, place)? else {
            return Ok(());
        };
        let mut conflicts = Vec::new(self.alloc);
        self.conflicts_within(&mut conflicts, agent, &path)?;
        if conflicts.len() >= old
            || conflicts
                .iter()
                .any(|conflict| self.is_within(visit, conflict))
            || !self.obeys(visit.number, agent, path.cells())?
        {
            return Ok(());
        }
        visit.conflicts.retain(|conflict| !is_of(conflict, agent));
        for conflict in conflicts {
            visit.conflicts.push(conflict)?;
        }
        let number = self.store.paths.add(path)?;
        if let Some(entry) = visit.paths.get_mut(place) {
            *entry = number;
        }
        Ok(())
    }

    // Returns a path of an agent that costs as much as its path of the visit, with few conflicts with the others, as
    // they were placed.
    fn path_as_dear(
        &mut self,
        visit: &Visit,
        agent: u32,
        place: usize,
    ) -> Result<Option<Path>, OutOfMemory> {
        let Some(&path) = visit.paths.get(place) else {
            return Ok(None);
        };
        let ticks = cost_of(self.store.paths.cells(path));
        if self.store.singles.cost(self.single_at(visit.number, agent)) == Some(ticks) {
            return self.path_at(visit.number, place);
        }
        self.gather(visit.number, agent)?;
        Added::AtLeast(CostAtLeast { agent, ticks }).add_to(&mut self.standing, agent)?;
        self.standing.tidy();
        let number = self
            .store
            .singles
            .number_of(agent, &mut self.standing, ticks)?;
        self.path_of(Some(number))
    }

    // Returns whether a conflict is one of two agents of a group.
    fn is_within(&self, visit: &Visit, conflict: &Conflict) -> bool {
        match self.parts_of(visit, conflict) {
            Some((first, second)) => first == second,
            None => false,
        }
    }

    // Ends a visit whose groups have no conflict with each other: if all are solved, their paths are a plan.
    fn end_visit(&mut self, visit: &Visit) -> Result<(), OutOfMemory> {
        if !visit.is_all_solved() {
            return Ok(());
        }
        let alloc = self.alloc;
        let shown = self.shown_by(visit)?;
        let Some(node) = self.tree.node_mut(visit.number) else {
            return Ok(());
        };
        let sum = node.base.saturating_add(visit.excess());
        node.plan = Some(Vec::from_slice(alloc, &visit.paths)?);
        if sum > node.bound {
            // The packing missed that the groups share no agent.
            node.bound = sum;
            node.shown = shown;
        }
        Ok(())
    }

    // Returns the bounds of the groups of a visit, which share no agent, each by itself.
    fn shown_by(&self, visit: &Visit) -> Result<Vec<FactGroup>, OutOfMemory> {
        let mut shown = Vec::new(self.alloc);
        let Some(node) = self.tree.node(visit.number) else {
            return Ok(shown);
        };
        for name in 0..visit.parts.len() {
            if let Some(fact) = self.fact_of(
                node,
                &self.agents_at(&visit.places(self.alloc, name)?)?,
            ) {
                let mut uses = Vec::new(self.alloc);
                uses.push(WeightedFact { fact, weight: 1 })?;
                shown.push(FactGroup { divisor: 1, uses })?;
            }
        }
        Ok(shown)
    }

    /// Returns the agents at these places of the tree.
    pub fn agents_at(&self, places: &[usize]) -> Result<Vec<u32>, OutOfMemory> {
        let mut agents = Vec::new(self.alloc);
        for &place in places {
            if let Some(&agent) = self.tree.members.agents().get(place) {
                agents.push(agent)?;
            }
        }
        Ok(agents)
    }

    // Returns the greatest bound of just these agents that is known at a node.
    fn fact_of(&self, node: &Node, agents: &[u32]) -> Option<Fact> {
        let pair = match *agents {
            [i, j] => node.pair_fact(i, j),
            _ => None,
        };
        let group = self.group_fact(node, agents);
        let Some(group) = group else {
            return pair.map(Fact::Pair);
        };
        match pair {
            Some(pair) if pair.bound >= group.bound => Some(Fact::Pair(pair)),
            _ => Some(Fact::Group(group)),
        }
    }

    /// Returns the bound of a group of just these agents that is known at a node.
    pub fn group_fact(&self, node: &Node, agents: &[u32]) -> Option<GroupFact> {
        for fact in &node.groups {
            if let Some(group) = self.store.groups.get(fact.group) {
                if group.agents.as_slice() == agents {
                    return Some(*fact);
                }
            }
        }
        None
    }

    /// Notes that no plan is valid at a node, as the bound of some of its agents says.
    pub fn kill(&mut self, number: u32, fact: Fact) -> Result<(), OutOfMemory> {
        let alloc = self.alloc;
        if let Some(node) = self.tree.node_mut(number) {
            let mut uses = Vec::new(alloc);
            uses.push(WeightedFact { fact, weight: 1 })?;
            let mut shown = Vec::new(alloc);
            shown.push(FactGroup { divisor: 1, uses })?;
            node.shown = shown;
            node.state = NodeState::Dead;
        }
        Ok(())
    }
}
