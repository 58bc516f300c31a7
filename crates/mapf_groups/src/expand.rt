//! The search goes from node to node.
use crate::searcher::Searcher;
use crate::split::Sides;
use crate::visit::Visit;
use mapf_model::{Cause, OutOfMemory, Watcher};
use mapf_nodes::{Node, NodeState};

/// How the search of a tree ended.
#[derive(Debug, Drop)]
pub enum Ended {
    /// These paths, by their numbers, have no conflict. Their costs add up to the tree's bound.
    Plan(Vec<u32>),
    /// A limit was reached.
    AtLimit(Cause),
    /// No node is open.
    Exhausted,
}

/// What became of an open node.
#[derive(Debug, Drop)]
pub enum Step {
    /// It was opened again: its bound rose, or it has fewer conflicts. Or a group of its agents is searched first.
    Opened,
    Split,
    Ended(Ended),
}

/// How many splits the searches for groups may make at the root of the tree of all agents, also if the limit is smaller.
const SPLITS_AT_ROOT: u32 = 300;

/// The fewest agents of a tree whose nodes are visited.
const FEWEST_VISITED: usize = 13;

impl<'a> Searcher<'a> {
    /// Expands nodes, the first of the open list each time, until the search of the tree of all agents ends. Searches
    /// for groups begin and end in between. None if it pauses before it ends, after so many splits: then another call
    /// goes on.
    pub fn run<W: Watcher>(
        &mut self,
        pause: u32,
        watcher: &mut W,
    ) -> Result<Option<Ended>, OutOfMemory> {
        // Each turn splits a node, raises its bound, lowers the number of its conflicts, or begins or ends the search
        // for a group, so the turns never run out.
        for _ in 0..u64::MAX {
            if self.splits >= pause {
                return Ok(None);
            }
            let ended = match self.turn()? {
                Step::Opened => continue,
                Step::Split => {
                    self.tell(watcher);
                    continue;
                }
                Step::Ended(ended) => ended,
            };
            match self.suspended.pop() {
                Some(suspended) => self.resume(suspended, ended)?,
                None => return Ok(Some(ended)),
            }
        }
        Ok(Some(Ended::AtLimit(Cause::Splits(self.limit))))
    }

    /// Goes on until the search ends.
    pub fn finish<W: Watcher>(&mut self, watcher: &mut W) -> Result<Ended, OutOfMemory> {
        match self.run(u32::MAX, watcher)? {
            Some(ended) => Ok(ended),
            None => Ok(Ended::AtLimit(Cause::Splits(self.limit))),
        }
    }

    /// Returns the bound of the tree of all agents.
    pub fn bound(&self) -> u64 {
        match self.suspended.first() {
            Some(outermost) => outermost.tree().bound,
            None => self.tree.bound,
        }
    }

    // Tells the watcher how far the search of the tree of all agents is, after each 256 splits in any tree.
    fn tell<W: Watcher>(&self, watcher: &mut W) {
        if self.splits % 256 == 0 {
            let tree = match self.suspended.first() {
                Some(outermost) => outermost.tree(),
                None => &self.tree,
            };
            watcher.note(self.splits, tree.bound, tree.open.count());
        }
    }

    // Looks at the first open node of the present tree.
    fn turn(&mut self) -> Result<Step, OutOfMemory> {
        if let Some(visit) = self.resumed.take() {
            return self.go_on(visit);
        }
        let Some((bound, number)) = self.tree.open.take() else {
            return Ok(Step::Ended(Ended::Exhausted));
        };
        self.tree.bound = self.tree.bound.max(bound);
        if self.is_stopped || self.work > self.until || self.is_in_vain() {
            self.tree.push(number)?;
            return Ok(Step::Ended(Ended::AtLimit(Cause::Splits(self.limit))));
        }
        self.look_at(number, bound)
    }

    // Returns whether the tree of all agents has no cheaper plan than the one that is known.
    fn is_in_vain(&self) -> bool {
        self.suspended.is_empty() && self.tree.bound >= self.below
    }

    // Looks at an open node, which had this bound.
    fn look_at(&mut self, number: u32, bound: u64) -> Result<Step, OutOfMemory> {
        if self.state_of(number) == NodeState::Made {
            self.evaluate(number)?;
            if self.state_of(number) == NodeState::Dead {
                return Ok(Step::Opened);
            }
            if self.has_risen(number, bound) {
                self.tree.push(number)?;
                return Ok(Step::Opened);
            }
        }
        if let Some(paths) = self.free_paths(number)? {
            return Ok(Step::Ended(Ended::Plan(paths)));
        }
        if self.state_of(number) == NodeState::Evaluated
            && self.tree.members.len() >= FEWEST_VISITED
        {
            if let Some(visit) = self.begin_visit(number)? {
                return self.go_on(visit);
            }
        }
        let sides = self.sides(number);
        self.split(number, sides)
    }

    /// Goes on with an open node after its visit.
    pub fn after_visit(&mut self, visit: &Visit) -> Result<Step, OutOfMemory> {
        let number = visit.number;
        self.account(visit);
        if self.state_of(number) == NodeState::Dead {
            return Ok(Step::Opened);
        }
        if self.is_stopped || self.has_risen(number, visit.before) {
            self.tree.push(number)?;
            return Ok(Step::Opened);
        }
        if let Some(plan) = self.tree.node(number).and_then(|node| node.plan.as_ref()) {
            let plan = Vec::from_slice(self.alloc, plan)?;
            return Ok(Step::Ended(Ended::Plan(plan)));
        }
        let sides = match self.sides_between_groups(visit)? {
            Some(sides) => Some(sides),
            None => self.sides(number),
        };
        self.split(number, sides)
    }

    // Splits an open node in this way, or puts a child in its place.
    fn split(&mut self, number: u32, sides: Option<Sides>) -> Result<Step, OutOfMemory> {
        match sides {
            Some(sides) => self.expand(number, sides),
            None => {
                self.tree.push(number)?;
                Ok(Step::Ended(Ended::AtLimit(Cause::Ticks)))
            }
        }
    }

    /// Returns how far a node was looked at.
    pub fn state_of(&self, number: u32) -> NodeState {
        self.tree
            .node(number)
            .map_or(NodeState::Dead, |node| node.state)
    }

    /// Returns whether the bound of a node is greater than this one.
    pub fn has_risen(&self, number: u32, bound: u64) -> bool {
        self.tree
            .node(number)
            .is_some_and(|node| node.bound > bound)
    }

    // Returns the paths of a node that have no conflict.
    fn free_paths(&self, number: u32) -> Result<Option<Vec<u32>>, OutOfMemory> {
        match self.tree.node(number) {
            Some(node) if node.conflicts.is_empty() => {
                Ok(Some(Vec::from_slice(self.alloc, &node.paths)?))
            }
            _ => Ok(None),
        }
    }

    // Begins the visit of a node. Visits that gain nothing may take only so much of the tree's work.
    fn begin_visit(&self, number: u32) -> Result<Option<Visit>, OutOfMemory> {
        let Some(node) = self.tree.node(number) else {
            return Ok(None);
        };
        let is_turn = number != 0 && self.is_turn_of_wide_groups();
        let mut visit = Visit::of(self.alloc, node, number, self.work)?;
        visit.is_turn = is_turn;
        visit.is_wide = number == 0 || is_turn;
        visit.is_frugal = !visit.is_wide && self.tree.account.is_spent(0);
        self.unite_linked(&mut visit)?;
        Ok(Some(visit))
    }

    // Returns whether groups of any size may be searched below the root of the tree of all agents.
    fn is_turn_of_wide_groups(&self) -> bool {
        self.tree.members.len() == self.problem.agents().len()
            && self.work > self.wide_work.saturating_mul(2).saturating_add(200)
            && !self.tree.account.is_spent(1)
    }

    // Notes how much work a visit took, and whether it was worth it.
    fn account(&mut self, visit: &Visit) {
        let number = visit.number;
        let spent = self.work.saturating_sub(visit.begin);
        if visit.is_turn {
            self.wide_work = self.wide_work.saturating_add(spent);
        }
        let has_plan = self
            .tree
            .node(number)
            .is_some_and(|node| node.plan.is_some());
        let is_dead = self.state_of(number) == NodeState::Dead;
        let gains = has_plan || is_dead || self.has_risen(number, visit.before);
        let counted = if gains && number == 0 { 0 } else { spent };
        self.tree.account.note(visit.is_wide, gains, counted);
    }

    // Splits a node, or puts a child in its place.
    fn expand(&mut self, number: u32, sides: Sides) -> Result<Step, OutOfMemory> {
        let Some(left) = self.child(number, sides.left)? else {
            return Ok(Step::Opened);
        };
        if self.is_bypass(number, &left) {
            return self.bypass(number, left);
        }
        let Some(right) = self.child(number, sides.right)? else {
            return Ok(Step::Opened);
        };
        if self.is_bypass(number, &right) {
            return self.bypass(number, right);
        }
        if self.splits >= self.most_splits() {
            self.is_stopped = true;
            self.tree.push(number)?;
            return Ok(Step::Ended(Ended::AtLimit(Cause::Splits(self.limit))));
        }
        self.splits = self.splits.saturating_add(1);
        let first = self.tree.next_number()?;
        self.add(left)?;
        self.add(right)?;
        self.tree.split(number, sides.kind, first);
        Ok(Step::Split)
    }

    // Returns how many splits there may be by now.
    fn most_splits(&self) -> u32 {
        match self.suspended.first() {
            Some(outermost) if outermost.is_at_root() => self.limit.max(SPLITS_AT_ROOT),
            _ => self.limit,
        }
    }

    // Returns whether the paths of a child can take the place of a node's: they cost the same and have fewer conflicts.
    fn is_bypass(&self, number: u32, child: &Node) -> bool {
        match self.tree.node(number) {
            Some(node) => child.state != NodeState::Dead
                && child.base == node.base
                && child.bound <= node.bound
                && child.count < node.count,
            None => false,
        }
    }

    // Gives a node the paths of a child, and opens it again.
    fn bypass(&mut self, number: u32, child: Node) -> Result<Step, OutOfMemory> {
        let Node {
            paths,
            conflicts,
            count,
            ..
        } = child;
        if let Some(node) = self.tree.node_mut(number) {
            node.paths = paths;
            node.conflicts = conflicts;
            node.count = count;
            node.state = NodeState::Made;
            node.plan = None;
        }
        self.tree.push(number)?;
        Ok(Step::Opened)
    }

    // Adds a node, and opens it unless it is dead.
    fn add(&mut self, node: Node) -> Result<(), OutOfMemory> {
        let number = self.tree.next_number()?;
        let is_dead = node.state == NodeState::Dead;
        self.tree.nodes.push(node)?;
        if is_dead {
            return Ok(());
        }
        self.raise_bound(number)?;
        self.tree.push(number)
    }
}
