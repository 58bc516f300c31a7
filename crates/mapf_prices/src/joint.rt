//! Two agents together: paths without a conflict between them, of least priced cost together. A* over joint states.
use crate::label_table::LabelTable;
use crate::prices::Prices;
use crate::resources::{NOWHERE, STAY, WAYS};
use mapf_model::{OutOfMemory, Tick};
use std::alloc::Global;
use std::collections::{BinaryHeap, HashMap};

// No joint state.
const NONE: u32 = u32::MAX;

/// Which of two agents have arrived for good.
#[derive(Clone, Copy, Debug, PartialEq, Eq, PartialOrd, Ord)]
pub enum Arrived {
    Neither,
    First,
    Second,
    Both,
}

impl Arrived {
    // Returns which have arrived when the first one arrives. None if it had.
    fn with_first(self) -> Option<Arrived> {
        match self {
            Arrived::Neither => Some(Arrived::First),
            Arrived::Second => Some(Arrived::Both),
            _ => None,
        }
    }

    // Returns which have arrived when the second one arrives. None if it had.
    fn with_second(self) -> Option<Arrived> {
        match self {
            Arrived::Neither => Some(Arrived::Second),
            Arrived::First => Some(Arrived::Both),
            _ => None,
        }
    }
}

/// A joint state that was reached.
#[derive(Clone, Copy, Debug)]
pub struct Node {
    pub cost: u64,
    pub tick: Tick,
    pub first: u32,
    pub second: u32,
    pub arrived: Arrived,
    before: u32,
}

// An open node: those of the least cost are greatest, of these the latest.
#[derive(Clone, Copy, Debug, PartialEq, Eq, PartialOrd, Ord)]
struct Open {
    spare: u64,
    tick: Tick,
    number: u32,
}

/// How a search ended: with the least cost, or with a lower bound of it.
#[derive(Clone, Copy, Debug)]
pub struct Found {
    pub cost: u64,
    // The last node of the paths, if there are any.
    last: Option<u32>,
}

impl Found {
    /// Returns whether paths were found.
    pub fn has_paths(&self) -> bool {
        self.last.is_some()
    }
}

/// One agent of a pair, with the labels of its states and what rest at its goal costs by tick.
#[derive(Debug, Drop)]
pub struct Half {
    pub start: u32,
    pub goal: u32,
    pub table: LabelTable,
    pub rest: Vec<u64>,
}

/// The memory of searches.
#[derive(Drop)]
pub struct JointSearch {
    alloc: Global,
    pub nodes: Vec<Node>,
    open: BinaryHeap<Open>,
    numbers: HashMap<u64, u32>,
    // Paths cost less than this together.
    limit: u64,
    /// How many joint states were expanded by all searches.
    pub expanded: u64,
}

// A step of one agent: where it leads, and what it costs.
#[derive(Clone, Copy, Debug)]
struct Step {
    to: u32,
    cost: u64,
}

impl JointSearch {
    /// Returns the memory.
    pub fn of(alloc: Global) -> JointSearch {
        JointSearch {
            alloc,
            nodes: Vec::new(alloc),
            open: BinaryHeap::new(alloc),
            numbers: HashMap::new(alloc),
            limit: 0,
            expanded: 0,
        }
    }

    /// Searches for paths that cost less than the limit together, and looks at most at so many joint states.
    pub fn find(
        &mut self,
        prices: &Prices,
        halves: (&Half, &Half),
        limit: u64,
        most: u32,
    ) -> Result<Found, OutOfMemory> {
        self.begin(prices, halves, limit)?;
        let mut cost = 0;
        for _ in 0..most {
            let Some(open) = self.open.pop() else {
                return Ok(Found {
                    cost: limit,
                    last: None,
                });
            };
            let Some(&node) = self.nodes.get(open.number as usize) else {
                break;
            };
            if !self.is_latest(prices, &node, open.number as usize) {
                continue;
            }
            cost = u64::MAX.saturating_sub(open.spare);
            if node.arrived == Arrived::Both || node.tick >= prices.end {
                let last = Some(open.number);
                return Ok(Found { cost, last });
            }
            self.expanded = self.expanded.saturating_add(1);
            self.arrive(prices, halves, open.number, &node)?;
            self.step(prices, halves, open.number, &node)?;
        }
        Ok(Found { cost, last: None })
    }

    // Forgets the last search, and opens the agents' starts.
    fn begin(
        &mut self,
        prices: &Prices,
        halves: (&Half, &Half),
        limit: u64,
    ) -> Result<(), OutOfMemory> {
        self.nodes.clear();
        self.open = BinaryHeap::new(self.alloc);
        self.numbers = HashMap::new(self.alloc);
        self.limit = limit;
        let (i, j) = halves;
        let root = Node {
            cost: 0,
            tick: 0,
            first: i.start,
            second: j.start,
            arrived: Arrived::Neither,
            before: NONE,
        };
        self.reach(prices, halves, root)
    }

    // Has each of the agents rest at its goal from now on, if it is there.
    fn arrive(
        &mut self,
        prices: &Prices,
        halves: (&Half, &Half),
        number: u32,
        node: &Node,
    ) -> Result<(), OutOfMemory> {
        let (i, j) = halves;
        if let (true, Some(arrived)) = (node.first == i.goal, node.arrived.with_first()) {
            let rest = rest_after(i, node.tick);
            self.reach(prices, halves, resting(number, node, arrived, rest))?;
        }
        if let (true, Some(arrived)) = (node.second == j.goal, node.arrived.with_second()) {
            let rest = rest_after(j, node.tick);
            self.reach(prices, halves, resting(number, node, arrived, rest))?;
        }
        Ok(())
    }

    // Has both agents make a step, each in all ways.
    fn step(
        &mut self,
        prices: &Prices,
        halves: (&Half, &Half),
        number: u32,
        node: &Node,
    ) -> Result<(), OutOfMemory> {
        let rests = node.arrived == Arrived::First;
        for way in 0..WAYS {
            if let Some(first) = step_along(prices, node.tick, node.first, way, rests) {
                self.step_both(prices, halves, number, node, first)?;
            }
        }
        Ok(())
    }

    // Has the second agent make a step in all ways while the first one makes this step.
    fn step_both(
        &mut self,
        prices: &Prices,
        halves: (&Half, &Half),
        number: u32,
        node: &Node,
        first: Step,
    ) -> Result<(), OutOfMemory> {
        let rests = node.arrived == Arrived::Second;
        for way in 0..WAYS {
            let Some(second) = step_along(prices, node.tick, node.second, way, rests) else {
                continue;
            };
            let is_swap = first.to == node.second && second.to == node.first;
            if first.to == second.to || is_swap {
                continue;
            }
            let cost = first.cost.saturating_add(second.cost);
            let next = Node {
                cost: node.cost.saturating_add(cost),
                tick: node.tick.saturating_add(1),
                first: first.to,
                second: second.to,
                arrived: node.arrived,
                before: number,
            };
            self.reach(prices, halves, next)?;
        }
        Ok(())
    }

    // Opens a joint state, unless it is known at no greater cost, or paths through it cost too much.
    fn reach(
        &mut self,
        prices: &Prices,
        halves: (&Half, &Half),
        node: Node,
    ) -> Result<(), OutOfMemory> {
        let whole = node.cost.saturating_add(left(halves, &node));
        if whole >= self.limit {
            return Ok(());
        }
        let number = u32::try_from(self.nodes.len()).unwrap_or(NONE);
        let key = key(prices, &node);
        if let Some(entry) = self.numbers.get_mut(&key) {
            match self.nodes.get(*entry as usize) {
                Some(known) if known.cost <= node.cost => return Ok(()),
                _ => *entry = number,
            }
        } else {
            self.numbers.insert(key, number)?;
        }
        self.nodes.push(node)?;
        self.open.push(Open {
            spare: u64::MAX.saturating_sub(whole),
            tick: node.tick,
            number,
        })?;
        Ok(())
    }

    /// Returns whether a node is the cheapest of its joint state.
    pub fn is_latest(&self, prices: &Prices, node: &Node, number: usize) -> bool {
        self.numbers.get(&key(prices, node)).copied() == u32::try_from(number).ok()
    }

    /// Returns the nodes of the paths that were found, the last first.
    pub fn way(&self, found: &Found, way: &mut Vec<Node>) -> Result<(), OutOfMemory> {
        way.clear();
        let mut number = found.last.unwrap_or(NONE);
        for _ in 0..self.nodes.len() {
            let Some(&node) = self.nodes.get(number as usize) else {
                break;
            };
            way.push(node)?;
            number = node.before;
        }
        Ok(())
    }
}

/// Returns what is left at least of both agents' priced costs.
pub fn left(halves: (&Half, &Half), node: &Node) -> u64 {
    let (i, j) = halves;
    let first = i.table.get(node.tick, node.first);
    let second = j.table.get(node.tick, node.second);
    match node.arrived {
        Arrived::Neither => first.saturating_add(second),
        Arrived::First => second,
        Arrived::Second => first,
        Arrived::Both => 0,
    }
}

// Returns the step of an agent along a way, None if that leads to no free cell. An agent that rests stays for nothing.
#[inline(always)]
fn step_along(prices: &Prices, tick: Tick, from: u32, way: usize, rests: bool) -> Option<Step> {
    if rests {
        return (way == STAY).then_some(Step { to: from, cost: 0 });
    }
    let to = prices.resources.beside(from, way);
    if to == NOWHERE {
        return None;
    }
    let cost = u64::from(prices.unit).saturating_add(prices.of_step(tick, from, to));
    Some(Step { to, cost })
}

// Returns the node in which one more agent has arrived than in this one, and pays this for its rest.
fn resting(number: u32, node: &Node, arrived: Arrived, rest: u64) -> Node {
    Node {
        cost: node.cost.saturating_add(rest),
        arrived,
        before: number,
        ..*node
    }
}

fn rest_after(half: &Half, tick: Tick) -> u64 {
    half.rest.get(tick as usize).copied().unwrap_or(0)
}

fn key(prices: &Prices, node: &Node) -> u64 {
    let cells = prices.resources.cells as u64;
    let arrived = match node.arrived {
        Arrived::Neither => 0,
        Arrived::First => 1,
        Arrived::Second => 2,
        Arrived::Both => 3,
    };
    u64::from(node.tick)
        .saturating_mul(cells)
        .saturating_add(u64::from(node.first))
        .saturating_mul(cells)
        .saturating_add(u64::from(node.second))
        .saturating_mul(4)
        .saturating_add(arrived)
}
