//! The agents under their constraints, kept by agent and constraints, since many nodes share them.
use mapf_distance::Distances;
use mapf_layers::{ConstraintSet, LayerTask, Layers, StateLabels, Workspace};
use mapf_lemmas::{AgentConstraint, PricedEntry};
use mapf_model::{Agent, Neighbourhoods, OutOfMemory, Problem};
use mapf_pairs::PairSide;
use std::alloc::Global;
use std::collections::HashMap;
use std::mem;

/// By how many ticks the labels of an agent's states reach beyond its cost.
pub const LABEL_DEPTH: u32 = 4;

/// An agent and its constraints.
#[derive(Debug, PartialEq, Eq, Hash, Drop)]
struct Key {
    agent: u32,
    constraints: ConstraintSet,
}

/// An agent under its constraints.
#[derive(Debug, Drop)]
pub struct Single {
    pub agent: u32,
    pub constraints: ConstraintSet,
    /// The layers of its cheapest paths, None if it can't arrive.
    pub layers: Option<Layers>,
    // The labels of its states, once they were asked for.
    labels: Option<StateLabels>,
}

impl Single {
    /// Returns the cost of the agent's cheapest path, in ticks. None if it can't arrive.
    pub fn cost(&self) -> Option<u32> {
        self.layers.as_ref().map(|layers| layers.cost())
    }
}

/// Agents under their constraints, by their numbers, and the tables by which they are found.
#[derive(Drop)]
pub struct Singles<'a> {
    alloc: Global,
    problem: &'a Problem,
    neighbourhoods: Neighbourhoods,
    // By agent, the distances to its goal and from its start, once they were asked for.
    from_goals: Vec<Option<Distances>>,
    from_starts: Vec<Option<Distances>>,
    workspace: Workspace,
    numbers: HashMap<Key, u32>,
    // The key that is looked up.
    key: Key,
    list: Vec<Single>,
    // By number, what the agent costs. Bounds are compared by it at each node.
    costs: Vec<Option<u32>>,
}

impl<'a> Singles<'a> {
    /// Returns no agents yet.
    pub fn of(alloc: Global, problem: &'a Problem) -> Result<Singles<'a>, OutOfMemory> {
        let grid = problem.grid();
        let cells = (grid.width() * grid.height()) as usize;
        let mut from_goals = Vec::new(alloc);
        let mut from_starts = Vec::new(alloc);
        for _ in problem.agents() {
            from_goals.push(None)?;
            from_starts.push(None)?;
        }
        Ok(Singles {
            alloc,
            problem,
            neighbourhoods: Neighbourhoods::of(grid),
            from_goals,
            from_starts,
            workspace: Workspace::of(alloc, cells)?,
            numbers: HashMap::new(alloc),
            key: Key {
                agent: 0,
                constraints: ConstraintSet::new(alloc),
            },
            list: Vec::new(alloc),
            costs: Vec::new(alloc),
        })
    }

    /// Returns the number of the agent under these constraints. A path is expected to cost at least so much, in ticks.
    pub fn number_of(
        &mut self,
        agent: u32,
        constraints: &mut ConstraintSet,
        expected: u32,
    ) -> Result<u32, OutOfMemory> {
        self.key.agent = agent;
        mem::swap(&mut self.key.constraints, constraints);
        let known = self.numbers.get(&self.key).copied();
        mem::swap(&mut self.key.constraints, constraints);
        match known {
            Some(number) => Ok(number),
            None => self.add(agent, constraints, expected),
        }
    }

    /// Returns the agent under its constraints of a number.
    pub fn get(&self, number: u32) -> Option<&Single> {
        self.list.get(number as usize)
    }

    /// Returns how many there are.
    pub fn len(&self) -> usize {
        self.list.len()
    }

    /// Returns the cost of the agent of a number, in ticks, None if it can't arrive.
    pub fn cost(&self, number: u32) -> Option<u32> {
        self.costs.get(number as usize).copied().flatten()
    }

    /// Returns how far it is from the start of the agent of a number to its goal, in ticks. 0 if no steps lead there.
    pub fn distance(&self, number: u32) -> u64 {
        let Some(single) = self.get(number) else {
            return 0;
        };
        match ends_of(self.problem, &self.from_goals, single.agent) {
            Some((who, distances)) => u64::from(distances.get(who.start).unwrap_or(0)),
            None => 0,
        }
    }

    /// Returns the sum of what the agents of two numbers cost, in ticks.
    pub fn cost_of_two(&self, first: u32, second: u32) -> u64 {
        let first = u64::from(self.cost(first).unwrap_or(0));
        first.saturating_add(u64::from(self.cost(second).unwrap_or(0)))
    }

    /// Returns the agent's distances to its goal and from its start, which are made when they are first asked for. None
    /// if there is no such agent, or its ends aren't free.
    pub fn ends(&mut self, agent: u32) -> Result<Option<(&Distances, &Distances)>, OutOfMemory> {
        let Some(&who) = self.problem.agents().get(agent as usize) else {
            return Ok(None);
        };
        let grid = self.problem.grid();
        if !grid.is_free(who.start) || !grid.is_free(who.goal) {
            return Ok(None);
        }
        if let Some(table) = self.from_goals.get_mut(agent as usize) {
            if table.is_none() {
                *table = Some(Distances::of(self.alloc, grid, who.goal)?);
            }
        }
        if let Some(table) = self.from_starts.get_mut(agent as usize) {
            if table.is_none() {
                *table = Some(Distances::of(self.alloc, grid, who.start)?);
            }
        }
        let goal = table_of(&self.from_goals, agent);
        let start = table_of(&self.from_starts, agent);
        Ok(goal.zip(start))
    }

    /// Returns the distances to the agent's goal, None if they weren't made yet.
    pub fn to_goal(&self, agent: u32) -> Option<&Distances> {
        table_of(&self.from_goals, agent)
    }

    /// Makes the labels of the states of an agent, if they weren't made yet.
    pub fn make_labels(&mut self, number: u32) -> Result<(), OutOfMemory> {
        let Some(single) = self.list.get_mut(number as usize) else {
            return Ok(());
        };
        let Some(cost) = single.cost() else {
            return Ok(());
        };
        if single.labels.is_some() {
            return Ok(());
        }
        let Some((who, distances)) = ends_of(self.problem, &self.from_goals, single.agent) else {
            return Ok(());
        };
        let task = LayerTask {
            neighbourhoods: &self.neighbourhoods,
            distances,
            agent: who,
            constraints: &single.constraints,
        };
        let last = cost.saturating_add(LABEL_DEPTH);
        let labels = self.workspace.state_labels(self.alloc, &task, last)?;
        single.labels = Some(labels);
        Ok(())
    }

    /// Returns an agent as one of two, None if it can't arrive or its labels weren't made.
    pub fn side(&self, number: u32) -> Option<PairSide<'_>> {
        let single = self.get(number)?;
        let Some((agent, distances)) = ends_of(self.problem, &self.from_goals, single.agent) else {
            return None;
        };
        let (Some(labels), Some(cost)) = (single.labels.as_ref(), single.cost()) else {
            return None;
        };
        Some(PairSide {
            agent,
            constraints: &single.constraints,
            distances,
            labels,
            cost,
        })
    }

    /// Returns labels by which the agent costs at least `value` ticks, or can't arrive if that is None.
    pub fn entries(
        &mut self,
        number: u32,
        value: Option<u32>,
    ) -> Result<Vec<PricedEntry>, OutOfMemory> {
        let Some(single) = self.list.get(number as usize) else {
            return Ok(Vec::new(self.alloc));
        };
        let Some((agent, distances)) = ends_of(self.problem, &self.from_goals, single.agent) else {
            return Ok(Vec::new(self.alloc));
        };
        let task = LayerTask {
            neighbourhoods: &self.neighbourhoods,
            distances,
            agent,
            constraints: &single.constraints,
        };
        self.workspace.labels(self.alloc, &task, value)
    }

    // Returns the labels of an agent's states, which were made, as far as two agents need them that cost more together
    // than alone: the agent's own may then be `value` ticks.
    fn deep_entries(&self, number: u32, value: u32) -> Result<Vec<PricedEntry>, OutOfMemory> {
        let Some(single) = self.get(number) else {
            return Ok(Vec::new(self.alloc));
        };
        let known = ends_of(self.problem, &self.from_goals, single.agent);
        let (Some((agent, distances)), Some(labels)) = (known, &single.labels) else {
            return Ok(Vec::new(self.alloc));
        };
        let task = LayerTask {
            neighbourhoods: &self.neighbourhoods,
            distances,
            agent,
            constraints: &single.constraints,
        };
        labels.entries(self.alloc, &task, value)
    }

    /// Returns the labels of an agent, whose labels were made, as far as two agents need them that cost so many ticks
    /// more together than alone.
    pub fn deeper_entries(&self, number: u32, more: u32) -> Result<Vec<PricedEntry>, OutOfMemory> {
        let cost = self.cost(number).unwrap_or(0);
        self.deep_entries(number, cost.saturating_add(more))
    }

    /// Returns the constraints of an agent.
    pub fn constraints_of(&self, number: u32) -> Result<Vec<AgentConstraint>, OutOfMemory> {
        match self.get(number) {
            Some(single) => single.constraints.constraints(self.alloc, single.agent),
            None => Ok(Vec::new(self.alloc)),
        }
    }

    // Finds the agent under these constraints, and returns its number.
    fn add(
        &mut self,
        agent: u32,
        constraints: &ConstraintSet,
        expected: u32,
    ) -> Result<u32, OutOfMemory> {
        let layers = match self.ends(agent)? {
            Some(_) => self.layers(agent, constraints, expected)?,
            None => None,
        };
        let number = u32::try_from(self.list.len()).map_err(|_| OutOfMemory)?;
        self.costs
            .push(layers.as_ref().map(|layers| layers.cost()))?;
        self.list.push(Single {
            agent,
            constraints: constraints.duplicate(self.alloc)?,
            layers,
            labels: None,
        })?;
        let key = Key {
            agent,
            constraints: constraints.duplicate(self.alloc)?,
        };
        self.numbers.insert(key, number)?;
        Ok(number)
    }

    // Finds the layers of an agent whose tables are made.
    fn layers(
        &mut self,
        agent: u32,
        constraints: &ConstraintSet,
        expected: u32,
    ) -> Result<Option<Layers>, OutOfMemory> {
        let Some((who, distances)) = ends_of(self.problem, &self.from_goals, agent) else {
            return Ok(None);
        };
        let task = LayerTask {
            neighbourhoods: &self.neighbourhoods,
            distances,
            agent: who,
            constraints,
        };
        self.workspace.layers(self.alloc, &task, expected)
    }
}

// Returns an agent and the distances to its goal, None if they weren't made.
fn ends_of<'t>(
    problem: &Problem,
    tables: &'t [Option<Distances>],
    agent: u32,
) -> Option<(Agent, &'t Distances)> {
    match (
        problem.agents().get(agent as usize),
        table_of(tables, agent),
    ) {
        (Some(&who), Some(table)) => Some((who, table)),
        _ => None,
    }
}

// Returns the table of an agent, None if it wasn't made.
fn table_of(tables: &[Option<Distances>], agent: u32) -> Option<&Distances> {
    tables.get(agent as usize)?.as_ref()
}
