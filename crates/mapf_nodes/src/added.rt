//! What a split adds to the constraints of a child.
use mapf_layers::ConstraintSet;
use mapf_lemmas::PathConstraint;
use mapf_model::{Bar, Cell, Constraint, OutOfMemory, Tick};

/// What a child of a split adds to the constraints of its parent.
#[derive(Clone, Copy, Debug, PartialEq, Eq)]
pub enum Added {
    /// An agent doesn't take part in a conflict.
    Not(Constraint),
    /// An agent costs at most so many ticks. So no other agent is at its goal from that tick on.
    AtMost(Arrived),
    /// An agent costs at least so many ticks.
    AtLeast(CostAtLeast),
}

/// An agent that arrives for good at its goal by a tick.
#[derive(Clone, Copy, Debug, PartialEq, Eq)]
pub struct Arrived {
    pub agent: u32,
    pub goal: Cell,
    pub tick: Tick,
    /// What another agent then costs at least.
    pub least: Option<CostAtLeast>,
}

/// A least cost of an agent, in ticks.
#[derive(Clone, Copy, Debug, PartialEq, Eq)]
pub struct CostAtLeast {
    pub agent: u32,
    pub ticks: u32,
}

impl Added {
    /// Adds to the set what this says of the agent.
    pub fn add_to(&self, set: &mut ConstraintSet, agent: u32) -> Result<(), OutOfMemory> {
        match *self {
            Added::Not(constraint) if constraint.agent == agent => set.add(forbidden(
                constraint.bar,
            )),
            Added::AtMost(arrived) => arrived.add_to(set, agent),
            Added::AtLeast(cost) if cost.agent == agent => {
                set.add(PathConstraint::Least { ticks: cost.ticks })
            }
            _ => Ok(()),
        }
    }

    /// Returns whether an agent on this path may have to be planned again.
    pub fn asks_for(&self, agent: u32, path: &[Cell]) -> bool {
        match self {
            Added::Not(constraint) => constraint.agent == agent,
            Added::AtMost(arrived) => arrived.asks_for(agent, path),
            Added::AtLeast(cost) => cost.agent == agent,
        }
    }
}

impl Arrived {
    fn add_to(&self, set: &mut ConstraintSet, agent: u32) -> Result<(), OutOfMemory> {
        if self.agent == agent {
            return set.add(PathConstraint::Most { ticks: self.tick });
        }
        set.add(PathConstraint::Clear {
            cell: self.goal,
            tick: self.tick,
        })?;
        match self.least {
            Some(cost) if cost.agent == agent => {
                set.add(PathConstraint::Least { ticks: cost.ticks })
            }
            _ => Ok(()),
        }
    }

    fn asks_for(&self, agent: u32, path: &[Cell]) -> bool {
        if self.agent == agent {
            return true;
        }
        if let Some(cost) = self.least {
            if cost.agent == agent {
                return true;
            }
        }
        let late = path.get(self.tick as usize..).unwrap_or(&[]);
        path.last() == Some(&self.goal) || late.contains(&self.goal)
    }
}

// Returns the constraint of a vertex or edge constraint.
fn forbidden(bar: Bar) -> PathConstraint {
    match bar {
        Bar::Cell { cell, tick } => PathConstraint::NotAt { cell, tick },
        Bar::Move { from, to, tick } => PathConstraint::NotMove { from, to, tick },
    }
}
