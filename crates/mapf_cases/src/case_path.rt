//! The path of a tree of cases from its root to the node that is read next: which constraints stand there, and which
//! nodes are to be read after it. The judge of the tree moves along it.
ghost use Rattle.std.specs.Prelude.{◌≡◌, ◌∷◌, ◌++◌, ◌<◌, ◌+◌, ◌^◌, [], List, length, map, IfOk, OnOk, OnErr};
ghost use Rattle.mapf_lemmas.specs.Statements.{constraints_of};
ghost use Rattle.mapf_cases.specs.declared.addition.Addition.{Addition};
ghost use Rattle.mapf_cases.specs.declared.addition.Addition.TheVariants.{One};
ghost use Rattle.mapf_cases.specs.Splits.{IsWellFormed, IsCostInRange};
ghost use Rattle.mapf_cases.specs.Splits.{cost_additions, left_additions, right_constraint};

use crate::addition::Addition;
use crate::standing::Standing;
use mapf_lemmas::{AgentConstraint, PathConstraint, Split};
use mapf_model::{OutOfMemory, Problem};
use std::alloc::Global;
use std::marker::Model;

/// A right child that is read after the whole subtree of the left one.
#[derive(Clone, Copy)]
pub struct RightChild {
    /// The constraint that the split adds for this child.
    pub own: AgentConstraint,
    /// How many additions stand at the split.
    pub level: usize,
}

/// The path from the root to the node that is read next. A tree is read in pre-order, so the right child of a split is
/// read after the subtree of the left child. What stands is kept once for the path, and changed from node to node.
#[derive(Drop)]
pub struct CasePath {
    standing: Standing,
    // The right children that are still to be read, the next one last.
    pending: Vec<RightChild>,
}

impl Model for CasePath {
    ghost use Rattle.mapf_cases.specs.Paths.{PathView};

    ghost Value = { PathView };

    ghost use Rattle.std.specs.Prelude.{length, reverse};
    ghost use Rattle.mapf_cases.specs.Paths.{AreLevels};

    ghost view = { λ path. record { standing = path.standing; pending = reverse path.pending.items } };

    ghost invariant = { λ path. AreLevels (length path.standing) (reverse path.pending.items) };
}

impl CasePath {
    ghost use Rattle.mapf_cases.specs.Paths.{NextOf, contexts_of};
    ghost use Rattle.mapf_cases.specs.Nodes.{CaseNode, BranchNode, contexts_after};

    /// Returns the path that ends at the root of a tree, where these constraints stand, with nothing to be read after
    /// it.
    pub fn new(alloc: Global, constraints: &[AgentConstraint]) -> Result<CasePath, OutOfMemory>
        ensures { IfOk result (λ path. contexts_of path ≡ constraints_of constraints.now ∷ []) }
    {
        Ok(CasePath {
            standing: all_standing(alloc, constraints)?,
            pending: Vec::new(alloc),
        })
    }

    /// Returns what stands at the node that is read next.
    pub fn standing(&self) -> &Standing
        ensures { result.now ≡ self.now.standing }
    {
        &self.standing
    }

    /// Moves from a split to its left child.
    pub fn split(&mut self, problem: &Problem, split: &Split) -> Result<(), OutOfMemory>
        requires well_formed { IsWellFormed problem.now split.now }
        requires cost { IsCostInRange split.now }
        ensures { OnOk result
            (contexts_of self.new ≡ contexts_after problem.now (contexts_of self.old) (BranchNode split.now)) }
    {
        self.pending.reserve(1)?;
        let level = self.standing.count();
        add_left(&mut self.standing, problem, split)?;
        self.pending.push_reserved(RightChild {
            own: right_of(split),
            level,
        });
        Ok(())
    }

    /// Moves from a terminal node to the next node in pre-order. Returns false if there is none.
    pub fn next(&mut self) -> Result<bool, OutOfMemory>
        ensures { IfOk result (NextOf self.old self.new) }
    {
        let Some(child) = self.pending.pop() else {
            return Ok(false);
        };
        self.standing.take_back_to(child.level);
        self.standing.add(Addition::One(child.own))?;
        Ok(true)
    }
}

// Returns the state in which these constraints stand.
fn all_standing(alloc: Global, constraints: &[AgentConstraint]) -> Result<Standing, OutOfMemory>
    ensures { IfOk result (λ standing. standing ≡ map One constraints.now) }
{
    let mut standing = Standing::new(alloc);
    let mut left = constraints.len();
    while 0 < left {
        left -= 1;
        standing.add(Addition::One(constraints[left]))?;
    }
    Ok(standing)
}

// Adds what the split adds for its left child.
fn add_left(standing: &mut Standing, problem: &Problem, split: &Split) -> Result<(), OutOfMemory>
    requires { IsWellFormed problem.now split.now }
    ensures added { OnOk result (standing.new ≡ left_additions problem.now split.now ++ standing.old) }
    ensures more { OnErr result ((more : List Addition) × (standing.new ≡ more ++ standing.old)) }
{
    match *split {
        Split::Vertex { i, cell, tick, .. } => add_one(
            standing,
            i,
            PathConstraint::NotAt { cell, tick },
        ),
        Split::Swap {
            i,
            from,
            to,
            tick,
            ..
        } => add_one(standing, i, PathConstraint::NotMove { from, to, tick }),
        Split::Cost { i, ticks } => add_cost(standing, problem, i, ticks),
        Split::Costs {
            i,
            ticks,
            j,
            least,
            ..
        } => {
            add_cost(standing, problem, i, ticks)?;
            add_one(standing, j, PathConstraint::Least { ticks: least })
        }
    }
}

// Adds that the path of the agent costs at most so many ticks, and that no other agent is in its goal from then on.
fn add_cost(
    standing: &mut Standing,
    problem: &Problem,
    agent: u32,
    ticks: u32,
) -> Result<(), OutOfMemory>
    requires { agent < length problem.now.agents }
    ensures added { OnOk result (standing.new ≡ cost_additions problem.now agent ticks ++ standing.old) }
    ensures more { OnErr result ((more : List Addition) × (standing.new ≡ more ++ standing.old)) }
{
    let cell = problem.agents()[agent as usize].goal;
    standing.add(Addition::Others {
        agent,
        cell,
        tick: ticks,
    })?;
    add_one(standing, agent, PathConstraint::Most { ticks })
}

fn add_one(
    standing: &mut Standing,
    agent: u32,
    constraint: PathConstraint,
) -> Result<(), OutOfMemory>
    ensures added { OnOk result
        (standing.new ≡ One (record { agent = agent; constraint = constraint }) ∷ standing.old) }
    ensures unchanged { OnErr result (standing.new ≡ standing.old) }
{
    standing.add(Addition::One(AgentConstraint { agent, constraint }))
}

// Returns the constraint that the split adds for its right child.
fn right_of(split: &Split) -> AgentConstraint
    requires { IsCostInRange split.now }
    ensures { result ≡ right_constraint split.now }
{
    match *split {
        Split::Vertex { j, cell, tick, .. } => AgentConstraint {
            agent: j,
            constraint: PathConstraint::NotAt { cell, tick },
        },
        Split::Swap {
            j,
            from,
            to,
            tick,
            ..
        } => AgentConstraint {
            agent: j,
            constraint: PathConstraint::NotMove {
                from: to,
                to: from,
                tick,
            },
        },
        Split::Cost { i, ticks } => AgentConstraint {
            agent: i,
            constraint: PathConstraint::Least { ticks: ticks + 1 },
        },
        Split::Costs { i, ticks, .. } => AgentConstraint {
            agent: i,
            constraint: PathConstraint::Least { ticks: ticks + 1 },
        },
    }
}
