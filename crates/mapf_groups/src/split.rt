//! On what a node is split.
use crate::searcher::Searcher;
use crate::visit::{FEW_CONFLICTS, Visit};
use mapf_model::limits::SPLIT_TICKS;
use mapf_model::{Cell, Conflict, OutOfMemory, Tick};
use mapf_nodes::{Added, Arrived, CostAtLeast, CostsSplit, Node, PairFact, SplitKind, pair_of};
use std::cmp::Reverse;

/// How early a conflict is split: the greatest first.
#[derive(Clone, Copy, Debug, PartialEq, Eq, PartialOrd, Ord)]
struct Rank {
    // How much more its agents cost together than alone.
    excess: u64,
    // How many of its agents can't avoid it at no cost.
    cardinal: u32,
    tick: Reverse<Tick>,
}

/// A split, and what it adds to its children.
#[derive(Clone, Copy, Debug)]
pub struct Sides {
    pub kind: SplitKind,
    pub left: Added,
    pub right: Added,
}

impl<'a> Searcher<'a> {
    /// Returns how a node is split, None if it has no conflict at a tick that a constraint may have.
    pub fn sides(&self, number: u32) -> Option<Sides> {
        let node = self.tree.node(number)?;
        let conflict = self.conflict(node)?;
        let (i, j) = pair_of(&conflict);
        if let Some(fact) = node.pair_fact(i, j) {
            // Each split would raise the bound of the two by one alone, and would need a search for them.
            if self.costs().pair_excess(node, &fact) == 1 {
                return self.costs_sides(node, fact);
            }
        }
        if let Some(arrived) = self.arrived_in(node, &conflict) {
            return Some(cost_sides(arrived));
        }
        Some(conflict_sides(conflict))
    }

    /// Returns how a node is split after a visit that solved its groups and left few conflicts between them: on one of
    /// the smallest two. None after any other visit.
    pub fn sides_between_groups(&self, visit: &Visit) -> Result<Option<Sides>, OutOfMemory> {
        let cross = self.cross(visit)?;
        if !visit.is_all_solved() || cross.len() > FEW_CONFLICTS {
            return Ok(None);
        }
        let mut best: Option<((usize, Tick), Conflict)> = None;
        for conflict in &cross {
            let Some(size) = self.size_of_both(visit, conflict) else {
                continue;
            };
            if conflict.tick() >= SPLIT_TICKS {
                continue;
            }
            let key = (size, conflict.tick());
            match &best {
                Some((least, _)) if *least <= key => {}
                _ => best = Some((key, *conflict)),
            }
        }
        Ok(best.map(|(_, conflict)| conflict_sides(conflict)))
    }

    // Returns the conflict that is split, of several that are as good the last.
    fn conflict(&self, node: &Node) -> Option<Conflict> {
        let mut best: Option<(Rank, Conflict)> = None;
        for conflict in &node.conflicts {
            if conflict.tick() >= SPLIT_TICKS {
                continue;
            }
            let rank = self.rank(node, conflict);
            match &best {
                Some((greatest, _)) if *greatest > rank => {}
                _ => best = Some((rank, *conflict)),
            }
        }
        best.map(|(_, conflict)| conflict)
    }

    fn rank(&self, node: &Node, conflict: &Conflict) -> Rank {
        let (i, j) = pair_of(conflict);
        let first = u32::from(self.is_cardinal_for(node, conflict, i));
        let second = u32::from(self.is_cardinal_for(node, conflict, j));
        Rank {
            excess: match node.pair_fact(i, j) {
                Some(fact) => self.costs().pair_excess(node, &fact),
                None => 0,
            },
            cardinal: first.saturating_add(second),
            tick: Reverse(conflict.tick()),
        }
    }

    // Returns whether each cheapest path of the agent takes part in the conflict, as far as the widths tell.
    fn is_cardinal_for(&self, node: &Node, conflict: &Conflict, agent: u32) -> bool {
        let place = self.tree.members.place(agent).unwrap_or(usize::MAX);
        let number = node.singles.get(place).copied().unwrap_or(u32::MAX);
        let Some(layers) = self
            .store
            .singles
            .get(number)
            .and_then(|single| single.layers.as_ref())
        else {
            return false;
        };
        let tick = conflict.tick();
        let is_swap = matches!(conflict, Conflict::Swap { .. });
        layers.width(tick) == 1 && (!is_swap || layers.width(tick.saturating_add(1)) == 1)
    }

    // Returns the split on the costs of two agents that cost more together than alone. That of the two with the greater
    // sum of excesses is kept to its cost on the left.
    fn costs_sides(&self, node: &Node, fact: PairFact) -> Option<Sides> {
        let (agent, other) = if self.excesses(node, fact.i) >= self.excesses(node, fact.j) {
            (fact.i, fact.j)
        } else {
            (fact.j, fact.i)
        };
        let ticks = u32::try_from(self.costs().agent(node, agent)).ok()?;
        let least = u32::try_from(fact.bound.checked_sub(u64::from(ticks))?).ok()?;
        let mut sides = cost_sides(Arrived {
            agent,
            goal: self.goal(agent)?,
            tick: ticks,
            least: Some(CostAtLeast {
                agent: other,
                ticks: least,
            }),
        });
        sides.kind = SplitKind::Costs(CostsSplit {
            agent,
            ticks,
            other,
            least,
            pair: fact,
        });
        Some(sides)
    }

    // Returns the sum of the excesses of an agent's pairs.
    fn excesses(&self, node: &Node, agent: u32) -> u64 {
        let mut sum = 0u64;
        for fact in &node.pairs {
            if fact.i == agent || fact.j == agent {
                sum = sum.saturating_add(self.costs().pair_excess(node, fact));
            }
        }
        sum
    }

    // Returns the agent that rests in the cell of a vertex conflict, as one that has arrived by its tick.
    fn arrived_in(&self, node: &Node, conflict: &Conflict) -> Option<Arrived> {
        let Conflict::Vertex { i, j, cell, tick } = *conflict else {
            return None;
        };
        let rests = |agent: u32| {
            self.goal(agent) == Some(cell) && u64::from(tick) >= self.costs().agent(node, agent)
        };
        let agent = if rests(i) {
            i
        } else if rests(j) {
            j
        } else {
            return None;
        };
        Some(Arrived {
            agent,
            goal: cell,
            tick,
            least: None,
        })
    }

    fn goal(&self, agent: u32) -> Option<Cell> {
        let who = self.problem.agents().get(agent as usize)?;
        Some(who.goal)
    }
}

// Returns the split on a conflict.
fn conflict_sides(conflict: Conflict) -> Sides {
    Sides {
        kind: SplitKind::Conflict(conflict),
        left: Added::Not(conflict.left()),
        right: Added::Not(conflict.right()),
    }
}

// Returns the split on the cost of an agent.
fn cost_sides(arrived: Arrived) -> Sides {
    let Arrived { agent, tick, .. } = arrived;
    Sides {
        kind: SplitKind::Cost { agent, ticks: tick },
        left: Added::AtMost(arrived),
        right: Added::AtLeast(CostAtLeast {
            agent,
            ticks: tick.saturating_add(1),
        }),
    }
}
