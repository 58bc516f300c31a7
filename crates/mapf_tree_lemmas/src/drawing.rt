//! The certificate of version 3 that shows a claim, drawn from the tree of a search that has ended. Each lemma is
//! stated once, before those that use it, and no bound is greater than something uses.
use crate::needs::{Needs, group_order, is_leaf, order, used_groups};
use mapf_lemma_texts::{CasesHead, OneLemma, Part, TwoLemma};
use mapf_lemmas::{AgentConstraint, Amount, Group, LeafUses, Use};
use mapf_model::limits::GREATEST_SUM;
use mapf_model::{Conflict, OutOfMemory};
use mapf_nodes::{Fact, FactGroup, Node, NodeSplit, SearchTree, SplitKind, Store};
use std::alloc::Global;

/// A certificate while it is drawn.
#[derive(Drop)]
struct Drawing {
    alloc: Global,
    // The lemmas, each by cases with the nodes of its tree after it.
    parts: Vec<Part>,
    // How many lemmas there are.
    lemmas: u64,
    // The number of the lemma of an agent under its constraints, of a pair and of a group, by their numbers, if it has
    // one.
    singles: Vec<Option<u64>>,
    pairs: Vec<Option<u64>>,
    groups: Vec<Option<u64>>,
}

/// Returns the parts of the certificate that shows by the tree of all agents that no valid plan has a smaller sum of
/// costs than the claim, in ticks.
pub fn certificate(
    store: &mut Store,
    tree: &SearchTree,
    claim: u64,
) -> Result<Vec<Part>, OutOfMemory> {
    let needs = Needs::of(store, tree, claim)?;
    let mut drawing = Drawing::of(store)?;
    drawing.add_singles(store, &needs)?;
    drawing.add_pairs(store, &needs)?;
    drawing.add_groups(store, &needs)?;
    drawing.add_tree(store, tree, claim)?;
    drawing.finish()
}

impl Drawing {
    fn of(store: &Store) -> Result<Drawing, OutOfMemory> {
        let alloc = store.alloc;
        Ok(Drawing {
            alloc,
            parts: Vec::new(alloc),
            lemmas: 0,
            singles: vec![in alloc; None; store.singles.len()]?,
            pairs: vec![in alloc; None; store.pairs.len()]?,
            groups: vec![in alloc; None; store.groups.len()]?,
        })
    }

    // Adds a lemma, and returns its number.
    fn add(&mut self, lemma: Part) -> Result<u64, OutOfMemory> {
        let number = self.lemmas;
        self.parts.push(lemma)?;
        self.lemmas = number.saturating_add(1);
        Ok(number)
    }

    // Adds the lemmas of single agents whose distance isn't enough.
    fn add_singles(&mut self, store: &mut Store, needs: &Needs) -> Result<(), OutOfMemory> {
        for (number, &need) in (0u32..).zip(needs.singles.iter()) {
            if need <= store.singles.distance(number) {
                continue;
            }
            let value = u32::try_from(need).unwrap_or(u32::MAX);
            let entries = store.singles.entries(number, Some(value))?;
            let Some(single) = store.singles.get(number) else {
                continue;
            };
            let lemma = self.add(Part::One(OneLemma {
                agent: single.agent,
                constraints: single.constraints.constraints(self.alloc, single.agent)?,
                list_number: None,
                entries,
            }))?;
            if let Some(entry) = self.singles.get_mut(number as usize) {
                *entry = Some(lemma);
            }
        }
        Ok(())
    }

    // Adds the lemmas of two agents.
    fn add_pairs(&mut self, store: &mut Store, needs: &Needs) -> Result<(), OutOfMemory> {
        for (number, &need) in (0u32..).zip(needs.pairs.iter()) {
            if need == 0 {
                continue;
            }
            if let Some(lemma) = two_lemma(store, number, need)? {
                let lemma = self.add(Part::Two(lemma))?;
                if let Some(entry) = self.pairs.get_mut(number as usize) {
                    *entry = Some(lemma);
                }
            }
        }
        Ok(())
    }

    // Adds the lemmas of groups, by cases.
    fn add_groups(&mut self, store: &Store, needs: &Needs) -> Result<(), OutOfMemory> {
        for number in group_order(store)? {
            let need = needs.groups.get(number as usize).copied().unwrap_or(0);
            let tree = store
                .groups
                .get(number)
                .and_then(|group| group.tree.as_ref());
            let (Some(tree), true) = (tree, need > 0) else {
                continue;
            };
            let lemma = self.add(Part::Cases(cases_head(self.alloc, tree, need)?))?;
            self.add_tree(store, tree, need)?;
            if let Some(entry) = self.groups.get_mut(number as usize) {
                *entry = Some(lemma);
            }
        }
        Ok(())
    }

    // Adds the nodes of a tree that shows the claim.
    fn add_tree(
        &mut self,
        store: &Store,
        tree: &SearchTree,
        claim: u64,
    ) -> Result<(), OutOfMemory> {
        for number in order(self.alloc, tree, claim)? {
            if let Some(node) = tree.node(number) {
                let part = match node.split {
                    Some(split) if !is_leaf(node, claim) => self.split(&split),
                    _ => self.leaf(store, tree, node, claim)?,
                };
                self.parts.push(part)?;
            }
        }
        Ok(())
    }

    fn split(&self, split: &NodeSplit) -> Part {
        match split.kind {
            SplitKind::Conflict(Conflict::Vertex { i, j, cell, tick }) => Part::Vertex {
                i,
                j,
                cell,
                tick,
            },
            SplitKind::Conflict(
                Conflict::Swap {
                    i,
                    j,
                    from,
                    to,
                    tick,
                },
            ) => Part::Swap {
                i,
                j,
                from,
                to,
                tick,
            },
            SplitKind::Cost { agent, ticks } => Part::Cost { i: agent, ticks },
            SplitKind::Costs(costs) => Part::Costs {
                i: costs.agent,
                ticks: costs.ticks,
                j: costs.other,
                least: costs.least,
                lemma: self.lemma_of(&Fact::Pair(costs.pair)).unwrap_or(0),
            },
        }
    }

    fn leaf(
        &self,
        store: &Store,
        tree: &SearchTree,
        node: &Node,
        claim: u64,
    ) -> Result<Part, OutOfMemory> {
        let mut singles = Vec::new(self.alloc);
        for &number in &node.singles {
            if let Some(lemma) = self.singles.get(number as usize).copied().flatten() {
                singles.push(lemma)?;
            }
        }
        singles.sort_unstable();
        let mut groups = Vec::new(self.alloc);
        for used in used_groups(store, tree, node, claim)? {
            if let Some(group) = node.shown.get(used.place) {
                groups.push(self.group(group)?)?;
            }
        }
        Ok(Part::Leaf(LeafUses {
            list_number: None,
            singles,
            groups,
        }))
    }

    fn group(&self, group: &FactGroup) -> Result<Group, OutOfMemory> {
        let mut uses = Vec::new(self.alloc);
        for used in &group.uses {
            if let Some(lemma) = self.lemma_of(&used.fact) {
                uses.push(Use {
                    lemma,
                    weight: used.weight,
                })?;
            }
        }
        uses.sort_unstable_by_key(|used: &Use| (used.lemma, used.weight));
        Ok(Group {
            divisor: group.divisor,
            uses,
        })
    }

    fn lemma_of(&self, fact: &Fact) -> Option<u64> {
        match fact {
            Fact::Pair(fact) => self.pairs.get(fact.pair as usize).copied().flatten(),
            Fact::Group(fact) => self.groups.get(fact.group as usize).copied().flatten(),
        }
    }

    // Returns all parts, with what comes before the lemmas.
    fn finish(self) -> Result<Vec<Part>, OutOfMemory> {
        let Drawing {
            alloc,
            parts: drawn,
            lemmas,
            ..
        } = self;
        let mut parts = Vec::with_capacity(alloc, drawn.len().saturating_add(2))?;
        parts.push(Part::Prices(0))?;
        parts.push(Part::Lemmas(lemmas))?;
        for part in drawn {
            parts.push(part)?;
        }
        Ok(parts)
    }
}

// Returns the lemma by which a pair costs at least `bound` ticks.
fn two_lemma(store: &mut Store, number: u32, bound: u64) -> Result<Option<TwoLemma>, OutOfMemory> {
    let Some((first, second)) = store.pairs.singles_of(number) else {
        return Ok(None);
    };
    let joint = store.pairs.entries(&store.singles, number, bound)?;
    let singles = &store.singles;
    let more = bound.saturating_sub(singles.cost_of_two(first, second));
    let more = u32::try_from(more).unwrap_or(u32::MAX);
    let first_labels = singles.deeper_entries(first, more)?;
    let second_labels = singles.deeper_entries(second, more)?;
    let mut constraints = singles.constraints_of(first)?;
    constraints.extend_from_slice(&singles.constraints_of(second)?)?;
    let (Some(one), Some(other)) = (singles.get(first), singles.get(second)) else {
        return Ok(None);
    };
    Ok(Some(TwoLemma {
        i: one.agent,
        j: other.agent,
        constraints,
        list_number: None,
        first: first_labels,
        second: second_labels,
        joint,
    }))
}

// Returns the first part of the lemma by which the agents of a tree cost at least `bound` ticks together.
fn cases_head(alloc: Global, tree: &SearchTree, bound: u64) -> Result<CasesHead, OutOfMemory> {
    let agents = tree.members.agents();
    let mut constraints: Vec<AgentConstraint> = Vec::new(alloc);
    for (&agent, given) in agents.iter().zip(tree.given.iter()) {
        constraints.extend_from_slice(&given.constraints(alloc, agent)?)?;
    }
    Ok(CasesHead {
        agents: Vec::from_slice(alloc, agents)?,
        constraints,
        bound: Amount::of(bound.min(GREATEST_SUM)),
    })
}
