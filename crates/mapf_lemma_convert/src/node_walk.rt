//! The walk over the nodes of a tree in pre-order, which makes the parts of the converted certificate.
ghost use Rattle.std.specs.Prelude.{◌≡◌, ◌++◌, [], ◌∷◌, IfOk, OnOk, filter, is_none, length, map, not};
ghost use Rattle.mapf_lemma_texts.specs.WholeTexts.{split_part};
ghost use Rattle.mapf_model.specs.Nodes.{node_with};
ghost use Rattle.mapf_model.specs.Tree.{block_of, node_of};
ghost use Rattle.mapf_lemma_convert.specs.Conversion.{numbered, split_on};
ghost use Rattle.mapf_lemma_convert.specs.NodeWalk.{Above, walk_start, block_part, case_part, children_of};
ghost use Rattle.mapf_lemma_convert.specs.NodeWalk.{node_after, walk_over};

use crate::lemma_part::lemma_part;
use mapf_lemma_texts::Part;
use mapf_lemmas::LeafUses;
use mapf_model::{AsNode, Block, Conflict, Constraint, Item, NodeKind};
use std::alloc::{AllocError, Global};
use std::marker::Model;

/// The number of the lemma of an agent's block.
#[derive(Clone, Copy, Debug)]
pub struct NumberedLemma {
    pub agent: u32,
    pub number: u64,
}

/// What stands above a subtree that is still to come: the constraints made on the way from the root, the last one
/// first, and the lemmas in force.
#[derive(Drop)]
pub struct Pending {
    constraints: Vec<Constraint>,
    in_force: Vec<NumberedLemma>,
}

impl Model for Pending {
    ghost use Rattle.mapf_lemma_convert.specs.NodeWalk.{Above};

    ghost Value = { Above };

    ghost view = { λ p. record { constraints = p.constraints.items; in_force = p.in_force.items } };
}

/// A walk over the nodes of a tree.
#[derive(Drop)]
pub struct NodeWalk {
    pending: Vec<Pending>,
    lemmas: Vec<Part>,
    cases: Vec<Part>,
}

impl Model for NodeWalk {
    ghost use Rattle.std.specs.Prelude.{reverse};
    ghost use Rattle.mapf_lemma_convert.specs.NodeWalk.{Walked};

    ghost Value = { Walked };

    ghost view = { λ w. record {
      pending = reverse w.pending.items;
      lemmas = w.lemmas.items;
      cases = w.cases.items;
    } };
}

// Returns whether one of the blocks is of the agent.
fn has_block(blocks: &[Block], agent: u32) -> bool
    ensures { is_none (block_of blocks.now agent) ≡ not result }
{
    for block in blocks {
        if block.agent == agent {
            return true;
        }
    }
    false
}

// Returns the lemmas whose agents have no block here.
fn kept(
    alloc: Global,
    above: &[NumberedLemma],
    blocks: &[Block],
) -> Result<Vec<NumberedLemma>, AllocError>
    ensures { IfOk result (λ kept. kept.items
        ≡ filter (λ lemma. is_none (block_of blocks.now lemma.agent)) above.now) }
{
    let mut kept = Vec::new(alloc);
    for lemma in above {
        if !has_block(blocks, lemma.agent) {
            kept.push(*lemma)?;
        }
    }
    Ok(kept)
}

// Returns the numbers of the lemmas.
fn numbers_of(alloc: Global, lemmas: &[NumberedLemma]) -> Result<Vec<u64>, AllocError>
    ensures { IfOk result (λ numbers. numbers.items ≡ map (λ lemma. lemma.number) lemmas.now) }
{
    let mut numbers = Vec::new(alloc);
    for lemma in lemmas {
        numbers.push(lemma.number)?;
    }
    Ok(numbers)
}

// Returns the split on the conflict.
fn split_part(conflict: Conflict) -> Part
    ensures { result ≡ split_part (split_on conflict) }
{
    match conflict {
        Conflict::Vertex { i, j, cell, tick } => Part::Vertex { i, j, cell, tick },
        Conflict::Swap {
            i,
            j,
            from,
            to,
            tick,
        } => Part::Swap {
            i,
            j,
            from,
            to,
            tick,
        },
    }
}

// Returns the node of the proof by cases for a node of this kind at which these lemmas are in force.
fn case_part(alloc: Global, kind: NodeKind, in_force: &[NumberedLemma]) -> Result<Part, AllocError>
    ensures { IfOk result (λ part. part ≡ case_part (node_with kind []) in_force.now) }
{
    Ok(match kind {
        NodeKind::Split(conflict) => split_part(conflict),
        NodeKind::Leaf => Part::Leaf(LeafUses {
            list_number: None,
            singles: numbers_of(alloc, in_force)?,
            groups: Vec::new(alloc),
        }),
        NodeKind::Clash { i, j } => Part::Clash { i, j },
    })
}

// Adds the lemmas of the blocks at a node with these constraints, which are in force there too.
fn add_lemmas(
    alloc: Global,
    lemmas: &mut Vec<Part>,
    in_force: &mut Vec<NumberedLemma>,
    constraints: &[Constraint],
    blocks: &[Block],
) -> Result<(), AllocError>
    ensures lemmas { OnOk result (lemmas.new.items
        ≡ lemmas.old.items ++ map (block_part constraints.now) blocks.now) }
    ensures in_force { OnOk result (in_force.new.items
        ≡ in_force.old.items ++ numbered (length lemmas.old.items) blocks.now) }
{
    for block in blocks {
        in_force.push(NumberedLemma {
            agent: block.agent,
            number: lemmas.len() as u64,
        })?;
        lemmas.push(lemma_part(alloc, constraints, block)?)?;
    }
    Ok(())
}

// Returns what stands above a child that is made with this constraint, at a node with these.
fn child_of(
    alloc: Global,
    constraint: Constraint,
    constraints: &[Constraint],
    in_force: &[NumberedLemma],
) -> Result<Pending, AllocError>
    ensures { IfOk result (λ child. child
        ≡ record { constraints = constraint ∷ constraints.now; in_force = in_force.now }) }
{
    let mut made = Vec::new(alloc);
    made.push(constraint)?;
    made.extend_from_slice(constraints)?;
    let mut lemmas = Vec::new(alloc);
    lemmas.extend_from_slice(in_force)?;
    Ok(Pending {
        constraints: made,
        in_force: lemmas,
    })
}

impl NodeWalk {
    /// Returns a walk that comes to the root next.
    pub fn new(alloc: Global) -> Result<NodeWalk, AllocError>
        ensures { IfOk result (λ walk. walk ≡ walk_start) }
    {
        let mut pending = Vec::new(alloc);
        pending.push(Pending {
            constraints: Vec::new(alloc),
            in_force: Vec::new(alloc),
        })?;
        Ok(NodeWalk {
            pending,
            lemmas: Vec::new(alloc),
            cases: Vec::new(alloc),
        })
    }

    /// Returns the parts of the lemmas.
    pub fn lemmas(&self) -> &[Part]
        ensures { result.now ≡ self.now.lemmas }
    {
        &self.lemmas
    }

    /// Returns the parts of the proof by cases.
    pub fn cases(&self) -> &[Part]
        ensures { result.now ≡ self.now.cases }
    {
        &self.cases
    }

    // Adds the children of a node of this kind, with these constraints, at which these lemmas are in force.
    fn add_children(
        &mut self,
        alloc: Global,
        kind: NodeKind,
        constraints: &[Constraint],
        in_force: &[NumberedLemma],
    ) -> Result<(), AllocError>
        ensures { OnOk result (self.new ≡ record {
          pending = children_of (node_with kind []) constraints.now in_force.now ++ self.old.pending;
          lemmas = self.old.lemmas;
          cases = self.old.cases;
        }) }
    {
        if let NodeKind::Split(conflict) = kind {
            let right = child_of(alloc, conflict.right(), constraints, in_force)?;
            let left = child_of(alloc, conflict.left(), constraints, in_force)?;
            self.pending.push(right)?;
            self.pending.push(left)?;
        }
        Ok(())
    }

    /// Converts the next node.
    pub fn node(&mut self, alloc: Global, item: &Item) -> Result<(), AllocError>
        ensures { OnOk result (self.new ≡ node_after self.old (node_of item.now)) }
    {
        let Some(above) = self.pending.pop() else {
            return Ok(());
        };
        let blocks = item.blocks();
        let kind = item.kind();
        let mut in_force = kept(alloc, &above.in_force, blocks)?;
        add_lemmas(
            alloc,
            &mut self.lemmas,
            &mut in_force,
            &above.constraints,
            blocks,
        )?;
        self.cases.push(case_part(alloc, kind, &in_force)?)?;
        self.add_children(alloc, kind, &above.constraints, &in_force)
    }

    /// Converts these nodes.
    pub fn nodes(&mut self, alloc: Global, items: &[Item]) -> Result<(), AllocError>
        ensures { OnOk result (self.new ≡ walk_over self.old (map node_of items.now)) }
    {
        for item in items {
            self.node(alloc, item)?;
        }
        Ok(())
    }
}
