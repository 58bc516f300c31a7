//! Certificates that show without a search that no plan is valid.
use mapf_lemma_texts::{NeverLemma, Part, TwoLemma};
use mapf_lemmas::{Amount, Group, JointCell, JointEntry, JointState, LeafUses, Use};
use mapf_model::{Cell, OutOfMemory};
use std::alloc::Global;

/// Returns the parts of a certificate that shows that no plan is valid, since two agents have the same goal.
pub fn same_goal(alloc: Global, (i, j): (u32, u32)) -> Result<Vec<Part>, OutOfMemory> {
    parts_of(alloc, None, Part::Clash { i, j })
}

/// Returns the parts of a certificate that shows that no plan is valid, since two agents start in the same cell.
pub fn same_start(
    alloc: Global,
    agents: (u32, u32),
    start: Cell,
) -> Result<Vec<Part>, OutOfMemory> {
    let lemma = never_both(alloc, agents, start)?;
    let leaf = leaf_with(alloc, Some(0))?;
    parts_of(alloc, Some(lemma), leaf)
}

/// Returns the parts of a certificate that shows that no plan is valid, since two agents never leave these joint cells,
/// which rise and don't have both goals.
pub fn never_left(
    alloc: Global,
    (i, j): (u32, u32),
    cells: Vec<JointCell>,
) -> Result<Vec<Part>, OutOfMemory> {
    let lemma = Part::Never(NeverLemma { i, j, cells });
    let leaf = leaf_with(alloc, Some(0))?;
    parts_of(alloc, Some(lemma), leaf)
}

/// Returns the parts of a certificate that shows that no plan is valid, since no steps lead an agent to its goal.
pub fn no_way(alloc: Global) -> Result<Vec<Part>, OutOfMemory> {
    let leaf = leaf_with(alloc, None)?;
    parts_of(alloc, None, leaf)
}

// Returns the parts of a certificate with one lemma or none, and a tree of one node.
fn parts_of(alloc: Global, lemma: Option<Part>, node: Part) -> Result<Vec<Part>, OutOfMemory> {
    let mut parts = Vec::new(alloc);
    parts.push(Part::Prices(0))?;
    parts.push(Part::Lemmas(u64::from(lemma.is_some())))?;
    if let Some(lemma) = lemma {
        parts.push(lemma)?;
    }
    parts.push(node)?;
    Ok(parts)
}

// Returns a leaf that uses the lemma of this number, if one is named.
fn leaf_with(alloc: Global, lemma: Option<u64>) -> Result<Part, OutOfMemory> {
    let mut groups = Vec::new(alloc);
    if let Some(lemma) = lemma {
        let mut uses = Vec::new(alloc);
        uses.push(Use { lemma, weight: 1 })?;
        groups.push(Group { divisor: 1, uses })?;
    }
    Ok(Part::Leaf(LeafUses {
        list_number: None,
        singles: Vec::new(alloc),
        groups,
    }))
}

// Returns the lemma that two agents with this start can't both arrive.
fn never_both(alloc: Global, (i, j): (u32, u32), start: Cell) -> Result<Part, OutOfMemory> {
    let mut joint = Vec::new(alloc);
    joint.push(JointEntry {
        state: JointState::Both {
            first: start,
            second: start,
        },
        tick: 0,
        label: Amount::infinite(),
    })?;
    Ok(Part::Two(TwoLemma {
        i,
        j,
        constraints: Vec::new(alloc),
        list_number: None,
        first: Vec::new(alloc),
        second: Vec::new(alloc),
        joint,
    }))
}
