//! Which part of a certificate comes next. The reader of parts keeps it, and compares each part's first line with it.
ghost use Rattle.mapf_lemma_texts.specs.Due.{Admits, due_after, pending_after, lemmas_due, cases_due, pending_at};
ghost use Rattle.mapf_lemma_texts.specs.Due.{IsLemmaHead, IsNodeHead};
ghost use Rattle.mapf_lemma_texts.specs.Parts.{first_line};
ghost use Rattle.mapf_lemma_texts.specs.declared.due.Due.TheVariants.{Tree};
ghost use Rattle.std.specs.Prelude.{◌≡◌, ◌↔◌, ◌<◌, ◌≤◌, ◌+◌, ◌^◌, IsTrue};

use crate::line::LemmaLine;
use crate::part::Part;

/// Which part comes next.
#[derive(Clone, Copy)]
pub enum Due {
    /// The number of price lists.
    Prices,
    /// So many price lists, then the number of lemmas.
    Lists(u64),
    /// So many lemmas, at least one, then the last tree.
    Lemmas(u64),
    /// Nodes that complete so many subtrees of a lemma by cases, then so many lemmas.
    Cases { pending: u64, left: u64 },
    /// Nodes that complete so many subtrees of the last tree, then the end.
    Tree(u64),
}

fn is_lemma_head(line: &LemmaLine) -> bool
    ensures { IsTrue result ↔ IsLemmaHead line.now }
{
    matches!(
        line,
        LemmaLine::One { .. }
            | LemmaLine::Two { .. }
            | LemmaLine::Never { .. }
            | LemmaLine::Cases { .. }
    )
}

fn is_node_head(line: &LemmaLine) -> bool
    ensures { IsTrue result ↔ IsNodeHead line.now }
{
    matches!(
        line,
        LemmaLine::Vertex { .. }
            | LemmaLine::Swap { .. }
            | LemmaLine::Cost { .. }
            | LemmaLine::Costs { .. }
            | LemmaLine::Leaf { .. }
            | LemmaLine::Clash { .. }
    )
}

// Returns what comes next, if so many lemmas are left.
fn lemmas_due(left: u64) -> Due
    ensures { result ≡ lemmas_due left }
{
    if left == 0 {
        Due::Tree(1)
    } else {
        Due::Lemmas(left)
    }
}

// Returns what comes next, if so many subtrees of a lemma by cases are pending, and so many lemmas are left.
fn cases_due(pending: u64, left: u64) -> Due
    ensures { result ≡ cases_due pending left }
{
    if pending == 0 {
        lemmas_due(left)
    } else {
        Due::Cases { pending, left }
    }
}

// Returns how many subtrees are pending after this node.
fn pending_after(pending: u64, node: &Part) -> u64
    requires some { 1 ≤ pending }
    requires few { pending + 1 < 2 ^ 64 }
    ensures { result ≡ pending_after pending node.now }
{
    match node {
        Part::Leaf(_) | Part::Clash { .. } => pending - 1,
        _ => pending + 1,
    }
}

impl Due {
    /// Returns whether the end comes next.
    pub fn is_end(&self) -> bool
        ensures { IsTrue result ↔ (self.now ≡ Tree 0) }
    {
        matches!(*self, Due::Tree(0))
    }

    /// Returns whether a part may begin with this line.
    pub fn admits(&self, line: &LemmaLine) -> bool
        ensures { IsTrue result ↔ Admits self.now line.now }
    {
        match *self {
            Due::Prices => matches!(line, LemmaLine::Prices(_)),
            Due::Lists(left) => match line {
                LemmaLine::List { .. } => left > 0,
                LemmaLine::Lemmas(_) => left == 0,
                _ => false,
            },
            Due::Lemmas(left) => left > 0 && is_lemma_head(line),
            Due::Cases { pending, .. } | Due::Tree(pending) => pending > 0 && is_node_head(line),
        }
    }

    /// Returns what comes after this part.
    pub fn after(&self, part: &Part) -> Due
        requires place { Admits self.now (first_line part.now) }
        requires few { pending_at self.now + 1 < 2 ^ 64 }
        ensures { result ≡ due_after self.now part.now }
    {
        match *self {
            Due::Prices => match part {
                Part::Prices(lists) => Due::Lists(*lists),
                _ => Due::Prices,
            },
            Due::Lists(left) => match part {
                Part::Lemmas(count) => lemmas_due(*count),
                _ => Due::Lists(left - 1),
            },
            Due::Lemmas(left) => match part {
                Part::Cases(_) => cases_due(1, left - 1),
                _ => lemmas_due(left - 1),
            },
            Due::Cases { pending, left } => cases_due(pending_after(pending, part), left),
            Due::Tree(pending) => Due::Tree(pending_after(pending, part)),
        }
    }
}
