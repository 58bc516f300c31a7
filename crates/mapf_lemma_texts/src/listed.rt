//! What a part lists, each value in a line of its own: prices, constraints, entries, joint cells, agents and uses. The
//! reader of lists asks it of each line.
ghost use Rattle.mapf_lemma_texts.specs.PlaceOrder.{before_trans};
ghost use Rattle.mapf_lemma_texts.specs.Listing.{IsFirstSmaller, IsOfAgents, FitsAnyhow, InAnyOrder};
ghost use Rattle.mapf_lemma_texts.specs.Places.{IsBefore, IsBeforeUse, price_place, entry_place, joint_place};
ghost use Rattle.mapf_lemma_texts.specs.Places.{cells_place};
ghost use Rattle.mapf_lemma_texts.specs.declared.line.LemmaLine.{LemmaLine};
ghost use Rattle.mapf_lemma_texts.specs.declared.line.LemmaLine.TheVariants as lines;
ghost use Rattle.std.proofs.Common.{arith};
ghost use Rattle.std.specs.Prelude.{◌≡◌, ◌<◌, ◌↔◌, ⊤, List, ℕ, IsTrue, IfSome, IfNone};

use crate::line::LemmaLine;
use crate::place::{cells_place, entry_place, joint_place, price_place};
use mapf_lemmas::{AgentConstraint, JointCell, JointEntry, Price, PricedEntry, Use};

/// A value with a line of its own in a list.
pub trait Listed: Copy + Drop {
    /// Its line.
    ghost line_of: { Self → LemmaLine };
    /// Whether it may be in a list of a part of these agents.
    ghost fits: { List ℕ → Self → Type 0 };
    /// Whether the first may come before the second.
    ghost precedes: { Self → Self → Type 0 };

    /// Returns the value of a line, None if the line is of another kind.
    fn of_line(line: &LemmaLine) -> Option<Self>
        ensures found { IfSome result (λ value. line.now ≡ line_of value) }
        ensures none { IfNone result ((value : Self) → line.now ≡ line_of value → ⊥) };

    /// Returns the line of the value.
    fn to_line(&self) -> LemmaLine
        ensures { result ≡ line_of self.now };

    /// Returns whether the value may be in a list of a part of these agents.
    fn is_fit(&self, agents: &[u32]) -> bool
        ensures { IsTrue result ↔ fits agents.now self.now };

    /// Returns whether the value may come before this one.
    fn is_before(&self, next: &Self) -> bool
        ensures { IsTrue result ↔ precedes self.now next.now };

    ghost transitive: { (a b c : Self) → precedes a b → precedes b c → precedes a c };

    ghost apart: { (a b : Self) → line_of a ≡ line_of b → a ≡ b };
}

impl Listed for Price {
    ghost line_of = { lines.Price };

    ghost fits = { λ agents. IsFirstSmaller };

    ghost precedes = { λ a b. IsBefore (price_place a) (price_place b) };

    fn of_line(line: &LemmaLine) -> Option<Price> {
        match *line {
            LemmaLine::Price(price) => Some(price),
            _ => None,
        }
    }

    fn to_line(&self) -> LemmaLine {
        LemmaLine::Price(*self)
    }

    fn is_fit(&self, _agents: &[u32]) -> bool {
        match *self {
            Price::Cell { .. } => true,
            Price::Edge { from, to, .. } => from.0 < to.0,
        }
    }

    fn is_before(&self, next: &Price) -> bool {
        price_place(self).is_before(&price_place(next))
    }

    ghost transitive = { λ a b c. before_trans (price_place a) (price_place b) (price_place c) };

    ghost apart = { λ a b e. Prim.cc };
}

impl Listed for AgentConstraint {
    ghost line_of = { lines.Constraint };

    ghost fits = { IsOfAgents };

    ghost precedes = { InAnyOrder };

    fn of_line(line: &LemmaLine) -> Option<AgentConstraint> {
        match *line {
            LemmaLine::Constraint(constraint) => Some(constraint),
            _ => None,
        }
    }

    fn to_line(&self) -> LemmaLine {
        LemmaLine::Constraint(*self)
    }

    fn is_fit(&self, agents: &[u32]) -> bool {
        agents.contains(&self.agent)
    }

    fn is_before(&self, _next: &AgentConstraint) -> bool {
        true
    }

    ghost transitive = { λ a b c p q. tt };

    ghost apart = { λ a b e. Prim.cc };
}

impl Listed for PricedEntry {
    ghost line_of = { lines.At };

    ghost fits = { λ agents. FitsAnyhow };

    ghost precedes = { λ a b. IsBefore (entry_place a) (entry_place b) };

    fn of_line(line: &LemmaLine) -> Option<PricedEntry> {
        match *line {
            LemmaLine::At(entry) => Some(entry),
            _ => None,
        }
    }

    fn to_line(&self) -> LemmaLine {
        LemmaLine::At(*self)
    }

    fn is_fit(&self, _agents: &[u32]) -> bool {
        true
    }

    fn is_before(&self, next: &PricedEntry) -> bool {
        entry_place(self).is_before(&entry_place(next))
    }

    ghost transitive = { λ a b c. before_trans (entry_place a) (entry_place b) (entry_place c) };

    ghost apart = { λ a b e. Prim.cc };
}

impl Listed for JointEntry {
    ghost line_of = { lines.JointAt };

    ghost fits = { λ agents. FitsAnyhow };

    ghost precedes = { λ a b. IsBefore (joint_place a) (joint_place b) };

    fn of_line(line: &LemmaLine) -> Option<JointEntry> {
        match *line {
            LemmaLine::JointAt(entry) => Some(entry),
            _ => None,
        }
    }

    fn to_line(&self) -> LemmaLine {
        LemmaLine::JointAt(*self)
    }

    fn is_fit(&self, _agents: &[u32]) -> bool {
        true
    }

    fn is_before(&self, next: &JointEntry) -> bool {
        joint_place(self).is_before(&joint_place(next))
    }

    ghost transitive = { λ a b c. before_trans (joint_place a) (joint_place b) (joint_place c) };

    ghost apart = { λ a b e. Prim.cc };
}

impl Listed for JointCell {
    ghost line_of = { lines.Cells };

    ghost fits = { λ agents. FitsAnyhow };

    ghost precedes = { λ a b. IsBefore (cells_place a) (cells_place b) };

    fn of_line(line: &LemmaLine) -> Option<JointCell> {
        match *line {
            LemmaLine::Cells(cells) => Some(cells),
            _ => None,
        }
    }

    fn to_line(&self) -> LemmaLine {
        LemmaLine::Cells(*self)
    }

    fn is_fit(&self, _agents: &[u32]) -> bool {
        true
    }

    fn is_before(&self, next: &JointCell) -> bool {
        cells_place(self).is_before(&cells_place(next))
    }

    ghost transitive = { λ a b c. before_trans (cells_place a) (cells_place b) (cells_place c) };

    ghost apart = { λ a b e. Prim.cc };
}

/// The agents of a lemma by cases.
impl Listed for u32 {
    ghost line_of = { lines.Agent };

    ghost fits = { λ agents. FitsAnyhow };

    ghost precedes = { ◌<◌ };

    fn of_line(line: &LemmaLine) -> Option<u32> {
        match *line {
            LemmaLine::Agent(agent) => Some(agent),
            _ => None,
        }
    }

    fn to_line(&self) -> LemmaLine {
        LemmaLine::Agent(*self)
    }

    fn is_fit(&self, _agents: &[u32]) -> bool {
        true
    }

    fn is_before(&self, next: &u32) -> bool {
        *self < *next
    }

    ghost transitive = { λ a b c p q. Prim.omega (arith, p, q) };

    ghost apart = { λ a b e. Prim.cc };
}

/// The numbers of the lemmas that a leaf uses outside groups.
impl Listed for u64 {
    ghost line_of = { lines.Use };

    ghost fits = { λ agents. FitsAnyhow };

    ghost precedes = { ◌<◌ };

    fn of_line(line: &LemmaLine) -> Option<u64> {
        match *line {
            LemmaLine::Use(lemma) => Some(lemma),
            _ => None,
        }
    }

    fn to_line(&self) -> LemmaLine {
        LemmaLine::Use(*self)
    }

    fn is_fit(&self, _agents: &[u32]) -> bool {
        true
    }

    fn is_before(&self, next: &u64) -> bool {
        *self < *next
    }

    ghost transitive = { λ a b c p q. Prim.omega (arith, p, q) };

    ghost apart = { λ a b e. Prim.cc };
}

/// The uses of a group.
impl Listed for Use {
    ghost line_of = { lines.WeightedUse };

    ghost fits = { λ agents. FitsAnyhow };

    ghost precedes = { IsBeforeUse };

    fn of_line(line: &LemmaLine) -> Option<Use> {
        match *line {
            LemmaLine::WeightedUse(used) => Some(used),
            _ => None,
        }
    }

    fn to_line(&self) -> LemmaLine {
        LemmaLine::WeightedUse(*self)
    }

    fn is_fit(&self, _agents: &[u32]) -> bool {
        true
    }

    fn is_before(&self, next: &Use) -> bool {
        self.lemma < next.lemma
    }

    ghost transitive = { λ a b c p q. Prim.omega (arith, p, q) };

    ghost apart = { λ a b e. Prim.cc };
}
