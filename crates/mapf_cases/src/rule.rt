//! Constraints of one agent in an order, in which the index of standing constraints finds them.
ghost use Rattle.std.specs.Prelude.{◌≡◌, ◌↔◌, IsTrue};
ghost use Rattle.mapf_lemmas.specs.Statements.{Meets};

use mapf_lemmas::PathConstraint;
use mapf_model::{Cell, Tick};

/// A constraint of one agent. Those of one kind follow each other, by cell and then by tick.
#[derive(Clone, Copy, Debug, PartialEq, Eq, PartialOrd, Ord)]
pub enum Rule {
    NotAt { cell: Cell, tick: Tick },
    NotMove { from: Cell, to: Cell, tick: Tick },
    Clear { cell: Cell, tick: Tick },
    Most { ticks: u32 },
    Least { ticks: u32 },
}

impl Rule {
    ghost use Rattle.mapf_lemmas.specs.declared.constraint.PathConstraint.TheVariants.{NotAt, NotMove, Clear};
    ghost use Rattle.mapf_lemmas.specs.declared.constraint.PathConstraint.TheVariants.{Most, Least};
    ghost use Rattle.mapf_cases.specs.Rules.{constraint_of, first_of_kind, first_of_other_kind};

    /// Returns the constraint as a rule.
    pub fn of(constraint: &PathConstraint) -> Rule
        ensures { constraint_of result ≡ constraint.now }
    {
        match *constraint {
            PathConstraint::NotAt { cell, tick } => Rule::NotAt { cell, tick },
            PathConstraint::NotMove { from, to, tick } => Rule::NotMove { from, to, tick },
            PathConstraint::Clear { cell, tick } => Rule::Clear { cell, tick },
            PathConstraint::Most { ticks } => Rule::Most { ticks },
            PathConstraint::Least { ticks } => Rule::Least { ticks },
        }
    }

    /// Returns whether this rule meets the needed one: it is the same, or a greater `Least`, a smaller `Most`, an
    /// earlier `Clear` of the cell, or for `NotAt` a `Clear` of the cell from that tick or an earlier one on.
    pub fn stands_for(&self, needed: &Rule) -> bool
        ensures { IsTrue result ↔ Meets (constraint_of self.now) (constraint_of needed.now) }
    {
        match *needed {
            Rule::NotAt { cell, tick } => self.stands_for_not_at(cell, tick),
            Rule::NotMove { from, to, tick } => self.stands_for_not_move(from, to, tick),
            Rule::Clear { cell, tick } => self.stands_for_clear(cell, tick),
            Rule::Most { ticks } => self.stands_for_most(ticks),
            Rule::Least { ticks } => self.stands_for_least(ticks),
        }
    }

    fn stands_for_not_at(&self, cell: Cell, tick: Tick) -> bool
        ensures { IsTrue result ↔ Meets (constraint_of self.now) (NotAt cell tick) }
    {
        match *self {
            Rule::NotAt {
                cell: there,
                tick: now,
            } => there == cell && now == tick,
            Rule::Clear {
                cell: there,
                tick: from,
            } => there == cell && from <= tick,
            _ => false,
        }
    }

    fn stands_for_not_move(&self, from: Cell, to: Cell, tick: Tick) -> bool
        ensures { IsTrue result ↔ Meets (constraint_of self.now) (NotMove from to tick) }
    {
        match *self {
            Rule::NotMove {
                from: a,
                to: b,
                tick: now,
            } => a == from && b == to && now == tick,
            _ => false,
        }
    }

    fn stands_for_clear(&self, cell: Cell, tick: Tick) -> bool
        ensures { IsTrue result ↔ Meets (constraint_of self.now) (Clear cell tick) }
    {
        match *self {
            Rule::Clear {
                cell: there,
                tick: from,
            } => there == cell && from <= tick,
            _ => false,
        }
    }

    fn stands_for_most(&self, ticks: u32) -> bool
        ensures { IsTrue result ↔ Meets (constraint_of self.now) (Most ticks) }
    {
        match *self {
            Rule::Most { ticks: less } => less <= ticks,
            _ => false,
        }
    }

    fn stands_for_least(&self, ticks: u32) -> bool
        ensures { IsTrue result ↔ Meets (constraint_of self.now) (Least ticks) }
    {
        match *self {
            Rule::Least { ticks: more } => ticks <= more,
            _ => false,
        }
    }

    /// Returns the first rule of its kind that can serve for this one.
    pub fn first_of_kind(&self) -> Rule
        ensures { result ≡ first_of_kind self.now }
    {
        match *self {
            Rule::Clear { cell, .. } => Rule::Clear { cell, tick: 0 },
            Rule::Most { .. } => Rule::Most { ticks: 0 },
            Rule::NotAt { .. } | Rule::NotMove { .. } | Rule::Least { .. } => *self,
        }
    }

    /// Returns the first rule of another kind that can serve for this one, if there is such a kind.
    pub fn first_of_other_kind(&self) -> Option<Rule>
        ensures { result ≡ first_of_other_kind self.now }
    {
        match *self {
            Rule::NotAt { cell, .. } => Some(Rule::Clear { cell, tick: 0 }),
            _ => None,
        }
    }
}
