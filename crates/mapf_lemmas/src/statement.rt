//! What a lemma says.
ghost use Rattle.mapf_lemmas.specs.Statements.{Statement};

use crate::amount::Amount;
use crate::constraint::AgentConstraint;
use std::marker::Model;

/// The statement of a lemma: in every valid plan whose paths satisfy the constraints the priced costs of the agents, by
/// the price list of this number or without a list, add up to at least the bound.
#[derive(Debug, Drop)]
pub struct Statement {
    pub agents: Vec<u32>,
    pub constraints: Vec<AgentConstraint>,
    pub list_number: Option<u64>,
    pub bound: Amount,
}

impl Model for Statement {
    ghost Value = { Statement };

    ghost view = { λ s. record {
      agents = s.agents.items;
      constraints = s.constraints.items;
      list_number = s.list_number;
      bound = s.bound;
    } };
}
