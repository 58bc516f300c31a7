//! The judge of the constraints of a lemma (rule 1). The judges of lemmas call it.
ghost use Rattle.std.specs.Prelude.{OnOk, IfErr};
ghost use Rattle.mapf_lemmas.specs.Lemmas.{AreConstraintsOn};
ghost use Rattle.mapf_lemma_checker.specs.Faults.{IsRefusedFor};

use crate::fault::{LemmaFault, LemmaRefusal};
use mapf_lemmas::AgentConstraint;
use mapf_model::Grid;
use mapf_single_labels::is_constraint_on;

/// Checks that the cells of the constraints, of which the first stands in this line, are free, and adjacent if there
/// are two.
pub fn judge_constraints(
    grid: &Grid,
    constraints: &[AgentConstraint],
    line: u64,
) -> Result<(), LemmaFault>
    ensures ok { OnOk result (AreConstraintsOn grid.now constraints.now) }
    ensures refused { IfErr result (IsRefusedFor (AreConstraintsOn grid.now constraints.now → ⊥)) }
{
    for (k, own) in constraints.iter().enumerate() {
        if !is_constraint_on(grid, &own.constraint) {
            return Err(LemmaFault::Refused(LemmaRefusal::C10(line_at(line, k))));
        }
    }
    Ok(())
}

/// Returns the line of what stands so many lines after this line.
pub fn line_at(line: u64, place: usize) -> u64 {
    line.saturating_add(place as u64)
}
