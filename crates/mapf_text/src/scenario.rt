//! The reader of scenarios. Each run that reads a problem calls it after the reader of maps.
ghost use Rattle.std.specs.Prelude.{◌≡◌, ◌⊎◌, ◌↔◌, ℕ, ◌≤◌, List, [], ◌∷◌, IsTrue, length};
ghost use Rattle.std.specs.Prelude.{Ok, Err, IfOk, IfErr, MatchOption, MatchResult};
ghost use Rattle.mapf_model.specs.Limits.{most_agents};
ghost use Rattle.mapf_model.specs.Plan.{Instance, IsInstance};
ghost use Rattle.mapf_text.specs.Scenarios.{filled_lines, IsVersionLine, AfterVersion, HasAgents};
ghost use Rattle.mapf_text.specs.Scenarios.{SpellsScenario, HasRowsFault, HasScenarioFault};

use crate::agent_row::read_row;
use crate::line::next_line;
use crate::scenario_fault::ScenFault;
use crate::word::{is_blank_line, two_words};
use mapf_model::{Agent, Grid, Problem};
use std::alloc::Global;

/// Reads a scenario text on a grid: the line `version 1` or `version 1.0`, then a row for each of the `k` agents. Blank
/// lines are skipped, and what follows the last of these rows is not read.
///
/// After an error the grid is dropped.
pub fn read_scen(alloc: Global, bytes: &[u8], grid: Grid, k: u32) -> Result<Problem, ScenFault>
    requires { (1 ≤ k) × (k ≤ most_agents) }
    // If a problem is returned, the bytes spell it.
    ensures found { IfOk result (SpellsScenario bytes.now grid k) }
    // A problem that the bytes spell is returned, unless memory runs out.
    ensures only { (problem : Instance) → SpellsScenario bytes.now grid k problem
        → (result ≡ Ok problem) ⊎ (result ≡ Err ScenFault.Memory) }
    // The lines before the reported location are correct, and the error is there.
    ensures fault { IfErr result (HasScenarioFault grid (filled_lines bytes.now) k) }
    // There are `k` agents, 1 to 200, whose starts and goals are free cells.
    ensures problem { IfOk result IsInstance }
    ensures count { IfOk result (λ problem. length problem.agents ≡ k) }
{
    problem_of(alloc, bytes, grid, k)
}

fn problem_of(alloc: Global, bytes: &[u8], grid: Grid, k: u32) -> Result<Problem, ScenFault>
    requires { (1 ≤ k) × (k ≤ most_agents) }
    ensures cases { MatchResult result (SpellsScenario bytes.now grid k)
        (HasScenarioFault grid (filled_lines bytes.now) k) }
    ensures problem { IfOk result IsInstance }
{
    let Some(rows) = after_version(bytes) else {
        return Err(ScenFault::S1);
    };
    let agents = read_agents(alloc, rows, &grid, k)?;
    Ok(Problem::of(grid, agents).unwrap())
}

// Returns the text after the version line.
fn after_version(text: &[u8]) -> Option<&[u8]>
    ensures { MatchOption result ((rows : List (List ℕ)) → AfterVersion (filled_lines text.now) rows → ⊥)
        (λ rows. AfterVersion (filled_lines text.now) (filled_lines rows.now)) }
{
    let (line, rest) = next_filled_line(text)?;
    if is_version_line(line) {
        Some(rest)
    } else {
        None
    }
}

fn is_version_line(line: &[u8]) -> bool
    ensures { IsTrue result ↔ IsVersionLine line.now }
{
    let Some((first, second)) = two_words(line) else {
        return false;
    };
    first == b"version".as_slice() && (second == b"1".as_slice() || second == b"1.0".as_slice())
}

// Returns the first line that isn't blank, and the text after it.
fn next_filled_line(text: &[u8]) -> Option<(&[u8], &[u8])>
    ensures { MatchOption result (filled_lines text.now ≡ [])
        (λ p. filled_lines text.now ≡ p.0.now ∷ filled_lines p.1.now) }
{
    let mut rest = text;
    while let Some((line, more)) = next_line(rest) {
        if !is_blank_line(line) {
            return Some((line, more));
        }
        rest = more;
    }
    None
}

fn read_agents(alloc: Global, text: &[u8], grid: &Grid, k: u32) -> Result<Vec<Agent>, ScenFault>
    ensures { MatchResult result (λ agents. HasAgents grid.now (filled_lines text.now) k agents.items)
        (HasRowsFault grid.now (filled_lines text.now) k) }
{
    let Ok(mut agents) = Vec::with_capacity(alloc, k as usize) else {
        return Err(ScenFault::Memory);
    };
    let mut rest = text;
    for row in 0..k {
        let Some((line, more)) = next_filled_line(rest) else {
            return Err(ScenFault::S7 { rows: row });
        };
        agents.push_reserved(read_row(line, grid, row)?);
        rest = more;
    }
    Ok(agents)
}
