//! How the runs read their inputs: any text as a whole, and the problem of a map and a scenario.
ghost use Rattle.std.specs.Prelude.{◌≡◌, ◌≤◌, ◌⊎◌, false, true, Ok, IfOk, IfErr, OnOk, IfSome, IsSome, IsErrOf};
ghost use Rattle.std.specs.Result.{IsErrAnd};
ghost use Rattle.mapf_app.specs.Faults.{HasNoInnerMemory, IsOfInput, IsOfMap, IsReadingMap, IsReadingAgents, IsReading};
ghost use Rattle.mapf_app.specs.Faults.{fault_of_map, fault_of_scenario};
ghost use Rattle.mapf_app.specs.Order.{HasReadGrid, HasReadProblem, IsReadWhole};
ghost use Rattle.mapf_app.specs.Problems.{IsPosed, SpellsGrid, SpellsAgents, SpellsProblem};
ghost use Rattle.mapf_app.specs.Runs.{ReportsSource, ReportsLaterSource, IsUnreadable};
ghost use Rattle.mapf_model.specs.Grid.{GridMap};
ghost use Rattle.mapf_model.specs.Limits.{most_agents, most_text_bytes};
ghost use Rattle.mapf_model.specs.Plan.{Instance};

use crate::fault::{Fault, Input};
use mapf_model::limits::MOST_TEXT_BYTES;
use mapf_model::{Grid, Problem, ReadEnd, Source, read_all};
use mapf_text::{MapFault, ScenFault, read_map, read_scen};
use std::alloc::Global;

/// Returns all bytes that the source of a text gives.
pub fn read_text<S: Source>(alloc: Global, source: &mut S, input: Input) -> Result<Vec<u8>, Fault>
    requires { S.has_failed source.old ≡ false }
    ensures whole { IfOk result (λ text. IfSome (S.remaining source.old) (λ bytes. text.items ≡ bytes)) }
    ensures read { OnOk result
        (IsReadWhole (S.has_failed source.new) (S.remaining source.old) (S.remaining source.new)) }
    ensures fault { IfErr result (λ fault. (fault ≡ Fault.F4 input) ⊎ (fault ≡ Fault.F6)) }
    ensures failed { S.has_failed source.new ≡ true → IsErrOf result (Fault.F4 input) }
    ensures unreadable { IsErrOf result (Fault.F4 input) →
        IsUnreadable (S.has_failed source.new) (S.remaining source.old) (S.remaining source.new) most_text_bytes }
{
    match read_all(alloc, source, MOST_TEXT_BYTES) {
        Ok(text) => Ok(text),
        Err(ReadEnd::Memory) => Err(Fault::F6),
        Err(_) => Err(Fault::F4(input)),
    }
}

// Returns a map's error as an error of a run.
fn fault_of_map(fault: MapFault) -> Fault
    ensures { result ≡ fault_of_map fault }
{
    match fault {
        MapFault::Memory => Fault::F6,
        _ => Fault::F1(fault),
    }
}

// Returns a scenario's error as an error of a run.
fn fault_of_scenario(fault: ScenFault) -> Fault
    ensures { result ≡ fault_of_scenario fault }
{
    match fault {
        ScenFault::Memory => Fault::F6,
        _ => Fault::F2(fault),
    }
}

// Reads the grid that a map spells.
fn read_grid<M: Source>(alloc: Global, map: &mut M) -> Result<Grid, Fault>
    requires { M.has_failed map.old ≡ false }
    ensures found { IfOk result (SpellsGrid (M.remaining map.old)) }
    ensures read { OnOk result (HasReadGrid (M.has_failed map.new) (M.remaining map.old) (M.remaining map.new)) }
    ensures only { (grid : GridMap) → IsSome (M.remaining map.old) → SpellsGrid (M.remaining map.old) grid →
        (result ≡ Ok grid) ⊎ IsErrAnd result IsOfInput }
    ensures fault { IfErr result (IsReadingMap (M.remaining map.old)) }
    ensures failed { M.has_failed map.new ≡ true → IsErrOf result (Fault.F4 Input.Map) }
    ensures unreadable { IsErrOf result (Fault.F4 Input.Map) →
        IsUnreadable (M.has_failed map.new) (M.remaining map.old) (M.remaining map.new) most_text_bytes }
{
    let text = read_text(alloc, map, Input::Map)?;
    match read_map(alloc, text.as_slice()) {
        Ok(grid) => Ok(grid),
        Err(fault) => Err(fault_of_map(fault)),
    }
}

// Reads the problem of the `k` agents that a scenario spells on the grid.
fn read_agents<S: Source>(alloc: Global, scen: &mut S, grid: Grid, k: u32) -> Result<Problem, Fault>
    requires works { S.has_failed scen.old ≡ false }
    requires some { 1 ≤ k }
    requires few { k ≤ most_agents }
    ensures found { IfOk result (SpellsAgents (S.remaining scen.old) grid k) }
    ensures posed { IfOk result (IsPosed k) }
    ensures read { OnOk result (IsReadWhole (S.has_failed scen.new) (S.remaining scen.old) (S.remaining scen.new)) }
    ensures on_grid { IfOk result (λ problem. problem.grid ≡ grid) }
    ensures only { (problem : Instance) → IsSome (S.remaining scen.old) →
        SpellsAgents (S.remaining scen.old) grid k problem →
        (result ≡ Ok problem) ⊎ IsErrAnd result IsOfInput }
    ensures fault { IfErr result (IsReadingAgents (S.remaining scen.old) grid k) }
    ensures failed { S.has_failed scen.new ≡ true → IsErrOf result (Fault.F4 Input.Scen) }
    ensures unreadable { IsErrOf result (Fault.F4 Input.Scen) →
        IsUnreadable (S.has_failed scen.new) (S.remaining scen.old) (S.remaining scen.new) most_text_bytes }
{
    let text = read_text(alloc, scen, Input::Scen)?;
    match read_scen(alloc, text.as_slice(), grid, k) {
        Ok(problem) => Ok(problem),
        Err(fault) => Err(fault_of_scenario(fault)),
    }
}

/// Returns the problem that a map and a scenario spell. The scenario is read only after the map was accepted.
pub fn read_problem<M: Source, S: Source>(
    alloc: Global,
    map: &mut M,
    scen: &mut S,
    k: u32,
) -> Result<Problem, Fault>
    requires works { (M.has_failed map.old ≡ false) × (S.has_failed scen.old ≡ false) }
    requires range { (1 ≤ k) × (k ≤ most_agents) }
    // If a problem is returned, the map and the scenario spell it.
    ensures found { IfOk result (SpellsProblem (M.remaining map.old) (S.remaining scen.old) k) }
    ensures posed { IfOk result (IsPosed k) }
    // A problem that they spell is returned, unless a device fails, an input is too long or memory runs out.
    ensures only { (problem : Instance) → IsSome (M.remaining map.old) → IsSome (S.remaining scen.old) →
        SpellsProblem (M.remaining map.old) (S.remaining scen.old) k problem →
        (result ≡ Ok problem) ⊎ IsErrAnd result IsOfInput }
    // Each reported error is one that the inputs have, and its location is correct.
    ensures fault { IfErr result (IsReading (M.remaining map.old) (S.remaining scen.old) k) }
    // Out of memory is `F6`, and inside no other error.
    ensures inner { IfErr result HasNoInnerMemory }
    // An error of a source is reported only if the source failed or gave more bytes than its limit, and always if the
    // source failed. No input with more bytes than its limit is accepted. The scenario is read only after the map was
    // read whole and accepted.
    ensures map { ReportsSource result Input.Map most_text_bytes
        (M.has_failed map.new) (M.remaining map.old) (M.remaining map.new) }
    ensures scen { ReportsLaterSource result Input.Scen most_text_bytes
        (S.has_failed scen.new) (S.remaining scen.old) (S.remaining scen.new) (scen.new ≡ scen.old)
        IsOfMap (HasReadGrid (M.has_failed map.new) (M.remaining map.old) (M.remaining map.new)) }
    // Both are read whole, and neither has more bytes than the limit.
    ensures whole { OnOk result (HasReadProblem (M.has_failed map.new) (M.remaining map.old) (M.remaining map.new)
        (S.has_failed scen.new) (S.remaining scen.old) (S.remaining scen.new) k) }
{
    let grid = read_grid(alloc, map)?;
    read_agents(alloc, scen, grid, k)
}
