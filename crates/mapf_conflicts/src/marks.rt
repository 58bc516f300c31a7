//! The search for the first conflict with a mark for each cell. The search over trees calls it for each node that it
//! takes from the open list.
ghost use Rattle.std.specs.Prelude.{◌≡◌, ◌≤◌, ℕ, length, IfOk, IfNone, IfSome};
ghost use Rattle.mapf_model.specs.Conflicts.{tick_of, HasConflict, AreConflictFreeBefore, HaveSomeConflict};
ghost use Rattle.mapf_model.specs.Limits.{most_agents};
ghost use Rattle.mapf_conflicts.specs.Pairs.{paths_behind, AreOthersFreeBefore, IsFirstOfItsTick, IsOrdered};

use crate::first::first_among;
use crate::patched_paths::PatchedPaths;
use crate::path_list::PathList;
use mapf_model::{Conflict, OutOfMemory, Path, Tick};
use std::alloc::Global;
use std::marker::Model;

/// For each cell the agent that was marked there last. Marks are never cleared: a mark counts only if the agent that it
/// names is in the marked cell. So one value serves for every tick of every plan on a grid.
#[derive(Debug, Drop)]
pub struct CellMarks {
    // The number of an agent fits in a byte, as there are at most 200.
    agents: Vec<u8>,
}

impl Model for CellMarks {
    ghost Value = { ℕ };

    ghost view = { λ marks. length marks.agents.items };
}

impl CellMarks {
    /// Returns marks for the cells below this number.
    pub fn new(alloc: Global, cells: usize) -> Result<CellMarks, OutOfMemory>
        ensures { IfOk result (λ marks. marks ≡ cells) }
    {
        Ok(CellMarks {
            agents: vec![in alloc; 0; cells]?,
        })
    }
}

/// Returns the first conflict of these paths, in the order of `first_conflict`. A tick takes time linear in the number
/// of agents if each cell has a mark.
pub fn first_conflict_in(marks: &mut CellMarks, paths: &[&Path]) -> Option<Conflict>
    requires { length paths.now ≤ most_agents }
    // A conflict that is returned is one of the plan.
    ensures some { IfSome result (HasConflict (paths_behind paths.now)) }
    // No two agents conflict at an earlier tick.
    ensures first { IfSome result (λ conflict. AreConflictFreeBefore (paths_behind paths.now) (tick_of conflict)) }
    // Its first agent has the smaller number.
    ensures ordered { IfSome result IsOrdered }
    // It is the first of its tick: vertex conflicts come before swapping ones, then the agents' numbers decide.
    ensures least { IfSome result (IsFirstOfItsTick (paths_behind paths.now)) }
    // No conflict is returned only if no two agents conflict at any tick.
    ensures none { IfNone result (HaveSomeConflict (paths_behind paths.now) → ⊥) }
    // The marks are for the same cells afterwards.
    ensures marks { marks.new ≡ marks.old }
{
    first_among(&mut marks.agents, &PathList::of(paths), 0, 0)
}

/// Returns the first conflict of these paths, in the order of `first_conflict`. Before the tick `free` no two agents
/// other than this one conflict, as when only this agent was replanned after a plan without conflicts before that tick.
/// At such a tick the others are compared with each other only if this agent conflicts with one of them.
pub fn first_conflict_after_replanning(
    marks: &mut CellMarks,
    paths: &PatchedPaths,
    agent: u32,
    free: Tick,
) -> Option<Conflict>
    requires few { length paths.now ≤ most_agents }
    requires others { AreOthersFreeBefore paths.now agent free }
    // A conflict that is returned is one of the plan.
    ensures some { IfSome result (HasConflict paths.now) }
    // No two agents conflict at an earlier tick.
    ensures first { IfSome result (λ conflict. AreConflictFreeBefore paths.now (tick_of conflict)) }
    // Its first agent has the smaller number.
    ensures ordered { IfSome result IsOrdered }
    // It is the first of its tick: vertex conflicts come before swapping ones, then the agents' numbers decide.
    ensures least { IfSome result (IsFirstOfItsTick paths.now) }
    // No conflict is returned only if no two agents conflict at any tick.
    ensures none { IfNone result (HaveSomeConflict paths.now → ⊥) }
    // The marks are for the same cells afterwards.
    ensures marks { marks.new ≡ marks.old }
{
    first_among(&mut marks.agents, paths, agent, free)
}
