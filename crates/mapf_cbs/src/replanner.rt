//! What the searches for one agent use one after another. The search over trees makes it once and hands it to each
//! child that it makes.
ghost use Rattle.std.specs.Prelude.{◌≡◌, [], IfOk};
ghost use Rattle.mapf_distance.specs.Tables.{AreMade};

use mapf_constraints::BarTable;
use mapf_distance::LazyTables;
use mapf_model::{OutOfMemory, Problem};
use mapf_spacetime::Workspace;
use std::alloc::Global;

/// What an agent is replanned with: the problem, the distances to goals made so far, and memory that each search uses
/// again. The memory is a table for the agent's constraints and a workspace; its contents have no meaning between
/// searches.
#[derive(Drop)]
pub struct Replanner<'a, B: BarTable> {
    pub problem: &'a Problem,
    pub tables: LazyTables,
    pub bars: B,
    pub workspace: Workspace,
}

impl<'a, B: BarTable> Replanner<'a, B> {
    /// Returns the replanner of a problem, with no distances made and memory that no search has used yet.
    pub fn of(alloc: Global, problem: &'a Problem) -> Result<Replanner<'a, B>, OutOfMemory>
        ensures problem { IfOk result (λ replanner. replanner.problem.now ≡ problem.now) }
        ensures tables { IfOk result (λ replanner. AreMade problem.now replanner.tables) }
        ensures bars { IfOk result (λ replanner. B.bars replanner.bars ≡ []) }
    {
        Ok(Replanner {
            problem,
            tables: LazyTables::of(alloc, problem)?,
            bars: B::empty(alloc),
            workspace: Workspace::new(alloc),
        })
    }
}
