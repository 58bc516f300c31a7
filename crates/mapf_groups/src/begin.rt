//! Problems of which it is plain before any search that no plan is valid, and the certificate that shows it.
use mapf_distance::start_distances;
use mapf_lemma_texts::Part;
use mapf_model::{Agent, Cell, OutOfMemory, Problem, first_pair};
use mapf_tree_lemmas::{no_way, same_goal, same_start};
use std::alloc::Global;

/// Returns the parts of a certificate that shows that no plan is valid, if two agents have the same start or the same
/// goal, or an agent can't reach its goal.
pub fn impossible(alloc: Global, problem: &Problem) -> Result<Option<Vec<Part>>, OutOfMemory> {
    let agents = problem.agents();
    if let Some(pair) = alike(agents, End::Goal) {
        return Ok(Some(same_goal(alloc, pair)?));
    }
    if let Some((i, j)) = alike(agents, End::Start) {
        let start = agents.get(i as usize).map_or(Cell(0), |agent| agent.start);
        return Ok(Some(same_start(alloc, (i, j), start)?));
    }
    if start_distances(alloc, problem)?
        .iter()
        .any(|distance| distance.is_none())
    {
        return Ok(Some(no_way(alloc)?));
    }
    Ok(None)
}

// One of the two cells of an agent.
#[derive(Clone, Copy, Debug, PartialEq, Eq)]
enum End {
    Start,
    Goal,
}

impl End {
    fn of(self, agent: &Agent) -> Cell {
        match self {
            End::Start => agent.start,
            End::Goal => agent.goal,
        }
    }
}

// Returns the first two agents with the same start or the same goal.
fn alike(agents: &[Agent], end: End) -> Option<(u32, u32)> {
    let (i, j) = first_pair(agents.len(), |i, j| {
        match (agents.get(i), agents.get(j)) {
            (Some(first), Some(second)) => end.of(first) == end.of(second),
            _ => false,
        }
    })?;
    let i = u32::try_from(i).ok()?;
    let j = u32::try_from(j).ok()?;
    Some((i, j))
}
