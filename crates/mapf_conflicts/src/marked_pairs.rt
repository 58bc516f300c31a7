//! The first pair of agents in conflict at a tick, found by marks. The search for the first conflict tries this before
//! the scan over pairs.
ghost use Rattle.std.specs.Prelude.{◌≡◌, ◌≤◌, length, IfNone, IfOk, IfSome};
ghost use Rattle.mapf_model.specs.Limits.{most_agents};
ghost use Rattle.mapf_model.specs.Pairs.{IsFirstPair, HoldsOfNoPair};
ghost use Rattle.mapf_conflicts.specs.Pairs.{ArePlaced, ShareCell, ExchangeCells};

use mapf_model::Cell;

/// Some cell has no mark.
pub struct Unmarked;

/// Marks the agents' cells, and returns the first two agents that are in one cell. If there are none, each agent's cell
/// is marked with this agent.
pub fn marked_sharing_pair(
    marks: &mut [u8],
    here: &[Cell],
) -> Result<Option<(usize, usize)>, Unmarked>
    requires { length here.now ≤ most_agents }
    ensures some { IfOk result (λ found. IfSome found (IsFirstPair (ShareCell here.now) (length here.now))) }
    ensures none { IfOk result (λ found. IfNone found (HoldsOfNoPair (ShareCell here.now) (length here.now))) }
    ensures placed { IfOk result (λ found. IfNone found (ArePlaced marks.new here.now)) }
{
    let mut first = None;
    // From the last agent to the first, so that the mark of a cell is the least agent there so far.
    let mut i = here.len();
    while i > 0 {
        i -= 1;
        let cell = &here[i];
        let place = cell.0 as usize;
        if place >= marks.len() {
            return Err(Unmarked);
        }
        let other = marks[place] as usize;
        if other > i && other < here.len() && here[other] == *cell {
            first = Some((i, other));
        }
        marks[place] = i as u8;
    }
    Ok(first)
}

/// Returns the first two agents that go to each other's cells, if each agent's cell is marked with this agent.
pub fn marked_exchanging_pair(
    marks: &[u8],
    here: &[Cell],
    next: &[Cell],
) -> Result<Option<(usize, usize)>, Unmarked>
    requires size { length next.now ≡ length here.now }
    requires placed { ArePlaced marks.now here.now }
    ensures some { IfOk result (λ found.
        IfSome found (IsFirstPair (ExchangeCells here.now next.now) (length here.now))) }
    ensures none { IfOk result (λ found.
        IfNone found (HoldsOfNoPair (ExchangeCells here.now next.now) (length here.now))) }
{
    for (i, cell) in next.iter().enumerate() {
        let place = cell.0 as usize;
        if place >= marks.len() {
            return Err(Unmarked);
        }
        let other = marks[place] as usize;
        if other > i && other < here.len() && here[other] == *cell && next[other] == here[i] {
            return Ok(Some((i, other)));
        }
    }
    Ok(None)
}
