//! Which agents stand in full cycles, and the line that says so. The follower answers a request for the status by it.
ghost use Rattle.std.specs.Prelude.{◌≡◌, ◌<◌, ◌≤◌, ◌+◌, ◌++◌, ◌↔◌, ℕ, List, IsTrue, length};
ghost use Rattle.mapf_fields.specs.Pages.{page_room};
ghost use Rattle.mapf_player.specs.Cycles.{AreInCycles, IsInCycle, cycle_line};
ghost use Rattle.mapf_player.specs.Following.{answer_room};

use crate::dispatch::Dispatch;
use mapf_fields::Page;

// Returns whether the agent stands in a full cycle. Whoever is held is held by one agent, so those that hold each other
// are gone through one after another; in a cycle this leads back in at most as many steps as there are agents.
fn is_in_cycle(dispatch: &Dispatch, agent: u32) -> bool
    requires { agent < length dispatch.now.numbers }
    ensures { IsTrue result ↔ IsInCycle dispatch.now agent }
{
    let mut last = agent;
    for _step in 0..dispatch.agents() {
        let Some(next) = dispatch.holder(last) else {
            return false;
        };
        if next == agent {
            return true;
        }
        last = next;
    }
    false
}

/// Adds the line that names the agents that stand in full cycles, for which there has to be room: `cycle`, and then a
/// blank and the number of each, from the least on.
pub fn push_cycles(page: &mut Page, dispatch: &Dispatch)
    requires { length page.old + answer_room ≤ page_room }
    ensures { (agents : List ℕ) × AreInCycles dispatch.now agents × (page.new ≡ page.old ++ cycle_line agents) }
{
    page.push_bytes(b"cycle");
    for agent in 0..dispatch.agents() {
        if is_in_cycle(dispatch, agent) {
            page.push_field(b' ', u64::from(agent));
        }
    }
    page.push_byte(b'\n');
}
