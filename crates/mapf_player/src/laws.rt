//! What follows from the definitions of played texts, visits and replies, as laws. No code calls them; they are there
//! to be read.
ghost use Rattle.mapf_player.specs.Cycles.{FullCyclesStay};
ghost use Rattle.mapf_player.specs.DispatchLaws.{CellsAreAPrefix, NobodyEntersAnOccupiedCell, NoTwoAgentsMeet};
ghost use Rattle.mapf_player.specs.DispatchLaws.{EveryAgentIsAnswered, ProgressStaysInOrder, RepliesAreOne};
ghost use Rattle.mapf_player.specs.DispatchLaws.{ReplyTextsAreOne};
ghost use Rattle.mapf_player.specs.Events.{SpellsOneListOfEvents};
ghost use Rattle.mapf_player.specs.Following.{FollowersAreSafe};
ghost use Rattle.mapf_player.specs.Visits.{VisitsAreOne};
ghost use Rattle.mapf_player.specs.Play.{AgentsAreSeen, TerrainIsSeen, PlaysAreOne};

/// A plan has at most one played text.
pub fn plays_are_one()
    ensures { PlaysAreOne }
{}

/// In a played text each cell shows the agent that is in it.
pub fn cells_are_seen()
    // In a valid plan each agent is seen where it is.
    ensures agents { AgentsAreSeen }
    // Elsewhere the terrain is seen.
    ensures terrain { TerrainIsSeen }
{}

/// A path has at most one list of visits.
pub fn visits_are_one()
    ensures { VisitsAreOne }
{}

/// Agents that follow a valid plan are never in one cell, in whatever order and however often they ask.
pub fn agents_stay_apart()
    // They keep the order in which the plan visits each cell. A move is instantaneous.
    ensures order { ProgressStaysInOrder }
    // No two are in one cell.
    ensures apart { NoTwoAgentsMeet }
    // No reply sends an agent into a cell in which another is.
    ensures free { NobodyEntersAnOccupiedCell }
{}

/// Agents that stand in full cycles wait for ever.
pub fn full_cycles_stay()
    ensures { FullCyclesStay }
{}

/// Whatever lines come while agents follow a valid plan, no two are ever in one cell, and each enters the cells of its
/// visits in their order.
pub fn followers_are_safe()
    ensures { FollowersAreSafe }
{}

/// The cells in which an agent was are those of its visits so far.
pub fn cells_are_a_prefix()
    ensures { CellsAreAPrefix }
{}

/// Every agent that asks gets exactly one reply.
pub fn replies_are_one()
    // It gets one.
    ensures some { EveryAgentIsAnswered }
    // It gets only one.
    ensures one { RepliesAreOne }
    // The replies to a list of agents that ask are at most one text.
    ensures text { ReplyTextsAreOne }
{}

/// An event text spells at most one list of events.
pub fn events_are_spelled_apart()
    ensures { SpellsOneListOfEvents }
{}
