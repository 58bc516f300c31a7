//! The judge of the uses of lemmas outside groups. The judge of a leaf calls it.
ghost use Rattle.std.specs.Prelude.{◌≡◌, ◌≤◌, ◌<◌, [], All, IfErr, IfNone, IfSome, OnOk, length};
ghost use Rattle.mapf_cases.specs.Floors.{CoverAgents, AreFloors, agents_of};
ghost use Rattle.mapf_cases.specs.Places.{AreSingles, IsFirstBadSingle, IsSingle, IsBadAlone, place_of};
ghost use Rattle.mapf_cases.specs.Ranges.{IsStatementInRange, greatest_counted, greatest_unit};
ghost use Rattle.mapf_lemmas.specs.Groups.{ticks_of};

use crate::floors::Floors;
use crate::known::{LeafList, LeafProblem, counted, usable};
use mapf_lemmas::Amount;

/// What a lemma of one agent says of it.
#[derive(Clone, Copy)]
pub struct Single {
    pub agent: u32,
    /// What the agent costs at least, in units of the leaf's price list.
    pub counted: Amount,
}

/// Checks that a leaf with this price list may name these lemmas outside groups, and sets the floors of their agents.
/// Returns the index of the first lemma that it mustn't name.
pub fn judge_singles(
    leaf: &LeafProblem,
    list: LeafList,
    singles: &[u64],
    floors: &mut Floors,
) -> Result<(), usize>
    requires known { All IsStatementInRange leaf.now.known.now }
    requires agents { All (λ agent. agent < length leaf.now.start_distances.now) leaf.now.agents.now }
    requires unit { list.unit ≤ greatest_unit }
    requires cover { CoverAgents (length leaf.now.start_distances.now) floors.old }
    requires floors { AreFloors leaf.now.known.now list.unit leaf.now.start_distances.now [] leaf.now.agents.now
        floors.old }
    ensures singles { OnOk result (AreSingles (place_of leaf.now) list.list_number singles.now) }
    ensures floors { OnOk result (AreFloors leaf.now.known.now list.unit leaf.now.start_distances.now singles.now
        leaf.now.agents.now floors.new) }
    ensures cover { CoverAgents (length leaf.now.start_distances.now) floors.new }
    ensures bad { IfErr result (IsFirstBadSingle (place_of leaf.now) list.list_number singles.now) }
{
    for k in 0..singles.len() {
        let Some(single) = single_of(leaf, list, singles[k]) else {
            return Err(k);
        };
        if !floors.set(single.agent, single.counted) {
            return Err(k);
        }
    }
    Ok(())
}

// Returns what the lemma with this number says of its agent if the leaf may use it outside groups.
fn single_of(leaf: &LeafProblem, list: LeafList, lemma: u64) -> Option<Single>
    requires known { All IsStatementInRange leaf.now.known.now }
    requires unit { list.unit ≤ greatest_unit }
    ensures some { IfSome result (IsSingle (place_of leaf.now) list.list_number list.unit lemma) }
    ensures small { IfSome result (λ single. ticks_of single.counted ≤ greatest_counted) }
    ensures none { IfNone result (IsBadAlone (place_of leaf.now) list.list_number lemma) }
{
    let statement = usable(leaf, list.list_number, lemma)?;
    if statement.agents.len() != 1 {
        return None;
    }
    Some(Single {
        agent: statement.agents[0],
        counted: counted(statement, list.unit),
    })
}
