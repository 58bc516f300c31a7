//! Whether the joint entries of a lemma of two agents are sound.
ghost use Rattle.std.specs.Prelude.{◌≡◌, ◌+◌, ◌≤◌, ◌↔◌, ℕ, All, IsTrue, IfErr, OnOk};
ghost use Rattle.mapf_model.specs.Limits.{greatest_cost};
ghost use Rattle.mapf_joint_labels.specs.Pairs.{AreMarks, HaveRoom, IsPair, IsSoundIn, IsUnsoundAt};

use crate::alone::{OnItsWay, is_sound_alone};
use crate::pair::{Pair, PairMarks, Side};
use crate::together::{OnTheWay, is_sound_together};
use mapf_lemmas::{JointCell, JointEntry, JointState};
use mapf_model::Tick;

/// Checks that the cells of each joint entry are free, and that it is sound. Returns the index of the first of which
/// this isn't so.
pub fn judge_joint_entries(pair: &Pair, marks: &mut PairMarks) -> Result<(), usize>
    requires pair { IsPair pair.now }
    requires room { HaveRoom pair.now marks.old }
    ensures ok { OnOk result (All (IsSoundIn pair.now) pair.now.joint.now) }
    ensures err { IfErr result (IsUnsoundAt pair.now) }
    ensures room { HaveRoom pair.now marks.new }
{
    begin(pair, marks);
    for k in 0..pair.joint.len() {
        let entry = &pair.joint[k];
        advance(pair, marks, entry.tick + 1);
        if !is_sound(pair, marks, entry) {
            return Err(k);
        }
    }
    Ok(())
}

// Marks the entries of tick 0.
fn begin(pair: &Pair, marks: &mut PairMarks)
    requires pair { IsPair pair.now }
    requires room { HaveRoom pair.now marks.old }
    ensures marks { AreMarks pair.now marks.new 0 }
    ensures room { HaveRoom pair.now marks.new }
{
    marks.first.begin(pair.first);
    marks.second.begin(pair.second);
    marks.joint.mark(pair.joint, 0);
}

// Marks the entries of this tick, in place of those of the marks' tick, which is not later.
fn advance(pair: &Pair, marks: &mut PairMarks, tick: Tick)
    requires pair { IsPair pair.now }
    requires marks { AreMarks pair.now marks.old marks.old.joint.tick }
    requires room { HaveRoom pair.now marks.old }
    requires later { marks.old.joint.tick ≤ tick }
    ensures marks { AreMarks pair.now marks.new tick }
    ensures room { HaveRoom pair.now marks.new }
{
    if marks.joint.tick() < tick {
        marks.first.advance(pair.first, tick);
        marks.second.advance(pair.second, tick);
        marks.joint.mark(pair.joint, tick);
    }
}

// Returns whether the cells of the entry are free, and the entry is sound. The entries one tick later are marked.
fn is_sound(pair: &Pair, marks: &PairMarks, entry: &JointEntry) -> bool
    requires pair { IsPair pair.now }
    requires marks { AreMarks pair.now marks.now (entry.now.tick + 1) }
    requires tick { entry.now.tick ≤ greatest_cost }
    ensures { IsTrue result ↔ IsSoundIn pair.now entry.now }
{
    let tick = entry.tick;
    let label = entry.label;
    match entry.state {
        JointState::Both { first, second } => {
            let cells = JointCell { first, second };
            is_sound_together(pair, marks, &OnTheWay { cells, tick, label })
        }
        JointState::FirstAlone { first: cell } => {
            is_sound_alone(pair, Side::First, &OnItsWay { cell, tick, label })
        }
        JointState::SecondAlone { second: cell } => {
            is_sound_alone(pair, Side::Second, &OnItsWay { cell, tick, label })
        }
    }
}
