//! The joint entries of a lemma about two agents.
use crate::joint_states::{ARRIVED, Joint};
use crate::pair_finder::PairFinder;
use crate::pair_task::PairTask;
use crate::rounds::Round;
use mapf_lemmas::{Amount, JointEntry, JointState};
use mapf_model::{Cell, OutOfMemory, Tick};
use std::alloc::Global;

impl PairFinder {
    /// Returns the joint entries by which the two agents cost at least `bound` together, if they do: each joint state that
    /// can be reached with a value below the bound, and what is left there to the bound. They are in the order of a
    /// certificate.
    pub fn entries(
        &mut self,
        alloc: Global,
        task: &PairTask,
        bound: u32,
    ) -> Result<Vec<JointEntry>, OutOfMemory> {
        for value in self.begin(task)?..bound {
            let round = self.round(alloc, task, value, usize::MAX)?;
            if matches!(round, Round::Arrived(_)) || self.joints.is_done() {
                break;
            }
        }
        self.list(alloc, bound)
    }

    // Returns the joint states that have been reached, with what is left to the bound.
    fn list(&self, alloc: Global, bound: u32) -> Result<Vec<JointEntry>, OutOfMemory> {
        let mut entries = Vec::with_capacity(alloc, self.joints.count())?;
        for (joint, reached) in self.joints.iter() {
            entries.push(JointEntry {
                state: state_of(joint),
                tick: joint.tick,
                label: Amount::of(u64::from(bound.saturating_sub(reached.cost))),
            })?;
        }
        entries.sort_unstable_by_key(order);
        Ok(entries)
    }
}

fn state_of(joint: &Joint) -> JointState {
    let Joint { first, second, .. } = *joint;
    if first == ARRIVED {
        JointState::SecondAlone { second }
    } else if second == ARRIVED {
        JointState::FirstAlone { first }
    } else {
        JointState::Both { first, second }
    }
}

// By what the entries of a certificate rise: by tick, then those of both agents, of the second alone and of the first
// alone, then by cells.
fn order(entry: &JointEntry) -> (Tick, u8, Cell, Cell) {
    match entry.state {
        JointState::Both { first, second } => (entry.tick, 0, first, second),
        JointState::SecondAlone { second } => (entry.tick, 1, second, second),
        JointState::FirstAlone { first } => (entry.tick, 2, first, first),
    }
}
