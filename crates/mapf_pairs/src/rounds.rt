//! A round: the joint states of one value.
use crate::joint_states::{ARRIVED, Due, Joint, Leaving, Mover, NOTHING_DUE};
use crate::pair_finder::PairFinder;
use crate::pair_task::PairTask;
use mapf_model::OutOfMemory;
use std::alloc::Global;

/// How a round ended.
#[derive(Clone, Copy, Debug)]
pub(crate) enum Round {
    /// Both agents have arrived for good, in the joint state at this place.
    Arrived(u32),
    /// There were more joint states than there may be.
    Capped,
    /// No joint state is left, and the agents haven't both arrived.
    Over,
}

impl PairFinder {
    /// Leaves the joint states that are to be left in the round of this value, until both agents arrive for good or there
    /// are more than `cap` joint states.
    pub(crate) fn round(
        &mut self,
        alloc: Global,
        task: &PairTask,
        value: u32,
        cap: usize,
    ) -> Result<Round, OutOfMemory> {
        for _ in 0..u64::MAX {
            if self.joints.count() > cap {
                return Ok(Round::Capped);
            }
            let Some(from) = self.joints.pop(value) else {
                break;
            };
            if self.have_arrived(&from.joint) {
                return Ok(Round::Arrived(from.place));
            }
            let due = self.leave(alloc, task, &from)?;
            self.joints.wait(&from, due)?;
        }
        Ok(Round::Over)
    }

    // Returns whether one agent has arrived for good, and the other one may stay where it is too.
    #[inline(always)]
    fn have_arrived(&self, joint: &Joint) -> bool {
        if joint.first == ARRIVED {
            self.second.may_rest(joint.second, joint.tick)
        } else {
            joint.second == ARRIVED && self.first.may_rest(joint.first, joint.tick)
        }
    }

    // Goes on from a joint state. Returns the least value of the steps that are due in a later round.
    #[inline(always)]
    fn leave(
        &mut self,
        alloc: Global,
        task: &PairTask,
        from: &Leaving,
    ) -> Result<Due, OutOfMemory> {
        if from.joint.first == ARRIVED {
            self.move_second(alloc, task, from)
        } else if from.joint.second == ARRIVED {
            self.move_first(alloc, task, from)
        } else {
            let due = self.move_both(alloc, task, from)?;
            self.arrive(from)?;
            Ok(due)
        }
    }

    // Takes the steps of both agents.
    #[inline(always)]
    fn move_both(
        &mut self,
        alloc: Global,
        task: &PairTask,
        from: &Leaving,
    ) -> Result<Due, OutOfMemory> {
        let state = from.joint.state_of(Mover::First);
        let range = self.first.find(alloc, task.grid, &task.first, &state)?;
        let steps = self.first.list(range);
        let state = from.joint.state_of(Mover::Second);
        let range = self.second.find(alloc, task.grid, &task.second, &state)?;
        let others = self.second.list(range);
        let mut due = NOTHING_DUE;
        for step in steps {
            due = self.joints.reach(from, step, others, due)?;
        }
        Ok(due)
    }

    // Takes the steps of the first agent, which may not enter the goal of the second.
    fn move_first(
        &mut self,
        alloc: Global,
        task: &PairTask,
        from: &Leaving,
    ) -> Result<Due, OutOfMemory> {
        let state = from.joint.state_of(Mover::First);
        let range = self.first.find(alloc, task.grid, &task.first, &state)?;
        let mut due = NOTHING_DUE;
        for step in self.first.list(range) {
            if step.cell != self.second.goal() {
                due = self.joints.reach_alone(from, step, Mover::First, due)?;
            }
        }
        Ok(due)
    }

    // Takes the steps of the second agent, which may not enter the goal of the first.
    fn move_second(
        &mut self,
        alloc: Global,
        task: &PairTask,
        from: &Leaving,
    ) -> Result<Due, OutOfMemory> {
        let state = from.joint.state_of(Mover::Second);
        let range = self.second.find(alloc, task.grid, &task.second, &state)?;
        let mut due = NOTHING_DUE;
        for step in self.second.list(range) {
            if step.cell != self.first.goal() {
                due = self.joints.reach_alone(from, step, Mover::Second, due)?;
            }
        }
        Ok(due)
    }

    // Lets either agent arrive for good, if it may, while the other one stays where it is. What is left stays the same,
    // so the value does too.
    #[inline(always)]
    fn arrive(&mut self, from: &Leaving) -> Result<(), OutOfMemory> {
        let Joint {
            tick,
            first,
            second,
        } = from.joint;
        if self.second.may_rest(second, tick) {
            let joint = Joint {
                tick,
                first,
                second: ARRIVED,
            };
            self.joints.add(from, joint, from.cost)?;
        }
        if self.first.may_rest(first, tick) {
            let joint = Joint {
                tick,
                first: ARRIVED,
                second,
            };
            self.joints.add(from, joint, from.cost)?;
        }
        Ok(())
    }
}
