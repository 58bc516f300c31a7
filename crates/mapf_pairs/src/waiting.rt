//! The joint states that are to be left, by the value of the round in which they are.
use mapf_model::OutOfMemory;
use std::alloc::Global;

// For so many rounds there are lists. A joint state that is due in a later one waits in the last of them first.
const ROUNDS: u32 = 16;

/// Places of joint states, by the value of the round in which these are to be left.
#[derive(Drop)]
pub(crate) struct Waiting {
    // The list of a value is at the remainder of the value by the number of rounds.
    lists: Vec<Vec<u32>>,
}

impl Waiting {
    /// Returns no places yet.
    pub(crate) fn of(alloc: Global) -> Result<Waiting, OutOfMemory> {
        let mut lists = Vec::with_capacity(alloc, ROUNDS as usize)?;
        for _ in 0..ROUNDS {
            lists.push(Vec::new(alloc))?;
        }
        Ok(Waiting { lists })
    }

    /// Removes all places.
    pub(crate) fn clear(&mut self) {
        for list in &mut self.lists {
            list.clear();
        }
    }

    /// Returns whether there is no place.
    pub(crate) fn is_empty(&self) -> bool {
        self.lists.iter().all(|list| list.is_empty())
    }

    /// Adds a place in the round of the value `now`. It is due in the round of the value `due`, this one or a later one.
    #[inline(always)]
    pub(crate) fn push(&mut self, place: u32, now: u32, due: u32) -> Result<(), OutOfMemory> {
        let value = due.min(now.saturating_add(ROUNDS - 1));
        if let Some(list) = self.lists.get_mut((value % ROUNDS) as usize) {
            list.push(place)?;
        }
        Ok(())
    }

    /// Removes and returns the newest place that is due in the round of this value.
    #[inline(always)]
    pub(crate) fn pop(&mut self, value: u32) -> Option<u32> {
        self.lists.get_mut((value % ROUNDS) as usize)?.pop()
    }
}
