//! The open list: which open node is expanded next. The search over trees takes its nodes from here.
ghost use Rattle.std.specs.Prelude.{◌≡◌, ◌<◌, ◌∷◌, ◌↔◌, [], Some, length, slice_get};
ghost use Rattle.std.specs.Prelude.{All, IfOk, IfSome, IfNone, IsSome, IsTrue, OnErr, OnOk};
ghost use Rattle.std.specs.BTreeMap.{get, is_at, keys};
ghost use Rattle.std.specs.BTreeSet.{insert_key};
ghost use Rattle.std.specs.Map.{remove_entry};
ghost use Rattle.std.specs.Ordering.{nat_cmp};
ghost use Rattle.mapf_cbs.specs.State.{IsLeastKey, key_cmp};

use mapf_model::OutOfMemory;
use std::alloc::Global;
use std::collections::{BTreeMap, VecDeque};
use std::marker::Model;

/// The open list of a search: a map from each sum of costs to the queue of the open nodes of that sum. Nodes are added
/// in the order of their numbers, so each queue is in order. Many nodes share a sum, so the map is small.
#[derive(Debug, Drop)]
pub struct OpenNodes {
    alloc: Global,
    // For each sum that an open node has, the numbers of the open nodes of that sum in rising order. No queue is empty.
    queues: BTreeMap<u64, VecDeque<u32>>,
}

impl Model for OpenNodes {
    ghost use Rattle.std.specs.Prelude.{List, ℕ, All};
    ghost use Rattle.std.specs.BTreeMap.{values};
    ghost use Rattle.mapf_cbs.specs.Queues.{IsOpenQueue, keys_of_entries};

    ghost Value = { List (ℕ × ℕ) };

    ghost view = { λ nodes. keys_of_entries nodes.queues.entries };

    ghost invariant = { λ nodes. All IsOpenQueue (values nodes.queues) };
}

impl OpenNodes {
    /// Returns an open list that holds only this node.
    pub fn of(alloc: Global, total: u64, number: u32) -> Result<OpenNodes, OutOfMemory>
        ensures { IfOk result (λ nodes. nodes ≡ (total, number) ∷ []) }
    {
        let mut nodes = OpenNodes {
            alloc,
            queues: BTreeMap::new(alloc),
        };
        nodes.add(total, number)?;
        Ok(nodes)
    }

    /// Adds a node. Its number is greater than that of every open node. If memory is refused, no node is added.
    pub fn add(&mut self, total: u64, number: u32) -> Result<(), OutOfMemory>
        requires { All (λ key. key.1 < number) self.old }
        ensures added { OnOk result (self.new ≡ insert_key key_cmp self.old (total, number)) }
        ensures kept { OnErr result (self.new ≡ self.old) }
    {
        if let Some(queue) = self.queues.get_mut(&total) {
            queue.push_back(number)?;
            return Ok(());
        }
        let mut queue = VecDeque::new(self.alloc);
        queue.push_back(number)?;
        self.queues.insert(total, queue)?;
        Ok(())
    }

    /// Returns how many nodes are open, for whoever watches the search.
    pub fn count(&self) -> usize {
        let mut count = 0usize;
        for queue in self.queues.values() {
            count = count.saturating_add(queue.len());
        }
        count
    }

    /// Removes the open node of least sum, of these the one of least number, and returns its sum and its number. None
    /// if no node is open.
    pub fn take_least(&mut self) -> Option<(u64, u32)>
        ensures some { IfSome result (λ key. IsLeastKey key self.old self.new) }
        ensures none { IfNone result (self.old ≡ []) }
    {
        let total = least_sum(&self.queues)?;
        let queue = self.queues.get_mut(&total)?;
        let (number, was_last) = take_first(queue)?;
        if was_last {
            remove_sum(&mut self.queues, total);
        }
        Some((total, number))
    }
}

// Returns the least sum that has a queue.
fn least_sum(queues: &BTreeMap<u64, VecDeque<u32>>) -> Option<u64>
    ensures some { IfSome result (λ total. slice_get (keys queues.now) 0 ≡ Some total) }
    ensures queue { IfSome result (λ total. IsSome (get nat_cmp queues.now total)) }
    ensures none { IfNone result (queues.now.entries ≡ []) }
{
    let (total, _) = queues.first_key_value()?;
    Some(*total)
}

// Removes the first number of a queue, and returns it and whether it was the last one.
fn take_first(queue: &mut VecDeque<u32>) -> Option<(u32, bool)>
    ensures first { IfSome result (λ taken. queue.old.items ≡ taken.0 ∷ queue.new.items) }
    ensures last { IfSome result (λ taken. IsTrue taken.1 ↔ (length queue.new.items ≡ 0)) }
    ensures none { IfNone result (queue.old.items ≡ []) }
{
    let number = queue.pop_front()?;
    give_back_room(queue);
    Some((number, queue.is_empty()))
}

// Keeps room for at most four times as many numbers as the queue has. Room is given back only each time that the length
// is a power of two, so that a number is seldom moved. If memory for less room is refused, the queue stays as it is.
fn give_back_room(queue: &mut VecDeque<u32>)
    ensures items { queue.new.items ≡ queue.old.items }
{
    if queue.len().is_power_of_two() {
        queue.shrink_to(queue.len().saturating_mul(2));
    }
}

// Removes the entry of this sum.
fn remove_sum(queues: &mut BTreeMap<u64, VecDeque<u32>>, total: u64)
    ensures { queues.new.entries ≡ remove_entry (is_at (nat_cmp total)) queues.old.entries }
{
    queues.remove(&total);
}
