//! How a map is emptied that was large once and has few entries now.
use indexmap::IndexMap;
use std::hash::Hash;

// A map is emptied entry by entry if it has room for so many times as many. To clear it takes longer then, since that
// goes over all the room.
const ROOM: usize = 32;

/// Removes all entries, and keeps the room.
pub(crate) fn empty<K: Eq + Hash + Drop, V: Drop>(map: &mut IndexMap<K, V>) {
    if map.len() > map.capacity() / ROOM {
        map.clear();
        return;
    }
    for _ in 0..map.len() {
        let _last = map.pop();
    }
}
