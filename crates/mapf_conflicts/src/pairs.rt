//! The conflicts at one tick, found by a scan over the agents: the first pair, and whether there is any. The search for
//! the first conflict calls it where a mark is missing or would take longer.
ghost use Rattle.std.specs.Prelude.{◌≡◌, ◌<◌, ◌≤◌, ℕ, false, true, length, IfNone, IfSome, IsTrue, ◌↔◌};
ghost use Rattle.mapf_model.specs.Pairs.{IsFirstPair, HoldsOfNoPair};
ghost use Rattle.mapf_conflicts.specs.Pairs.{ShareCell, ExchangeCells, HoldsOfSomePair, ShareOrExchangeCells};

use mapf_model::{Cell, first_pair};

/// Returns the first two agents that are in one cell.
pub fn sharing_pair(here: &[Cell]) -> Option<(usize, usize)>
    ensures some { IfSome result (IsFirstPair (ShareCell here.now) (length here.now)) }
    ensures none { IfNone result (HoldsOfNoPair (ShareCell here.now) (length here.now)) }
{
    first_pair(
        here.len(),
        |i: usize, j: usize| -> bool
            requires { (i < j) × (j < length here.now) }
            ensures { IsTrue result ↔ ShareCell here.entry.now i j }
        { here[i] == here[j] },
    )
}

/// Returns the first two agents that go to each other's cells.
pub fn exchanging_pair(here: &[Cell], next: &[Cell]) -> Option<(usize, usize)>
    requires { length next.now ≡ length here.now }
    ensures some { IfSome result (IsFirstPair (ExchangeCells here.now next.now) (length here.now)) }
    ensures none { IfNone result (HoldsOfNoPair (ExchangeCells here.now next.now) (length here.now)) }
{
    first_pair(
        here.len(),
        |i: usize, j: usize| -> bool
            requires place { (i < j) × (j < length here.now) }
            requires size { length next.now ≡ length here.now }
            ensures { IsTrue result ↔ ExchangeCells here.entry.now next.entry.now i j }
        { here[j] == next[i] && next[j] == here[i] },
    )
}

/// Returns whether two of the agents are in one cell or go to each other's cells.
pub fn may_conflict(here: &[Cell], next: &[Cell]) -> bool
    requires { length next.now ≡ length here.now }
    ensures share { result ≡ false → HoldsOfNoPair (ShareCell here.now) (length here.now) }
    ensures exchange { result ≡ false → HoldsOfNoPair (ExchangeCells here.now next.now) (length here.now) }
    ensures some { result ≡ true → HoldsOfSomePair (ShareOrExchangeCells here.now next.now) (length here.now) }
{
    for i in 0..here.len() {
        if meets_any(here, next, i, i + 1, here.len()) {
            return true;
        }
    }
    false
}

/// Returns whether the agent shares a cell or exchanges cells with another one. True of an agent that isn't among
/// these.
pub fn meets_another(here: &[Cell], next: &[Cell], agent: usize) -> bool
    requires { length next.now ≡ length here.now }
    ensures share { result ≡ false
        → (j : ℕ) → j < length here.now → (j ≡ agent → ⊥) → ShareCell here.now agent j → ⊥ }
    ensures exchange { result ≡ false
        → (j : ℕ) → j < length here.now → (j ≡ agent → ⊥) → ExchangeCells here.now next.now agent j → ⊥ }
{
    let count = here.len();
    if agent >= count {
        return true;
    }
    meets_any(here, next, agent, 0, agent) || meets_any(here, next, agent, agent + 1, count)
}

// Returns whether the agent shares a cell or exchanges cells with one of the agents from `first` to below `end`. The
// loop has no early exit, so that it is compiled to vector instructions.
fn meets_any(here: &[Cell], next: &[Cell], agent: usize, first: usize, end: usize) -> bool
    requires place { agent < length here.now }
    requires order { first ≤ end }
    requires end { end ≤ length here.now }
    requires size { length next.now ≡ length here.now }
    ensures share { result ≡ false → (j : ℕ) → first ≤ j → j < end → ShareCell here.now agent j → ⊥ }
    ensures exchange { result ≡ false → (j : ℕ) → first ≤ j → j < end → ExchangeCells here.now next.now agent j → ⊥ }
    ensures some { result ≡ true → (j : ℕ) × (first ≤ j) × (j < end) × ShareOrExchangeCells here.now next.now agent j }
{
    let (from, to) = (here[agent], next[agent]);
    let mut found = false;
    for j in first..end {
        found |= (here[j] == from) | ((here[j] == to) & (next[j] == from));
    }
    found
}
