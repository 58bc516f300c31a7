//! A constraint with its place in a chain of `TickBars`.
use mapf_model::Bar;

/// A constraint in the chain of those whose ticks leave the same remainder.
#[derive(Clone, Copy, Debug)]
pub struct Link {
    pub bar: Bar,
    /// The number of links up to and including the next older one of the chain, 0 if this one is the oldest.
    pub older: usize,
}
