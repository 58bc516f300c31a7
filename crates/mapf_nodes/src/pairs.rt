//! What is known of pairs of agents under their constraints. Many nodes share it.
use crate::singles::Singles;
use mapf_lemmas::JointEntry;
use mapf_model::{Cell, Grid, OutOfMemory};
use mapf_pairs::{PairFinder, PairFound, PairTask};
use std::alloc::Global;
use std::collections::HashMap;

/// How many joint states the search for two agents may keep.
const MOST_STATES: usize = 30_000;

/// Two agents under their constraints, by their numbers, with what was found of them.
#[derive(Debug, Drop)]
pub struct KnownPair {
    pub first: u32,
    pub second: u32,
    pub found: PairFound,
}

impl KnownPair {
    /// Returns a lower bound of the sum of costs, in ticks. `u64::MAX` if the two can't both arrive.
    pub fn bound(&self) -> u64 {
        if self.found.bound == u32::MAX {
            u64::MAX
        } else {
            u64::from(self.found.bound)
        }
    }

    /// Returns the two paths of this sum, None if none were found.
    pub fn paths(&self) -> Option<(&[Cell], &[Cell])> {
        let (first, second) = self.found.paths.as_ref()?;
        Some((first.cells(), second.cells()))
    }
}

/// Pairs by their numbers.
#[derive(Drop)]
pub struct Pairs<'a> {
    alloc: Global,
    grid: &'a Grid,
    finder: PairFinder,
    numbers: HashMap<(u32, u32), u32>,
    list: Vec<KnownPair>,
}

impl<'a> Pairs<'a> {
    /// Returns no pairs yet.
    pub fn of(alloc: Global, grid: &'a Grid) -> Result<Pairs<'a>, OutOfMemory> {
        Ok(Pairs {
            alloc,
            grid,
            finder: PairFinder::of(alloc, grid)?,
            numbers: HashMap::new(alloc),
            list: Vec::new(alloc),
        })
    }

    /// Returns the number of two agents under their constraints, whose numbers these are. None if one of them can't
    /// arrive.
    pub fn number_of(
        &mut self,
        singles: &mut Singles,
        first: u32,
        second: u32,
    ) -> Result<Option<u32>, OutOfMemory> {
        if let Some(&number) = self.numbers.get(&(first, second)) {
            return Ok(Some(number));
        }
        singles.make_labels(first)?;
        singles.make_labels(second)?;
        let Some(task) = task_of(self.grid, singles, first, second) else {
            return Ok(None);
        };
        let found = self.finder.least_sum(self.alloc, &task, MOST_STATES)?;
        let number = u32::try_from(self.list.len()).map_err(|_| OutOfMemory)?;
        self.list.push(KnownPair {
            first,
            second,
            found,
        })?;
        self.numbers.insert((first, second), number)?;
        Ok(Some(number))
    }

    /// Returns the pair of a number.
    pub fn get(&self, number: u32) -> Option<&KnownPair> {
        self.list.get(number as usize)
    }

    /// Returns the numbers of the two agents of a pair under their constraints.
    pub fn singles_of(&self, number: u32) -> Option<(u32, u32)> {
        let pair = self.get(number)?;
        Some((pair.first, pair.second))
    }

    /// Returns how many there are.
    pub fn len(&self) -> usize {
        self.list.len()
    }

    /// Returns joint labels by which the pair costs at least `bound` ticks.
    pub fn entries(
        &mut self,
        singles: &Singles,
        number: u32,
        bound: u64,
    ) -> Result<Vec<JointEntry>, OutOfMemory> {
        let Some(pair) = self.list.get(number as usize) else {
            return Ok(Vec::new(self.alloc));
        };
        match task_of(self.grid, singles, pair.first, pair.second) {
            Some(task) => {
                let bound = u32::try_from(bound).unwrap_or(u32::MAX);
                self.finder.entries(self.alloc, &task, bound)
            }
            None => Ok(Vec::new(self.alloc)),
        }
    }
}

// Returns two agents whose labels were made, None if one of them can't arrive.
fn task_of<'s>(
    grid: &'s Grid,
    singles: &'s Singles,
    first: u32,
    second: u32,
) -> Option<PairTask<'s>> {
    match (singles.side(first), singles.side(second)) {
        (Some(first), Some(second)) => Some(PairTask {
            grid,
            first,
            second,
        }),
        _ => None,
    }
}
