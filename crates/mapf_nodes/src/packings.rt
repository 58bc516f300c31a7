//! The packings of excesses, kept by the excesses, since many nodes share them.
use mapf_model::OutOfMemory;
use mapf_packing::{Excess, Packer, Packing};
use std::alloc::Global;
use std::collections::HashMap;

/// How many packings are kept.
const MOST_PACKINGS: usize = 100_000;

/// Packings by the excesses that they are made of.
#[derive(Drop)]
pub struct Packings {
    alloc: Global,
    packer: Packer,
    numbers: HashMap<Vec<u32>, u32>,
    list: Vec<Packing>,
    // The excesses that are looked up: for each its amount, how many agents it has, and these.
    key: Vec<u32>,
}

impl Packings {
    /// Returns no packings yet, for so many agents.
    pub fn of(alloc: Global, agents: usize) -> Result<Packings, OutOfMemory> {
        let count = u32::try_from(agents).map_err(|_| OutOfMemory)?;
        Ok(Packings {
            alloc,
            packer: Packer::of(alloc, count)?,
            numbers: HashMap::new(alloc),
            list: Vec::new(alloc),
            key: Vec::new(alloc),
        })
    }

    /// Begins a list of excesses.
    pub fn begin(&mut self) {
        self.key.clear();
    }

    /// Adds an excess of some agents, which rise, to the list.
    pub fn add(&mut self, agents: &[u32], excess: u64) -> Result<(), OutOfMemory> {
        self.key.push(u32::try_from(excess).unwrap_or(u32::MAX))?;
        self.key
            .push(u32::try_from(agents.len()).map_err(|_| OutOfMemory)?)?;
        self.key.extend_from_slice(agents)?;
        Ok(())
    }

    /// Returns a packing of the listed excesses, as great as was found.
    pub fn find(&mut self) -> Result<&Packing, OutOfMemory> {
        let known = self.numbers.get(&self.key[..]).copied();
        let number = match known {
            Some(number) => number,
            None => self.make()?,
        };
        self.list.get(number as usize).ok_or(OutOfMemory)
    }

    // Makes the packing of the listed excesses, and returns its number.
    fn make(&mut self) -> Result<u32, OutOfMemory> {
        if self.list.len() >= MOST_PACKINGS {
            self.list.clear();
            self.numbers.clear();
        }
        let excesses = self.listed()?;
        let packing = self.packer.pack(self.alloc, &excesses)?;
        let number = u32::try_from(self.list.len()).map_err(|_| OutOfMemory)?;
        self.list.push(packing)?;
        self.numbers
            .insert(Vec::from_slice(self.alloc, &self.key)?, number)?;
        Ok(number)
    }

    // Returns the listed excesses.
    fn listed(&self) -> Result<Vec<Excess>, OutOfMemory> {
        let mut excesses = Vec::new(self.alloc);
        let mut rest: &[u32] = &self.key;
        for _ in 0..self.key.len() {
            let Some((&excess, after)) = rest.split_first() else {
                break;
            };
            let Some((&count, agents)) = after.split_first() else {
                break;
            };
            let count = (count as usize).min(agents.len());
            let (agents, next) = agents.split_at(count);
            excesses.push(Excess {
                agents: Vec::from_slice(self.alloc, agents)?,
                excess,
            })?;
            rest = next;
        }
        Ok(excesses)
    }
}
