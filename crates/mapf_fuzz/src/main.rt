//! Fuzzing: hands random texts and damaged ones to each reader, all in one process, and counts how they are answered.
//! They are the texts of one small problem, whose least sum of costs is known, so a certificate that is accepted though
//! its claim is false is found too.
#![tactic(auto)]

mod change;
mod count;
mod samples;
mod trial;

use anyhow::{Result, anyhow};
use std::env;

fn main(rt: HostRuntime) -> Result<()> {
    let mut words = Vec::new(rt.alloc());
    for word in env::args(&rt)? {
        words.push(word)?;
    }
    let [_, texts, seed] = words.as_slice() else {
        return Err(anyhow!("usage: mapf_fuzz TEXTS SEED"));
    };
    let (Ok(texts), Ok(seed)) = (texts.parse::<u32>(), seed.parse::<u32>()) else {
        return Err(anyhow!("TEXTS and SEED are numbers below 2^32"));
    };
    for reader in samples::READERS {
        let count = trial::tried(rt.alloc(), reader, texts, seed)?;
        println!(rt; "{count}")?;
    }
    Ok(())
}
