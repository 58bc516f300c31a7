//! The benchmark's jobs: makes problems from a seed, solves them, and checks or plays the answers. Prints for each
//! problem what was answered and a digest of each text, and no times.
#![tactic(auto)]

mod floor;
mod job;
mod layouts;
mod problem;
mod run;

use anyhow::{Result, anyhow};
use job::Job;
use std::env;

fn main(rt: HostRuntime) -> Result<()> {
    let mut words = Vec::new(rt.alloc());
    for word in env::args(&rt)? {
        words.push(word)?;
    }
    let Some(job) = Job::of(&words) else {
        return Err(anyhow!(
            "usage: mapf_bench solve|check|play|second|judge open|random|maze|warehouse \
             WIDTH HEIGHT AGENTS LIMIT PROBLEMS SEED"
        ));
    };
    for number in 0..job.problems {
        let made = problem::make(rt.alloc(), &job, number)?;
        let line = run::line_of(rt.alloc(), &job, &made)?;
        println!(rt; "{number}: {line}")?;
    }
    Ok(())
}
