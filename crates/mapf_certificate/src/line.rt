//! A line of a certificate as a value. The reader of lines returns it, and the writer of lines takes it.
use crate::version::Version;
use mapf_model::{Claim, Conflict, Entry};

/// A line of a certificate.
#[derive(Clone, Copy)]
pub enum CertLine {
    Title(Version),
    Agents(u32),
    Claim(Claim),
    Split {
        conflict: Conflict,
        // The number of its blocks, which version 1 doesn't have.
        blocks: Option<u64>,
    },
    Leaf(u64),
    Clash {
        i: u32,
        j: u32,
    },
    Agent {
        agent: u32,
        entries: u64,
    },
    At(Entry),
    End,
}
