//! A sink for what isn't to be written.
ghost use Rattle.std.specs.Prelude.{None, false};

use mapf_model::{Failed, Sink};

/// A sink that drops what it takes, and never fails.
#[derive(Drop)]
pub struct Nowhere;

impl Sink for Nowhere {
    ghost contents = { λ _. None };

    ghost has_failed = { λ _. false };

    fn push(&mut self, bytes: &[u8]) -> Result<usize, Failed> {
        Ok(bytes.len())
    }

    fn failed(&self) -> bool {
        false
    }
}
