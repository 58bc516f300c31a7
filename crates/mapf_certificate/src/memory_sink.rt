//! The sink of the calls that return a whole text, such as `write_plan` and `write_cert`.
ghost use Rattle.std.specs.Prelude.{◌≡◌, [], false, Some};

use mapf_model::{Failed, Sink};
use std::alloc::Global;
use std::marker::Model;

/// Bytes in memory as a sink that grows. It fails if memory runs out.
#[derive(Drop)]
pub struct MemorySink {
    bytes: Vec<u8>,
    is_failed: bool,
}

impl Model for MemorySink {
    ghost use Rattle.std.specs.Prelude.{List, ℕ, Bool};

    ghost Value = { List ℕ × Bool };

    ghost view = { λ s. (s.bytes.items, s.is_failed) };
}

impl MemorySink {
    /// Returns a sink without bytes.
    pub fn empty(alloc: Global) -> MemorySink
        ensures { result ≡ ([], false) }
    {
        MemorySink {
            bytes: Vec::new(alloc),
            is_failed: false,
        }
    }

    /// Returns the bytes that were written.
    pub fn into_bytes(self) -> Vec<u8>
        ensures { result.items ≡ self.0 }
    {
        self.bytes
    }
}

impl Sink for MemorySink {
    ghost contents = { λ s. Some s.0 };

    ghost has_failed = { λ s. s.1 };

    fn push(&mut self, bytes: &[u8]) -> Result<usize, Failed> {
        match self.bytes.extend_from_slice(bytes) {
            Ok(_) => Ok(bytes.len()),
            Err(_) => {
                self.is_failed = true;
                Err(Failed)
            }
        }
    }

    fn failed(&self) -> bool {
        self.is_failed
    }
}
