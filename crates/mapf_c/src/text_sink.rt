//! Text that grows in memory as a sink.
ghost use Rattle.std.specs.Prelude.{◌≡◌, [], Some, false, IfOk, length};

use mapf_model::{Failed, Sink};
use std::alloc::Global;
use std::marker::Model;

/// A text in memory. It fails only where memory is refused.
#[derive(Drop)]
pub struct TextSink {
    bytes: Vec<u8>,
    is_failed: bool,
}

impl Model for TextSink {
    ghost use Rattle.std.specs.Prelude.{List, ℕ, Bool};

    ghost Value = { List ℕ × Bool };

    ghost view = { λ s. (s.bytes.items, s.is_failed) };
}

impl TextSink {
    /// Returns an empty text. It takes no memory yet.
    pub fn new(alloc: Global) -> TextSink
        ensures { result ≡ ([], false) }
    {
        TextSink {
            bytes: Vec::new(alloc),
            is_failed: false,
        }
    }

    /// Returns the bytes that were written.
    pub fn bytes(&self) -> &[u8]
        ensures { result.now ≡ self.now.0 }
    {
        self.bytes.as_slice()
    }
}

impl Sink for TextSink {
    ghost contents = { λ s. Some s.0 };

    ghost has_failed = { λ s. s.1 };

    fn push(&mut self, bytes: &[u8]) -> Result<usize, Failed> {
        if self.bytes.extend_from_slice(bytes).is_err() {
            self.is_failed = true;
            return Err(Failed);
        }
        Ok(bytes.len())
    }

    fn failed(&self) -> bool {
        self.is_failed
    }
}
