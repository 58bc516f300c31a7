//! Devices to write to. The runs write to any sink: in the program to files and standard streams, in the demo and in
//! tests also to memory.
ghost use Rattle.std.specs.Prelude.{◌≡◌, ◌<◌, ◌≤◌, ◌+◌, ◌↔◌, [], List, ℕ, Bool, false, Some, Option, length, min};
ghost use Rattle.std.specs.Prelude.{take, IfOk, IsErr, OnOk, OnErr};
ghost use Rattle.std.specs.Result.{is_err};
ghost use Rattle.std.specs.Io.KnownBytes.{Appends, WriteAppends};

use crate::memory::OutOfMemory;
use crate::source::Failed;
use std::alloc::Global;
use std::io::Write;
use std::marker::Model;

/// A device that bytes are written to.
pub trait Sink {
    /// The bytes that were written, if the sink reports them.
    ghost contents: { Self → Option (List ℕ) };
    /// Whether it has failed.
    ghost has_failed: { Self → Bool };

    /// Writes a prefix of these bytes and returns its length, at least one.
    fn push(&mut self, bytes: &[u8]) -> Result<usize, Failed>
        requires some { 0 < length bytes.now }
        requires working { has_failed self.old ≡ false }
        ensures bound { IfOk result (λ n. n ≤ length bytes.now) }
        ensures progress { IfOk result (λ n. 0 < n) }
        ensures bytes { WriteAppends (contents self.old) (contents self.new) result bytes.now }
        ensures failed { has_failed self.new ≡ is_err result };

    /// Returns whether the sink failed.
    fn failed(&self) -> bool
        ensures { result ≡ has_failed self.now };
}

/// A writer of the standard library as a sink. Any error is a failure, and so is a write of no bytes.
#[derive(Drop)]
pub struct WriteSink<W: Write> {
    inner: W,
    is_failed: bool,
}

impl<W: Write> WriteSink<W> {
    /// Returns the sink that hands what it takes to the writer.
    pub fn of(inner: W) -> WriteSink<W>
        ensures bytes { ⟦<WriteSink<W> as Sink>⟧.contents result ≡ W.contents inner }
        ensures works { ⟦<WriteSink<W> as Sink>⟧.has_failed result ≡ false }
    {
        WriteSink {
            inner,
            is_failed: false,
        }
    }
}

impl<W: Write> Sink for WriteSink<W> {
    ghost contents = { λ s. W.contents s.inner };

    ghost has_failed = { λ s. s.is_failed };

    fn push(&mut self, bytes: &[u8]) -> Result<usize, Failed> {
        match self.inner.write(bytes) {
            Ok(n) if 0 < n => Ok(n),
            _ => {
                self.is_failed = true;
                Err(Failed)
            }
        }
    }

    fn failed(&self) -> bool {
        self.is_failed
    }
}

/// Bytes in memory as a sink of limited size.
#[derive(Drop)]
pub struct BytesSink {
    bytes: Vec<u8>,
    room: usize,
    is_failed: bool,
}

impl Model for BytesSink {
    ghost use Rattle.std.specs.Prelude.{List, ℕ, Bool, ◌≤◌, ◌+◌, ◌≡◌, vec_len, vec_capacity};

    ghost Value = { List ℕ × ℕ × Bool };

    ghost view = { λ s. (s.bytes.items, s.room, s.is_failed) };

    ghost invariant = { λ s. vec_len s.bytes + s.room ≤ vec_capacity s.bytes };
}

impl BytesSink {
    /// Returns a sink with room for `room` bytes, all of which is allocated here.
    pub fn with_room(alloc: Global, room: usize) -> Result<BytesSink, OutOfMemory>
        ensures { IfOk result (λ s. s ≡ ([], room, false)) }
    {
        Ok(BytesSink {
            bytes: Vec::with_capacity(alloc, room)?,
            room,
            is_failed: false,
        })
    }

    /// Returns the bytes that were written.
    pub fn bytes(&self) -> &[u8]
        ensures value { result.now ≡ self.now.0 }
        ensures contents { ⟦<BytesSink as Sink>⟧.contents self.now ≡ Some result.now }
    {
        self.bytes.as_slice()
    }
}

impl Sink for BytesSink {
    ghost contents = { λ s. Some s.0 };

    ghost has_failed = { λ s. s.2 };

    /// Writes as many bytes as there is room for, and fails if and only if there is none.
    fn push(&mut self, bytes: &[u8]) -> Result<usize, Failed>
        requires some { 0 < length bytes.now }
        requires working { self.old.2 ≡ false }
        ensures bytes { WriteAppends (Some self.old.0) (Some self.new.0) result bytes.now }
        ensures failed { self.new.2 ≡ is_err result }
        // It fails if and only if it is full.
        ensures full { IsErr result ↔ self.old.1 ≡ 0 }
        // It takes as many bytes as it has room for.
        ensures taken { IfOk result (λ n. n ≡ min self.old.1 (length bytes.now)) }
        ensures room { self.new.1 + length self.new.0 ≡ self.old.1 + length self.old.0 }
    {
        let n = self.room.min(bytes.len());
        if n == 0 {
            self.is_failed = true;
            return Err(Failed);
        }
        self.bytes.extend_from_slice(&bytes[..n]).unwrap();
        self.room -= n;
        Ok(n)
    }

    fn failed(&self) -> bool {
        self.is_failed
    }
}

/// Writes all of the bytes, or fails if the sink does.
pub fn write_all<K: Sink>(sink: &mut K, bytes: &[u8]) -> Result<(), Failed>
    requires { K.has_failed sink.old ≡ false }
    // All bytes are written.
    ensures ok { OnOk result (Appends (K.contents sink.old) (K.contents sink.new) bytes.now) }
    // An error is returned if and only if the sink failed.
    ensures failed { K.has_failed sink.new ≡ is_err result }
    // After an error the sink got a prefix of the bytes.
    ensures prefix { OnErr result ((n : ℕ) × (n ≤ length bytes.now)
        × Appends (K.contents sink.old) (K.contents sink.new) (take n bytes.now)) }
{
    let mut at = 0;
    while at < bytes.len() {
        let n = sink.push(&bytes[at..])?;
        at += n;
    }
    Ok(())
}
