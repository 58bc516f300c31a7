//! Devices for tests: they move bytes of memory, one at a time or as many as they can, and fail at a chosen call; and a
//! source that never ends.

ghost use Rattle.std.specs.Prelude.{◌≡◌, ◌≢◌, ◌↔◌, ◌⊎◌, ◌<◌, ◌≤◌, ◌+◌, [], None, Some, false, length, min, replicate};
ghost use Rattle.std.specs.Prelude.{IfOk, IsErr, IsTrue};
ghost use Rattle.std.specs.Result.{is_err};
ghost use Rattle.std.specs.Io.KnownBytes.{ReadConsumes, WriteAppends};
ghost use Rattle.mapf_model.specs.Devices.{moved, call_more};

use crate::memory::OutOfMemory;
use crate::sink::{BytesSink, Sink};
use crate::source::{BytesSource, Failed, Source};
use std::alloc::Global;
use std::marker::Model;

/// How many bytes a device moves in a call.
#[derive(Clone, Copy, Debug, PartialEq, Eq)]
pub enum Pace {
    /// One byte.
    ByteByByte,
    /// As many as it can.
    AllAtOnce,
}

impl Pace {
    // Returns how many of so many bytes are moved.
    fn moved(self, bytes: usize) -> usize
        ensures value { result ≡ moved self bytes }
        ensures within { result ≤ bytes }
        ensures some { 0 < bytes → 0 < result }
    {
        match self {
            Pace::ByteByByte => bytes.min(1),
            Pace::AllAtOnce => bytes,
        }
    }
}

// How many calls a device allows before it fails, if it ever does.
#[derive(Clone, Copy, Debug, PartialEq, Eq)]
struct Fuse {
    calls: Option<u64>,
}

impl Fuse {
    // Counts a call. Returns whether the device allows it.
    fn stands(&mut self) -> bool
        ensures answer { IsTrue result ↔ (self.old.calls ≢ Some 0) }
        ensures count { self.new.calls ≡ call_more self.old.calls }
    {
        match self.calls {
            None => true,
            Some(0) => false,
            Some(calls) => {
                self.calls = Some(calls - 1);
                true
            }
        }
    }
}

/// Bytes in memory as a source that fails at a chosen call.
#[derive(Drop)]
pub struct FuseSource<'a> {
    source: BytesSource<'a>,
    pace: Pace,
    fuse: Fuse,
    is_failed: bool,
}

impl<'a> Model for FuseSource<'a> {
    ghost use Rattle.mapf_model.specs.Devices.{FuseReads};

    ghost Value = { FuseReads };

    ghost view = { λ s. record {
      remaining = s.source.bytes.now;
      pace = s.pace;
      calls = s.fuse.calls;
      has_failed = s.is_failed;
    } };
}

impl<'a> FuseSource<'a> {
    /// Returns a source of these bytes that fails after so many calls, or never.
    pub fn of(bytes: &'a [u8], pace: Pace, calls: Option<u64>) -> FuseSource<'a>
        ensures { result ≡ record { remaining = bytes.entry.now; pace = pace; calls = calls; has_failed = false } }
    {
        FuseSource {
            source: BytesSource::of(bytes),
            pace,
            fuse: Fuse { calls },
            is_failed: false,
        }
    }
}

impl<'a> Source for FuseSource<'a> {
    ghost remaining = { λ s. Some s.remaining };

    ghost has_failed = { λ s. s.has_failed };

    /// Fails if and only if no call is left.
    fn pull(&mut self, buf: &mut [u8]) -> Result<usize, Failed>
        requires room { 0 < length buf.old }
        requires working { self.old.has_failed ≡ false }
        ensures bound { IfOk result (λ n. n ≤ length buf.new) }
        ensures bytes { ReadConsumes (Some self.old.remaining) (Some self.new.remaining) result buf.new }
        ensures failed { self.new.has_failed ≡ is_err result }
        // It fails if and only if no call is left.
        ensures fails { IsErr result ↔ (self.old.calls ≡ Some 0) }
        // It gives as many bytes as there are, fit, and its pace allows, and uses up one call.
        ensures taken { IfOk result (λ n. n ≡ min (length self.old.remaining) (moved self.old.pace (length buf.old))) }
        ensures count { self.new.calls ≡ call_more self.old.calls }
        ensures pace { self.new.pace ≡ self.old.pace }
    {
        if !self.fuse.stands() {
            self.is_failed = true;
            return Err(Failed);
        }
        let room = self.pace.moved(buf.len());
        self.source.pull(&mut buf[..room])
    }

    fn failed(&self) -> bool {
        self.is_failed
    }
}

/// A source that gives one byte without end. It never fails.
#[derive(Drop)]
pub struct EndlessSource {
    byte: u8,
}

impl Model for EndlessSource {
    ghost use Rattle.std.specs.Prelude.{ℕ};

    ghost Value = { ℕ };

    ghost view = { λ s. s.byte };
}

impl EndlessSource {
    /// Returns a source of this byte.
    pub fn of(byte: u8) -> EndlessSource
        ensures { result ≡ byte }
    {
        EndlessSource { byte }
    }
}

impl Source for EndlessSource {
    ghost remaining = { λ _. None };

    ghost has_failed = { λ _. false };

    /// Fills the buffer.
    fn pull(&mut self, buf: &mut [u8]) -> Result<usize, Failed>
        // It fills each buffer with its byte.
        ensures full { result ≡ Ok (length buf.new) }
        ensures bytes { buf.new ≡ replicate (length buf.old) self.old }
        ensures same { self.new ≡ self.old }
    {
        buf.fill(self.byte);
        Ok(buf.len())
    }

    fn failed(&self) -> bool {
        false
    }
}

/// Bytes in memory as a sink that fails at a chosen call, and when it is full.
#[derive(Drop)]
pub struct FuseSink {
    sink: BytesSink,
    pace: Pace,
    fuse: Fuse,
    is_failed: bool,
}

impl Model for FuseSink {
    ghost use Rattle.std.specs.Prelude.{◌≡◌, false};
    ghost use Rattle.mapf_model.specs.Devices.{FuseWrites};

    ghost Value = { FuseWrites };

    ghost view = { λ s. record {
      contents = s.sink.0;
      room = s.sink.1;
      pace = s.pace;
      calls = s.fuse.calls;
      has_failed = s.is_failed;
    } };

    ghost invariant = { λ s. s.is_failed ≡ false → s.sink.2 ≡ false };
}

impl FuseSink {
    /// Returns a sink with room for `room` bytes, all of which is allocated here, that fails after so many calls, or
    /// only when it is full. Out of memory is the only error.
    pub fn with_room(
        alloc: Global,
        room: usize,
        pace: Pace,
        calls: Option<u64>,
    ) -> Result<FuseSink, OutOfMemory>
        ensures { IfOk result (λ s.
            s ≡ record { contents = []; room = room; pace = pace; calls = calls; has_failed = false }) }
    {
        Ok(FuseSink {
            sink: BytesSink::with_room(alloc, room)?,
            pace,
            fuse: Fuse { calls },
            is_failed: false,
        })
    }

    /// Returns the bytes that were written.
    pub fn bytes(&self) -> &[u8]
        ensures value { result.now ≡ self.now.contents }
        ensures contents { ⟦<FuseSink as Sink>⟧.contents self.now ≡ Some result.now }
    {
        self.sink.bytes()
    }
}

impl Sink for FuseSink {
    ghost contents = { λ s. Some s.contents };

    ghost has_failed = { λ s. s.has_failed };

    /// Fails if and only if no call is left or the sink is full.
    fn push(&mut self, bytes: &[u8]) -> Result<usize, Failed>
        requires some { 0 < length bytes.now }
        requires working { self.old.has_failed ≡ false }
        ensures bound { IfOk result (λ n. n ≤ length bytes.now) }
        ensures bytes { WriteAppends (Some self.old.contents) (Some self.new.contents) result bytes.now }
        ensures failed { self.new.has_failed ≡ is_err result }
        ensures progress { IfOk result (λ n. 0 < n) }
        // It fails if and only if no call is left or it is full.
        ensures fails { IsErr result ↔ ((self.old.calls ≡ Some 0) ⊎ (self.old.room ≡ 0)) }
        // It takes as many bytes as it has room for and its pace allows, and uses up one call.
        ensures taken { IfOk result (λ n. n ≡ min self.old.room (moved self.old.pace (length bytes.now))) }
        ensures room { self.new.room + length self.new.contents ≡ self.old.room + length self.old.contents }
        ensures count { self.new.calls ≡ call_more self.old.calls }
        ensures pace { self.new.pace ≡ self.old.pace }
    {
        let front = &bytes[..self.pace.moved(bytes.len())];
        let answer = if self.fuse.stands() {
            self.sink.push(front)
        } else {
            Err(Failed)
        };
        self.is_failed = answer.is_err();
        answer
    }

    fn failed(&self) -> bool {
        self.is_failed
    }
}
