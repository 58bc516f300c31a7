//! Devices to read from. The runs read from any source: in the program from files and standard input, in the demo and
//! in tests from memory.
ghost use Rattle.std.specs.Prelude.{◌≡◌, ◌<◌, ◌≤◌, ◌↔◌, List, ℕ, Bool, true, false, Some, Option, length, min, IfOk};
ghost use Rattle.std.specs.Prelude.{OnOk, IfSome, IsErrOf, vec_len};
ghost use Rattle.std.specs.Result.{is_err};
ghost use Rattle.std.specs.Io.KnownBytes.{Consumes, IsAtEnd, ReadConsumes};

use std::alloc::Global;
use std::io::Read;

/// A device failed.
#[derive(Clone, Copy, Debug, PartialEq, Eq)]
pub struct Failed;

/// A device that bytes are read from.
pub trait Source {
    /// The bytes that are still to be read, if the source reports them.
    ghost remaining: { Self → Option (List ℕ) };
    /// Whether it has failed.
    ghost has_failed: { Self → Bool };

    /// Reads some bytes into the beginning of the buffer and returns how many. 0 means the end.
    fn pull(&mut self, buf: &mut [u8]) -> Result<usize, Failed>
        requires room { 0 < length buf.old }
        requires working { has_failed self.old ≡ false }
        ensures bound { IfOk result (λ n. n ≤ length buf.new) }
        ensures bytes { ReadConsumes (remaining self.old) (remaining self.new) result buf.new }
        ensures failed { has_failed self.new ≡ is_err result };

    /// Returns whether the source failed.
    fn failed(&self) -> bool
        ensures { result ≡ has_failed self.now };
}

/// A reader of the standard library as a source. Any error is a failure.
#[derive(Drop)]
pub struct ReadSource<R: Read> {
    inner: R,
    is_failed: bool,
}

impl<R: Read> ReadSource<R> {
    /// Returns the source of what the reader gives.
    pub fn of(inner: R) -> ReadSource<R>
        ensures bytes { ⟦<ReadSource<R> as Source>⟧.remaining result ≡ R.remaining inner }
        ensures works { ⟦<ReadSource<R> as Source>⟧.has_failed result ≡ false }
    {
        ReadSource {
            inner,
            is_failed: false,
        }
    }
}

impl<R: Read> Source for ReadSource<R> {
    ghost remaining = { λ s. R.remaining s.inner };

    ghost has_failed = { λ s. s.is_failed };

    fn pull(&mut self, buf: &mut [u8]) -> Result<usize, Failed> {
        match self.inner.read(buf) {
            Ok(n) => Ok(n),
            Err(_) => {
                self.is_failed = true;
                Err(Failed)
            }
        }
    }

    fn failed(&self) -> bool {
        self.is_failed
    }
}

/// Bytes in memory as a source. It never fails.
#[derive(Drop)]
pub struct BytesSource<'a> {
    bytes: &'a [u8],
}

impl<'a> BytesSource<'a> {
    /// Returns the source of these bytes.
    pub fn of(bytes: &'a [u8]) -> BytesSource<'a>
        ensures bytes { ⟦<BytesSource<'a> as Source>⟧.remaining result ≡ Some bytes.entry.now }
    {
        BytesSource { bytes }
    }
}

impl<'a> Source for BytesSource<'a> {
    ghost remaining = { λ s. Some s.bytes.now };

    ghost has_failed = { λ _. false };

    /// Reads as many bytes as are left and fit into the buffer.
    fn pull(&mut self, buf: &mut [u8]) -> Result<usize, Failed>
        requires { 0 < length buf.old }
        ensures bound { IfOk result (λ n. n ≤ length buf.new) }
        ensures bytes { ReadConsumes (Some self.old.bytes.now) (Some self.new.bytes.now) result buf.new }
        // It never fails.
        ensures failed { is_err result ≡ false }
        // It gives as many bytes as there are and fit.
        ensures taken { IfOk result (λ n. n ≡ min (length self.old.bytes.now) (length buf.old)) }
    {
        let n = self.bytes.len().min(buf.len());
        let (front, rest) = self.bytes.split_at(n);
        buf[..n].copy_from_slice(front);
        self.bytes = rest;
        Ok(n)
    }

    fn failed(&self) -> bool {
        false
    }
}

/// Why a source was not read to its end.
#[derive(Clone, Copy, Debug, PartialEq, Eq)]
pub enum ReadEnd {
    Device,
    TooLong,
    Memory,
}

/// Reads all bytes of a source, at most `limit`.
pub fn read_all<S: Source>(alloc: Global, source: &mut S, limit: u64) -> Result<Vec<u8>, ReadEnd>
    requires { S.has_failed source.old ≡ false }
    // The bytes are what the source gave.
    ensures all { IfOk result (λ v. Consumes (S.remaining source.old) (S.remaining source.new) v.items) }
    // The source has nothing left.
    ensures end { OnOk result (IsAtEnd (S.remaining source.new)) }
    // If the source's bytes are known, all of them were read.
    ensures whole { IfOk result (λ v. IfSome (S.remaining source.old) (λ bytes. v.items ≡ bytes)) }
    // No more bytes than the limit are returned.
    ensures within { IfOk result (λ v. vec_len v ≤ limit) }
    // `Device` is returned if and only if the source failed.
    ensures device { IsErrOf result ReadEnd.Device ↔ (S.has_failed source.new ≡ true) }
    // `TooLong` is returned only if more bytes than the limit came.
    ensures too_long { IsErrOf result ReadEnd.TooLong → ((came : List ℕ)
        × Consumes (S.remaining source.old) (S.remaining source.new) came × (limit < length came)) }
{
    let mut bytes = Vec::new(alloc);
    let mut buffer = [0u8; 4096];
    loop {
        let Ok(n) = source.pull(&mut buffer) else {
            return Err(ReadEnd::Device);
        };
        if n == 0 {
            return Ok(bytes);
        }
        if n as u64 > limit - bytes.len() as u64 {
            return Err(ReadEnd::TooLong);
        }
        if bytes.extend_from_slice(&buffer[..n]).is_err() {
            return Err(ReadEnd::Memory);
        }
    }
}
