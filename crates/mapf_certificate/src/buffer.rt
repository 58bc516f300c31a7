//! The bytes of a certificate on their way from the source to the reader of its lines, in whatever pieces they come.
ghost use Rattle.std.specs.Io.KnownBytes.{IsAtEnd};
ghost use Rattle.mapf_model.specs.Limits.{longest_cert_line};
ghost use Rattle.mapf_fields.specs.Ends.{IsCut, lacks_end};
ghost use Rattle.mapf_certificate.specs.Buffered.{spare};
ghost use Rattle.mapf_certificate.specs.Untouched.{HasLine, IsUntouched};
ghost use Rattle.mapf_certificate.specs.Window.{Window, Fails, LacksLine, LacksBytes};
ghost use Rattle.std.specs.Prelude.{[], ◌++◌, take, ◌≡◌, ◌↔◌, ◌<◌, ◌≤◌, ◌+◌, ◌==◌, ℕ, List, length, drop, IfOk, IfErr};
ghost use Rattle.std.specs.Prelude.{IfSome, IfNone, OnOk, IsTrue, vec_len, vec_capacity, false, true};

use crate::cert::{CertFault, LinesFault};
use mapf_fields::line_length;
use mapf_model::limits::LONGEST_CERT_LINE;
use mapf_model::{OutOfMemory, Source};
use std::alloc::Global;
use std::marker::Model;

/// The greatest number of bytes that one read asks for.
const PIECE: usize = 4096;

/// The bytes that came from a source and weren't taken yet.
#[derive(Drop)]
pub struct LineBuffer {
    bytes: Vec<u8>,
    // How many of them were taken.
    taken: usize,
    // How many more may come.
    left: u64,
}

impl Model for LineBuffer {
    ghost use Rattle.std.specs.Prelude.{◌≤◌, ◌+◌, drop, vec_len, vec_capacity};
    ghost use Rattle.mapf_certificate.specs.Buffered.{Buffered, most_buffered};

    ghost Value = { Buffered };

    ghost view = { λ b. record { bytes = drop b.taken b.bytes.items; left = b.left } };

    ghost invariant = { λ b. (b.taken ≤ vec_len b.bytes) × (most_buffered ≤ vec_capacity b.bytes)
        × (vec_len b.bytes ≤ most_buffered) };
}

/// Why there is no line.
#[derive(Clone, Copy)]
pub enum NoLine {
    /// The source ended.
    Ended,
    /// More than 64 bytes came without LF.
    Overlong,
    /// The source failed.
    Device,
    /// A byte came beyond the limit.
    PastLimit,
}

// Returns the length of the line that bytes begin with, at most 64. None if they don't begin with a line.
fn line_end(bytes: &[u8]) -> Option<usize>
    ensures line { IfSome result (λ n.
        (n < length bytes.now) × IsCut bytes.now (take n bytes.now) (drop (n + 1) bytes.now)) }
    ensures none { IfNone result (lacks_end (take (longest_cert_line + 1) bytes.now) ≡ true) }
{
    line_length(&bytes[..bytes.len().min(LONGEST_CERT_LINE + 1)])
}

impl LineBuffer {
    /// Returns an empty buffer, into which at most `limit` bytes may come.
    pub fn open(alloc: Global, limit: u64) -> Result<LineBuffer, OutOfMemory>
        ensures { IfOk result (λ b. b ≡ record { bytes = []; left = limit }) }
    {
        Ok(LineBuffer {
            bytes: Vec::with_capacity(alloc, LONGEST_CERT_LINE + PIECE)?,
            taken: 0,
            left: limit,
        })
    }

    fn len(&self) -> usize
        ensures { result ≡ length self.now.bytes }
    {
        self.bytes.len() - self.taken
    }

    /// Returns whether no byte is in the buffer.
    pub fn is_empty(&self) -> bool
        ensures { result ≡ (length self.now.bytes == 0) }
    {
        self.len() == 0
    }

    /// Returns all bytes.
    #[inline(always)]
    pub fn all(&self) -> &[u8]
        ensures { result.now ≡ self.now.bytes }
    {
        &self.bytes[self.taken..]
    }

    /// Returns the first bytes.
    pub fn front(&self, n: usize) -> &[u8]
        requires { n ≤ length self.now.bytes }
        ensures { result.now ≡ take n self.now.bytes }
    {
        &self.bytes[self.taken..self.taken + n]
    }

    /// Takes the first bytes out of the buffer.
    #[inline(always)]
    pub fn take(&mut self, n: usize)
        requires { n ≤ length self.old.bytes }
        ensures { self.new ≡ record { bytes = drop n self.old.bytes; left = self.old.left } }
    {
        self.taken += n;
    }

    /// Reads once from the source. Returns whether bytes came.
    pub fn fill<S: Source>(&mut self, source: &mut S) -> Result<bool, NoLine>
        requires works { S.has_failed source.old ≡ false }
        requires room { length self.old.bytes ≤ longest_cert_line }
        ensures window { OnOk result (Window (S.remaining source.old) (S.remaining source.new) self.old self.new []) }
        ensures grows { IfOk result (λ more. more ≡ true → length self.old.bytes < length self.new.bytes) }
        ensures end { IfOk result (λ more. more ≡ false
            → IsAtEnd (S.remaining source.new) × (self.new.bytes ≡ self.old.bytes)) }
        ensures stopped { IfErr result
            (LacksBytes (S.remaining source.old) (S.remaining source.new) (S.has_failed source.new) self.old) }
        ensures works { OnOk result (S.has_failed source.new ≡ false) }
        ensures spare { spare self.new ≡ spare self.old }
    {
        let mut piece = [0u8; PIECE];
        let most = self.left.clamp(1, PIECE as u64) as usize;
        let Ok(n) = source.pull(&mut piece[..most]) else {
            return Err(NoLine::Device);
        };
        if n as u64 > self.left {
            return Err(NoLine::PastLimit);
        }
        self.keep(&piece[..n]);
        Ok(n > 0)
    }

    // Adds bytes that came.
    fn keep(&mut self, piece: &[u8])
        requires room { length self.old.bytes ≤ longest_cert_line }
        requires some { length piece.now ≤ PIECE }
        requires limit { length piece.now ≤ self.old.left }
        ensures bytes { self.new.bytes ≡ self.old.bytes ++ piece.now }
        ensures left { self.old.left ≡ self.new.left + length piece.now }
    {
        self.left -= piece.len() as u64;
        self.bytes.drain(..self.taken);
        self.taken = 0;
        self.bytes.extend_from_slice(piece).unwrap();
    }

    /// Reads until a whole line is in the buffer. Returns its length without LF.
    pub fn ready<S: Source>(&mut self, source: &mut S) -> Result<usize, NoLine>
        requires { S.has_failed source.old ≡ false }
        ensures window { OnOk result (Window (S.remaining source.old) (S.remaining source.new) self.old self.new []) }
        ensures line { IfOk result (λ n. (n < length self.new.bytes)
            × IsCut self.new.bytes (take n self.new.bytes) (drop (n + 1) self.new.bytes)) }
        ensures stopped { IfErr result
            (LacksLine (S.remaining source.old) (S.remaining source.new) (S.has_failed source.new) self.old self.new) }
        // If a line is in the buffer, or one that is too long, the source is not read.
        ensures there { HasLine self.old → IsUntouched self.old self.new source.old source.new }
        ensures works { OnOk result (S.has_failed source.new ≡ false) }
        ensures spare { spare self.new ≡ spare self.old }
    {
        loop {
            if let Some(n) = line_end(self.front(self.len())) {
                return Ok(n);
            }
            if self.len() > LONGEST_CERT_LINE {
                return Err(NoLine::Overlong);
            }
            if !self.fill(source)? {
                return Err(NoLine::Ended);
            }
        }
    }

    /// Reads until a whole line is in the buffer, and takes nothing. Returns whether it is this one.
    pub fn begins_with<S: Source>(&mut self, source: &mut S, line: &[u8]) -> Result<bool, NoLine>
        requires { S.has_failed source.old ≡ false }
        ensures window { OnOk result (Window (S.remaining source.old) (S.remaining source.new) self.old self.new []) }
        ensures line { IfOk result (λ is. (first : List ℕ) × (rest : List ℕ) × IsCut self.new.bytes first rest
            × (IsTrue is ↔ first ≡ line.now)) }
        ensures stopped { IfErr result
            (LacksLine (S.remaining source.old) (S.remaining source.new) (S.has_failed source.new) self.old self.new) }
        ensures works { OnOk result (S.has_failed source.new ≡ false) }
        ensures spare { spare self.new ≡ spare self.old }
    {
        let n = self.ready(source)?;
        Ok(self.front(n) == line)
    }

    /// Checks that nothing is left. `line` is the number of the line that would be next, counted from 1.
    pub fn end<S: Source>(&mut self, source: &mut S, line: u64) -> Result<(), LinesFault>
        requires { S.has_failed source.old ≡ false }
        ensures works { OnOk result (S.has_failed source.new ≡ false) }
        ensures spare { spare self.new ≤ spare self.old }
        ensures taken { OnOk result (Window (S.remaining source.old) (S.remaining source.new) self.old self.new []) }
        ensures ended { OnOk result (IsAtEnd (S.remaining source.new)) }
        ensures empty { OnOk result (self.new.bytes ≡ []) }
        ensures fails { IfErr result (Fails (S.remaining source.old) (S.remaining source.new) (S.has_failed source.new)
            self.old (λ text. text ≡ [])) }
    {
        if !self.is_empty() {
            return Err(LinesFault::Text(CertFault::K4(line)));
        }
        match self.fill(source) {
            Ok(true) => Err(LinesFault::Text(CertFault::K4(line))),
            Ok(false) => Ok(()),
            Err(why) => Err(LinesFault::without_line(line, why)),
        }
    }
}
