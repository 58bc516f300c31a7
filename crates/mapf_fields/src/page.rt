//! The page on which plan texts, certificates, frames and replies are collected before they go to a sink.
ghost use Rattle.std.specs.Prelude.{◌≡◌, ◌+◌, ◌<◌, ◌≤◌, ◌↔◌, ◌++◌, ◌∷◌, [], List, ℕ, false, IsTrue, OnOk, length, take};
ghost use Rattle.std.specs.Result.{is_err};
ghost use Rattle.mapf_fields.specs.Numbers.{field};
ghost use Rattle.mapf_fields.specs.Pages.{PassesOrFails, WritesOrFails, page_room, field_room};

use crate::spellings::spelling;
use itoa::Buffer;
use mapf_model::{Failed, Sink, write_all};
use std::marker::Model;

/// The size of a page, in bytes. It holds thousands of lines, and fits on the stack.
pub const PAGE_ROOM: usize = 65_536;

/// Bytes that are written to a sink together. The buffer is part of the value, so nothing is allocated.
#[derive(Drop)]
pub struct Page {
    bytes: [u8; PAGE_ROOM],
    used: usize,
}

impl Model for Page {
    ghost use Rattle.std.specs.Prelude.{List, ℕ, ◌≤◌, take};
    ghost use Rattle.mapf_fields.specs.Pages.{page_room};

    ghost Value = { List ℕ };

    ghost view = { λ p. take p.used p.bytes };

    ghost invariant = { λ p. p.used ≤ page_room };
}

impl Page {
    /// Returns a page without bytes.
    pub fn empty() -> Page
        ensures { result ≡ [] }
    {
        Page {
            bytes: [0; PAGE_ROOM],
            used: 0,
        }
    }

    fn has_room(&self, count: usize) -> bool
        ensures { IsTrue result ↔ (length self.now + count ≤ page_room) }
    {
        count <= PAGE_ROOM - self.used
    }

    /// Adds bytes, for which there has to be room.
    #[inline]
    pub fn push_bytes(&mut self, bytes: &[u8])
        requires { length self.old + length bytes.now ≤ page_room }
        ensures { self.new ≡ self.old ++ bytes.now }
    {
        let end = self.used + bytes.len();
        self.bytes[self.used..end].copy_from_slice(bytes);
        self.used = end;
    }

    /// Adds a byte, for which there has to be room.
    #[inline]
    pub fn push_byte(&mut self, byte: u8)
        requires { length self.old < page_room }
        ensures { self.new ≡ self.old ++ (byte ∷ []) }
    {
        self.push_bytes(&[byte]);
    }

    /// Adds the separator `mark` and a number. Nearly all numbers that are printed are below 1000, so only the way that
    /// these take is part of the caller's code.
    #[inline(always)]
    pub fn push_field(&mut self, mark: u8, number: u64)
        requires { length self.old + field_room ≤ page_room }
        ensures text { self.new ≡ self.old ++ field mark number }
        ensures short { length self.new ≤ length self.old + field_room }
    {
        if number < 1000 {
            self.push_small_field(mark, number);
        } else {
            self.push_large_field(mark, number);
        }
    }

    // Adds the separator `mark` and a number below 1000. All four bytes of its spelling are copied, and those that are
    // no digits are then taken off the page, so that no branch depends on how many digits there are.
    #[inline(always)]
    fn push_small_field(&mut self, mark: u8, number: u64)
        requires room { length self.old + field_room ≤ page_room }
        requires small { number < 1000 }
        ensures text { self.new ≡ self.old ++ field mark number }
        ensures short { length self.new ≤ length self.old + field_room }
    {
        let word = spelling(number);
        let end = self.used + 1 + word[3] as usize;
        self.push_byte(mark);
        self.push_bytes(&word);
        self.shorten(end);
    }

    // Adds the separator `mark` and any number.
    #[inline(never)]
    fn push_large_field(&mut self, mark: u8, number: u64)
        requires { length self.old + field_room ≤ page_room }
        ensures text { self.new ≡ self.old ++ field mark number }
        ensures short { length self.new ≤ length self.old + field_room }
    {
        let mut buffer = Buffer::new();
        self.push_byte(mark);
        self.push_bytes(buffer.format(number).as_bytes());
    }

    // Keeps only the first so many bytes.
    #[inline(always)]
    fn shorten(&mut self, count: usize)
        requires { count ≤ length self.old }
        ensures { self.new ≡ take count self.old }
    {
        self.used = count;
    }

    fn clear(&mut self)
        ensures { self.new ≡ [] }
    {
        self.used = 0;
    }

    fn as_slice(&self) -> &[u8]
        ensures { result.now ≡ self.now }
    {
        &self.bytes[..self.used]
    }

    /// Writes the bytes of the page to the sink. The page is empty then, also if the sink failed.
    #[tactic(auto, using(crate::proofs::Prefixes::written))]
    pub fn flush<K: Sink>(&mut self, sink: &mut K) -> Result<(), Failed>
        requires { K.has_failed sink.old ≡ false }
        ensures text { WritesOrFails (K.contents sink.old) (K.contents sink.new) self.old result }
        ensures empty { self.new ≡ [] }
        ensures failed { K.has_failed sink.new ≡ is_err result }
    {
        let pushed = write_all(sink, self.as_slice());
        self.clear();
        pushed
    }

    /// Makes room for so many bytes: writes the page to the sink if they don't fit.
    #[inline]
    pub fn reserve<K: Sink>(&mut self, sink: &mut K, count: usize) -> Result<(), Failed>
        requires works { K.has_failed sink.old ≡ false }
        requires fits { count ≤ page_room }
        ensures text { PassesOrFails (K.contents sink.old) (K.contents sink.new) self.old self.new [] result }
        ensures room { OnOk result (length self.new + count ≤ page_room) }
        ensures failed { K.has_failed sink.new ≡ is_err result }
    {
        if self.has_room(count) {
            return Ok(());
        }
        self.flush(sink)
    }

    /// Adds bytes to the page, and writes it to the sink if they don't fit.
    pub fn put<K: Sink>(&mut self, sink: &mut K, bytes: &[u8]) -> Result<(), Failed>
        requires { K.has_failed sink.old ≡ false }
        ensures text { PassesOrFails (K.contents sink.old) (K.contents sink.new) self.old self.new bytes.now result }
        ensures failed { K.has_failed sink.new ≡ is_err result }
    {
        if self.has_room(bytes.len()) {
            self.push_bytes(bytes);
            return Ok(());
        }
        self.flush(sink)?;
        if self.has_room(bytes.len()) {
            self.push_bytes(bytes);
            return Ok(());
        }
        write_all(sink, bytes)
    }
}
