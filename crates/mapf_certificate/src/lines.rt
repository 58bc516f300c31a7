//! The lines of a certificate that comes from a source, counted for the errors. The reader of items takes them one by
//! one.
ghost use Rattle.mapf_certificate.specs.Buffered.{spare};
ghost use Rattle.mapf_certificate.specs.Bounded.{AreInOrder, AreSpelledApart, BeginsWithLine};
ghost use Rattle.mapf_certificate.specs.Certificates.{line_text};
ghost use Rattle.mapf_certificate.specs.Lines.{IsLine, width_of};
ghost use Rattle.mapf_certificate.specs.Untouched.{HasLine, TakesThere};
ghost use Rattle.mapf_certificate.specs.Window.{Window, BeginsWith, Fails, IsTextFault};
ghost use Rattle.std.specs.Io.KnownBytes.{IsAtEnd};
ghost use Rattle.std.specs.List.{flat_map};
ghost use Rattle.std.specs.Prelude.{◌≡◌, ◌≤◌, ◌+◌, List, IfOk, IfErr, OnOk, [], false};

use crate::buffer::LineBuffer;
use crate::cert::{CertFault, LinesFault};
use crate::line::CertLine;
use crate::listed::Listed;
use crate::sizes::Sizes;
use crate::tree_line::{Due, line_of};
use mapf_model::Source;
use std::alloc::Global;

/// For how many values of a list memory is requested at once. Most blocks have no more entries; and if a text announces
/// more than it has, this is little memory.
const AT_ONCE: u64 = 64;

/// The lines of a certificate that is read from a source.
#[derive(Drop)]
pub struct Lines {
    pub buffer: LineBuffer,
    // How many were taken: the number of the line that was taken last, counted from 1.
    pub count: u64,
}

impl Lines {
    /// Goes on with a buffer of which no line was taken.
    pub fn over(buffer: LineBuffer) -> Lines
        ensures { result.buffer ≡ buffer }
    {
        Lines { buffer, count: 0 }
    }

    /// Returns the error that the line taken last is out of place.
    pub fn misfit(&self) -> LinesFault
        ensures { IsTextFault result }
    {
        LinesFault::Text(CertFault::K1(self.count))
    }

    /// Takes the next line.
    #[inline(always)]
    pub fn next<S: Source>(&mut self, source: &mut S, due: &Due) -> Result<CertLine, LinesFault>
        requires { S.has_failed source.old ≡ false }
        ensures works { OnOk result (S.has_failed source.new ≡ false) }
        ensures nearer { OnOk result (spare self.new.buffer + 2 ≤ spare self.old.buffer) }
        ensures spare { spare self.new.buffer ≤ spare self.old.buffer }
        ensures line { IfOk result (λ line. IsLine due.now line) }
        ensures there { IfOk result (λ line. TakesThere source.old source.new self.old.buffer self.new.buffer
            (line_text (width_of due.now) line)) }
        ensures untouched { HasLine self.old.buffer → source.new ≡ source.old }
        ensures due { IfOk result (λ _. HasLine self.old.buffer → BeginsWithLine due.now self.old.buffer.bytes) }
        ensures taken { IfOk result (λ line. Window (S.remaining source.old) (S.remaining source.new)
            self.old.buffer self.new.buffer (line_text (width_of due.now) line)) }
        ensures fails { IfErr result (Fails (S.remaining source.old) (S.remaining source.new) (S.has_failed source.new)
            self.old.buffer (BeginsWithLine due.now)) }
    {
        self.count = self.count.saturating_add(1);
        match self.buffer.ready(source) {
            Ok(n) => {
                let line = line_of(due, self.buffer.front(n));
                self.buffer.take(n + 1);
                match line {
                    Ok(line) => Ok(line),
                    Err(fault) => Err(LinesFault::of_line(self.count, fault)),
                }
            }
            Err(why) => Err(LinesFault::without_line(self.count, why)),
        }
    }

    /// Checks that nothing is left.
    pub fn end<S: Source>(&mut self, source: &mut S) -> Result<(), LinesFault>
        requires { S.has_failed source.old ≡ false }
        ensures works { OnOk result (S.has_failed source.new ≡ false) }
        ensures spare { spare self.new.buffer ≤ spare self.old.buffer }
        ensures taken { OnOk result
            (Window (S.remaining source.old) (S.remaining source.new) self.old.buffer self.new.buffer []) }
        ensures ended { OnOk result (IsAtEnd (S.remaining source.new)) }
        ensures empty { OnOk result (self.new.buffer.bytes ≡ []) }
        ensures fails { IfErr result (Fails (S.remaining source.old) (S.remaining source.new) (S.has_failed source.new)
            self.old.buffer (λ text. text ≡ [])) }
    {
        self.buffer.end(source, self.count.saturating_add(1))
    }

    /// Reads so many values, which rise.
    pub fn list<T: Listed, S: Source>(
        &mut self,
        alloc: Global,
        source: &mut S,
        sizes: &Sizes,
        count: u64,
    ) -> Result<Vec<T>, LinesFault>
        requires works { S.has_failed source.old ≡ false }
        requires apart { AreSpelledApart T (T.is_for sizes.now) (T.text sizes.now.width) }
        ensures works { OnOk result (S.has_failed source.new ≡ false) }
        ensures spare { spare self.new.buffer ≤ spare self.old.buffer }
        ensures values { IfOk result (λ values.
            AreInOrder T (T.is_for sizes.now) T.precedes count values.items) }
        ensures there { IfOk result (λ values. TakesThere source.old source.new self.old.buffer self.new.buffer
            (flat_map (T.text sizes.now.width) values.items)) }
        ensures taken { IfOk result (λ values. Window (S.remaining source.old) (S.remaining source.new)
            self.old.buffer self.new.buffer (flat_map (T.text sizes.now.width) values.items)) }
        ensures fails { IfErr result (Fails (S.remaining source.old) (S.remaining source.new) (S.has_failed source.new)
            self.old.buffer (BeginsWith (List T) (AreInOrder T (T.is_for sizes.now) T.precedes count)
            (flat_map (T.text sizes.now.width)))) }
    {
        let Ok(mut values) = Vec::with_capacity(alloc, count.min(AT_ONCE) as usize) else {
            return Err(LinesFault::Memory);
        };
        for _taken in 0..count {
            let value = T::next_after(self, alloc, source, sizes, &values)?;
            if values.push(value).is_err() {
                return Err(LinesFault::Memory);
            }
        }
        Ok(values)
    }
}
