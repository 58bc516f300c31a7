//! The lines of a certificate of version 3 that comes from a source, counted for the errors. The reader of parts takes
//! them one by one.
ghost use Rattle.mapf_certificate.specs.Buffered.{spare};
ghost use Rattle.mapf_certificate.specs.Untouched.{HasLine, TakesThere};
ghost use Rattle.mapf_certificate.specs.Window.{Window, Fails, IsTextFault};
ghost use Rattle.mapf_lemma_texts.specs.Lines.{IsLine, width_of, line_text};
ghost use Rattle.mapf_lemma_texts.specs.Beginnings.{BeginsWithLine};
ghost use Rattle.std.specs.Io.KnownBytes.{IsAtEnd};
ghost use Rattle.std.specs.Prelude.{◌≡◌, ◌≤◌, ◌+◌, IfOk, IfErr, OnOk, [], false};

use crate::front_reader::label_there;
use crate::line::LemmaLine;
use crate::line_reader::line_of;
use crate::sizes::LinePlace;
use mapf_certificate::{CertFault, LineBuffer, LinesFault};
use mapf_model::Source;

/// The lines of a certificate of version 3 that is read from a source.
#[derive(Drop)]
pub struct LemmaLines {
    /// What came from the source and wasn't taken yet.
    pub buffer: LineBuffer,
    /// How many lines were taken: the number of the line that was taken last, counted from 1.
    pub count: u64,
}

impl LemmaLines {
    /// Reads lines whose first bytes are in a buffer already.
    pub fn over(buffer: LineBuffer) -> LemmaLines
        ensures { result.buffer ≡ buffer }
    {
        LemmaLines { buffer, count: 0 }
    }

    /// Returns the error that the line taken last is out of place.
    pub fn misfit(&self) -> LinesFault
        ensures { IsTextFault result }
    {
        LinesFault::Text(CertFault::K1(self.count))
    }

    /// Takes the next line, which has to be one that may come there.
    #[inline(always)]
    pub fn next<S: Source>(
        &mut self,
        source: &mut S,
        place: &LinePlace,
    ) -> Result<LemmaLine, LinesFault>
        requires { S.has_failed source.old ≡ false }
        ensures works { OnOk result (S.has_failed source.new ≡ false) }
        ensures nearer { OnOk result (spare self.new.buffer + 2 ≤ spare self.old.buffer) }
        ensures spare { spare self.new.buffer ≤ spare self.old.buffer }
        // The line may come there, and the text that was taken is its words with LF.
        ensures line { IfOk result (λ line. IsLine place.now line) }
        ensures taken { IfOk result (λ line. Window (S.remaining source.old) (S.remaining source.new)
            self.old.buffer self.new.buffer (line_text (width_of place.now) line)) }
        // Of a line that is in the buffer the source isn't asked.
        ensures there { IfOk result (λ line. TakesThere source.old source.new self.old.buffer self.new.buffer
            (line_text (width_of place.now) line)) }
        ensures untouched { HasLine self.old.buffer → source.new ≡ source.old }
        ensures begins { IfOk result (λ _. HasLine self.old.buffer
            → BeginsWithLine place.now self.old.buffer.bytes) }
        // An error of the text says that it begins with no line that may come there.
        ensures fails { IfErr result (Fails (S.remaining source.old) (S.remaining source.new) (S.has_failed source.new)
            self.old.buffer (BeginsWithLine place.now)) }
    {
        self.count = self.count.saturating_add(1);
        if let Some((line, length)) = label_there(&self.buffer, place) {
            self.buffer.take(length);
            return Ok(line);
        }
        match self.buffer.ready(source) {
            Ok(n) => {
                let line = line_of(place, self.buffer.front(n));
                self.buffer.take(n + 1);
                match line {
                    Ok(line) => Ok(line),
                    Err(fault) => Err(LinesFault::of_line(self.count, fault)),
                }
            }
            Err(why) => Err(LinesFault::without_line(self.count, why)),
        }
    }

    /// Checks that nothing is left.
    pub fn end<S: Source>(&mut self, source: &mut S) -> Result<(), LinesFault>
        requires { S.has_failed source.old ≡ false }
        ensures works { OnOk result (S.has_failed source.new ≡ false) }
        ensures spare { spare self.new.buffer ≤ spare self.old.buffer }
        ensures taken { OnOk result
            (Window (S.remaining source.old) (S.remaining source.new) self.old.buffer self.new.buffer []) }
        ensures ended { OnOk result (IsAtEnd (S.remaining source.new)) }
        ensures empty { OnOk result (self.new.buffer.bytes ≡ []) }
        ensures fails { IfErr result (Fails (S.remaining source.old) (S.remaining source.new) (S.has_failed source.new)
            self.old.buffer (λ text. text ≡ [])) }
    {
        self.buffer.end(source, self.count.saturating_add(1))
    }
}
