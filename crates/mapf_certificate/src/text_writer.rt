//! The page on which the run of `solve` writes both its texts. The writers of plan texts and of certificates add their
//! methods to it.
ghost use Rattle.std.specs.Prelude.{◌≡◌, ◌<◌, [], false};
ghost use Rattle.std.specs.Result.{is_err};
ghost use Rattle.mapf_fields.specs.Pages.{PassesOrFails};
ghost use Rattle.mapf_certificate.specs.Certificates.{line_text, entry_text};

use crate::line::CertLine;
use crate::line_writer::{push_entry_line, push_line};
use mapf_fields::Page;
use mapf_model::{Entry, Failed, Grid, Sink};

/// The room on the page that is reserved for a line of a certificate, and for each part of a line of a plan text, in
/// bytes.
pub const LINE_ROOM: usize = 189;

/// Writes the texts of a grid line by line, through a page. It allocates nothing.
#[derive(Drop)]
pub struct TextWriter {
    /// What was not yet written to the sink.
    pub page: Page,
    /// The grid's width, by which cells are written as x,y.
    pub width: u32,
    ghost some: { 0 < width },
}

impl TextWriter {
    /// Returns a writer with an empty page.
    pub fn of(grid: &Grid) -> TextWriter
        ensures page { result.page ≡ [] }
        ensures width { result.width ≡ grid.now.width }
    {
        TextWriter {
            page: Page::empty(),
            width: grid.width(),
        }
    }

    /// Writes a line of a certificate.
    pub(crate) fn line<K: Sink>(&mut self, sink: &mut K, line: &CertLine) -> Result<(), Failed>
        requires { K.has_failed sink.old ≡ false }
        ensures text { PassesOrFails (K.contents sink.old) (K.contents sink.new) self.old.page self.new.page
            (line_text self.old.width line.now) result }
        ensures width { self.new.width ≡ self.old.width }
        ensures failed { K.has_failed sink.new ≡ is_err result }
    {
        self.page.reserve(sink, LINE_ROOM)?;
        push_line(&mut self.page, line, self.width);
        Ok(())
    }

    /// Writes the line of an entry.
    pub(crate) fn entry<K: Sink>(&mut self, sink: &mut K, entry: &Entry) -> Result<(), Failed>
        requires { K.has_failed sink.old ≡ false }
        ensures text { PassesOrFails (K.contents sink.old) (K.contents sink.new) self.old.page self.new.page
            (entry_text self.old.width entry.now) result }
        ensures width { self.new.width ≡ self.old.width }
        ensures failed { K.has_failed sink.new ≡ is_err result }
    {
        self.page.reserve(sink, LINE_ROOM)?;
        push_entry_line(&mut self.page, entry, self.width);
        Ok(())
    }
}
