//! The page on which certificates of version 3 are written. The writer of their parts adds its methods to it.
ghost use Rattle.std.specs.Prelude.{◌≡◌, ◌<◌, [], false};
ghost use Rattle.std.specs.Result.{is_err};
ghost use Rattle.mapf_fields.specs.Pages.{PassesOrFails, WritesOrFails};
ghost use Rattle.mapf_lemma_texts.specs.Lines.{line_text};

use crate::line::LemmaLine;
use crate::line_writer::{LINE_ROOM, push_entry_line, push_line};
use mapf_fields::Page;
use mapf_lemmas::PricedEntry;
use mapf_model::{Failed, Grid, Sink};

/// Writes certificates of version 3 of a grid line by line, through a page. It allocates nothing.
#[derive(Drop)]
pub struct LemmaWriter {
    /// What was not yet written to the sink.
    pub page: Page,
    /// The grid's width, by which cells are written as x,y.
    pub width: u32,
    ghost some: { 0 < width },
}

impl LemmaWriter {
    /// Returns a writer with an empty page.
    pub fn of(grid: &Grid) -> LemmaWriter
        ensures page { result.page ≡ [] }
        ensures width { result.width ≡ grid.now.width }
    {
        LemmaWriter {
            page: Page::empty(),
            width: grid.width(),
        }
    }

    /// Writes a line.
    pub fn line<K: Sink>(&mut self, sink: &mut K, line: &LemmaLine) -> Result<(), Failed>
        requires { K.has_failed sink.old ≡ false }
        ensures text { PassesOrFails (K.contents sink.old) (K.contents sink.new) self.old.page self.new.page
            (line_text self.old.width line.now) result }
        ensures width { self.new.width ≡ self.old.width }
        ensures failed { K.has_failed sink.new ≡ is_err result }
    {
        self.page.reserve(sink, LINE_ROOM)?;
        push_line(&mut self.page, line, self.width);
        Ok(())
    }

    /// Writes the line of an entry.
    pub fn entry<K: Sink>(&mut self, sink: &mut K, entry: &PricedEntry) -> Result<(), Failed>
        requires { K.has_failed sink.old ≡ false }
        ensures text { PassesOrFails (K.contents sink.old) (K.contents sink.new) self.old.page self.new.page
            (line_text self.old.width (LemmaLine.At entry.now)) result }
        ensures width { self.new.width ≡ self.old.width }
        ensures failed { K.has_failed sink.new ≡ is_err result }
    {
        self.page.reserve(sink, LINE_ROOM)?;
        push_entry_line(&mut self.page, entry, self.width);
        Ok(())
    }

    /// Writes what is still on the page.
    pub fn finish<K: Sink>(&mut self, sink: &mut K) -> Result<(), Failed>
        requires { K.has_failed sink.old ≡ false }
        ensures text { WritesOrFails (K.contents sink.old) (K.contents sink.new) self.old.page result }
        ensures empty { self.new.page ≡ [] }
        ensures width { self.new.width ≡ self.old.width }
        ensures failed { K.has_failed sink.new ≡ is_err result }
    {
        self.page.flush(sink)
    }
}
