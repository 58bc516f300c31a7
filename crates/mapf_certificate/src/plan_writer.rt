//! The writer of plan texts: to a sink for plain search, or into memory for an answer that is checked first.
ghost use Rattle.std.specs.Prelude.{◌≡◌, ◌<◌, ◌≤◌, ◌+◌, ◌*◌, ◌++◌, ◌∷◌, [], codes, OnOk, IfOk, length, false};
ghost use Rattle.std.specs.Result.{is_err};
ghost use Rattle.mapf_model.specs.Limits.{most_agents};
ghost use Rattle.mapf_fields.specs.Numbers.{field};
ghost use Rattle.mapf_fields.specs.Pages.{PassesOrFails, WritesOrFails, page_room, field_room};
ghost use Rattle.mapf_certificate.specs.Lines.{line_room};
ghost use Rattle.mapf_certificate.specs.Plans.{cells_text, path_text, paths_text, cost_of, answer_text, plan_text};
ghost use Rattle.mapf_certificate.specs.Plans.{plan_title, cause_words, IsFew};

use crate::line_writer::{push_cell, push_one};
use crate::memory_sink::MemorySink;
use crate::plan_text::{PlanAnswer, PlanText};
use crate::text_writer::{LINE_ROOM, TextWriter};
use crate::version::Version;
use mapf_fields::Page;
use mapf_model::{Cause, Cell, Failed, Grid, OutOfMemory, Path, Sink};
use std::alloc::Global;

// Returns the sum of the paths' costs.
fn cost_of(paths: &[Path]) -> u64
    requires { length paths.now ≤ most_agents }
    ensures { result ≡ cost_of paths.now }
{
    let mut cost = 0u64;
    for path in paths {
        cost += path.cells().len() as u64 - 1;
    }
    cost
}

// Adds a line of a word and a number.
fn push_number_line(page: &mut Page, word: &[u8], number: u64)
    requires { length page.old + (length word.now + (field_room + 1)) ≤ page_room }
    ensures text { page.new ≡ page.old ++ (word.now ++ (field 32 number ++ (10 ∷ []))) }
    ensures short { length page.new ≤ length page.old + (length word.now + (field_room + 1)) }
{
    push_one(page, word, number);
    page.push_byte(b'\n');
}

// Adds the first two lines.
fn push_head(page: &mut Page, version: Version, agents: u32)
    requires { length page.old + line_room ≤ page_room }
    ensures { page.new ≡ page.old
        ++ (plan_title version ++ (10 ∷ (codes "agents" ++ (field 32 agents ++ (10 ∷ []))))) }
{
    match version {
        Version::One => page.push_bytes(b"mapf-plan 1\n"),
        Version::Two => page.push_bytes(b"mapf-plan 2\n"),
    }
    push_number_line(page, b"agents", agents as u64);
}

// Adds `limit` and why the search ended.
fn push_limit(page: &mut Page, cause: Cause)
    requires { length page.old + 2 * field_room ≤ page_room }
    ensures text { page.new ≡ page.old ++ (codes "limit" ++ cause_words cause) }
    ensures short { length page.new ≤ length page.old + 2 * field_room }
{
    match cause {
        Cause::Splits(count) => push_one(page, b"limit", count as u64),
        Cause::Ticks => page.push_bytes(b"limit ticks"),
    }
}

impl TextWriter {
    fn cells<K: Sink>(&mut self, sink: &mut K, cells: &[Cell]) -> Result<(), Failed>
        requires { K.has_failed sink.old ≡ false }
        ensures text { PassesOrFails (K.contents sink.old) (K.contents sink.new) self.old.page self.new.page
            (cells_text self.old.width cells.now) result }
        ensures width { self.new.width ≡ self.old.width }
        ensures failed { K.has_failed sink.new ≡ is_err result }
    {
        for cell in cells {
            self.page.reserve(sink, LINE_ROOM)?;
            push_cell(&mut self.page, *cell, self.width);
        }
        Ok(())
    }

    fn path<K: Sink>(&mut self, sink: &mut K, agent: u64, path: &Path) -> Result<(), Failed>
        requires { K.has_failed sink.old ≡ false }
        ensures text { PassesOrFails (K.contents sink.old) (K.contents sink.new) self.old.page self.new.page
            (path_text self.old.width agent path.now) result }
        ensures width { self.new.width ≡ self.old.width }
        ensures failed { K.has_failed sink.new ≡ is_err result }
    {
        let cells = path.cells();
        self.page.reserve(sink, LINE_ROOM)?;
        push_one(&mut self.page, b"path", agent);
        self.page.push_field(b' ', cells.len() as u64 - 1);
        self.cells(sink, cells)?;
        self.page.put(sink, b"\n")
    }

    fn paths<K: Sink>(&mut self, sink: &mut K, paths: &[Path]) -> Result<(), Failed>
        requires { K.has_failed sink.old ≡ false }
        ensures text { PassesOrFails (K.contents sink.old) (K.contents sink.new) self.old.page self.new.page
            (paths_text self.old.width 0 paths.now) result }
        ensures width { self.new.width ≡ self.old.width }
        ensures failed { K.has_failed sink.new ≡ is_err result }
    {
        for (agent, path) in paths.iter().enumerate() {
            self.path(sink, agent as u64, path)?;
        }
        Ok(())
    }

    fn answer<K: Sink>(&mut self, sink: &mut K, answer: &PlanAnswer) -> Result<(), Failed>
        requires works { K.has_failed sink.old ≡ false }
        requires few { IsFew answer.now }
        ensures text { PassesOrFails (K.contents sink.old) (K.contents sink.new) self.old.page self.new.page
            (answer_text self.old.width answer.now) result }
        ensures width { self.new.width ≡ self.old.width }
        ensures failed { K.has_failed sink.new ≡ is_err result }
    {
        self.page.reserve(sink, LINE_ROOM)?;
        match answer {
            PlanAnswer::Found(plan) => {
                push_number_line(&mut self.page, b"cost", cost_of(plan.paths()));
                self.paths(sink, plan.paths())?;
            }
            PlanAnswer::Impossible => self.page.push_bytes(b"impossible\n"),
            PlanAnswer::Limit(cause) => {
                push_limit(&mut self.page, *cause);
                self.page.push_byte(b'\n');
            }
            PlanAnswer::Bounded { cause, bound } => {
                push_limit(&mut self.page, *cause);
                push_number_line(&mut self.page, b" bound", *bound);
            }
        }
        Ok(())
    }

    /// Writes a plan text. `Failed` is returned only if the sink failed; it then got a prefix of that text.
    pub fn plan<K: Sink>(&mut self, sink: &mut K, text: &PlanText) -> Result<(), Failed>
        requires works { K.has_failed sink.old ≡ false }
        requires empty { self.old.page ≡ [] }
        requires few { IsFew text.now.answer }
        ensures text { WritesOrFails (K.contents sink.old) (K.contents sink.new)
            (plan_text self.old.width text.now) result }
        ensures empty { OnOk result (self.new.page ≡ []) }
        ensures width { self.new.width ≡ self.old.width }
        ensures failed { K.has_failed sink.new ≡ is_err result }
    {
        self.page.reserve(sink, LINE_ROOM)?;
        push_head(&mut self.page, text.version, text.agents);
        self.answer(sink, &text.answer)?;
        self.page.put(sink, b"end\n")?;
        self.page.flush(sink)
    }
}

/// Returns the plan text for a grid of this size.
pub fn write_plan(alloc: Global, text: &PlanText, grid: &Grid) -> Result<Vec<u8>, OutOfMemory>
    requires { IsFew text.now.answer }
    ensures { IfOk result (λ bytes. bytes.items ≡ plan_text grid.now.width text.now) }
{
    let mut sink = MemorySink::empty(alloc);
    let mut writer = TextWriter::of(grid);
    if writer.plan(&mut sink, text).is_err() {
        return Err(OutOfMemory);
    }
    Ok(sink.into_bytes())
}
