//! The writer of parts of certificates of version 3. A solver writes with it what `PartReader` reads.
ghost use Rattle.mapf_fields.specs.Pages.{PassesOrFails};
ghost use Rattle.mapf_lemma_texts.specs.Listing.{values_text};
ghost use Rattle.mapf_lemma_texts.specs.PartWriting.{HasFewUses, HasFewValues};
ghost use Rattle.mapf_lemma_texts.specs.Parts.{first_line, group_text, groups_text, more_text, part_text};
ghost use Rattle.std.specs.Prelude.{◌≡◌, ◌++◌, All, false};
ghost use Rattle.std.specs.Result.{is_err};

use crate::line::LemmaLine;
use crate::listed::Listed;
use crate::part::Part;
use crate::text_writer::LemmaWriter;
use mapf_lemmas::Group;
use mapf_model::{Failed, Sink};

// Returns the first line of a part.
fn first_line(part: &Part) -> LemmaLine
    requires { HasFewValues part.now }
    ensures { result ≡ first_line part.now }
{
    match part {
        Part::Prices(lists) => LemmaLine::Prices(*lists),
        Part::List(list) => LemmaLine::List {
            unit: list.unit,
            prices: list.prices.len() as u64,
        },
        Part::Lemmas(lemmas) => LemmaLine::Lemmas(*lemmas),
        Part::One(lemma) => LemmaLine::One {
            agent: lemma.agent,
            constraints: lemma.constraints.len() as u32,
            entries: lemma.entries.len() as u64,
            list_number: lemma.list_number,
        },
        Part::Two(lemma) => LemmaLine::Two {
            first: lemma.i,
            second: lemma.j,
            constraints: lemma.constraints.len() as u32,
            first_entries: lemma.first.len() as u64,
            second_entries: lemma.second.len() as u64,
            joint_entries: lemma.joint.len() as u64,
            list_number: lemma.list_number,
        },
        Part::Never(lemma) => LemmaLine::Never {
            first: lemma.i,
            second: lemma.j,
            cells: lemma.cells.len() as u64,
        },
        Part::Cases(lemma) => LemmaLine::Cases {
            agents: lemma.agents.len() as u32,
            constraints: lemma.constraints.len() as u32,
            bound: lemma.bound,
        },
        Part::Leaf(leaf) => LemmaLine::Leaf {
            uses: leaf.singles.len() as u32,
            groups: leaf.groups.len() as u32,
            list_number: leaf.list_number,
        },
        Part::Vertex { i, j, cell, tick } => LemmaLine::Vertex {
            i: *i,
            j: *j,
            cell: *cell,
            tick: *tick,
        },
        Part::Swap {
            i,
            j,
            from,
            to,
            tick,
        } => LemmaLine::Swap {
            i: *i,
            j: *j,
            from: *from,
            to: *to,
            tick: *tick,
        },
        Part::Cost { i, ticks } => LemmaLine::Cost {
            i: *i,
            ticks: *ticks,
        },
        Part::Costs {
            i,
            ticks,
            j,
            least,
            lemma,
        } => LemmaLine::Costs {
            i: *i,
            ticks: *ticks,
            j: *j,
            least: *least,
            lemma: *lemma,
        },
        Part::Clash { i, j } => LemmaLine::Clash { i: *i, j: *j },
    }
}

impl LemmaWriter {
    // Writes the lines of values.
    fn values<T: Listed, K: Sink>(&mut self, sink: &mut K, values: &[T]) -> Result<(), Failed>
        requires { K.has_failed sink.old ≡ false }
        ensures text { PassesOrFails (K.contents sink.old) (K.contents sink.new) self.old.page self.new.page
            (values_text self.old.width T.line_of values.now) result }
        ensures width { self.new.width ≡ self.old.width }
        ensures failed { K.has_failed sink.new ≡ is_err result }
    {
        for value in values {
            self.line(sink, &value.to_line())?;
        }
        Ok(())
    }

    // Writes the lines of values, and then those of others.
    fn both<T: Listed, U: Listed, K: Sink>(
        &mut self,
        sink: &mut K,
        values: &[T],
        others: &[U],
    ) -> Result<(), Failed>
        requires { K.has_failed sink.old ≡ false }
        ensures text { PassesOrFails (K.contents sink.old) (K.contents sink.new) self.old.page self.new.page
            (values_text self.old.width T.line_of values.now ++ values_text self.old.width U.line_of others.now)
            result }
        ensures width { self.new.width ≡ self.old.width }
        ensures failed { K.has_failed sink.new ≡ is_err result }
    {
        self.values(sink, values)?;
        self.values(sink, others)
    }

    // Writes the lines of a group.
    fn group<K: Sink>(&mut self, sink: &mut K, group: &Group) -> Result<(), Failed>
        requires works { K.has_failed sink.old ≡ false }
        requires few { HasFewUses group.now }
        ensures text { PassesOrFails (K.contents sink.old) (K.contents sink.new) self.old.page self.new.page
            (group_text self.old.width group.now) result }
        ensures width { self.new.width ≡ self.old.width }
        ensures failed { K.has_failed sink.new ≡ is_err result }
    {
        let first = LemmaLine::Group {
            uses: group.uses.len() as u32,
            divisor: group.divisor,
        };
        self.line(sink, &first)?;
        self.values(sink, &group.uses)
    }

    // Writes the lines of groups.
    fn groups<K: Sink>(&mut self, sink: &mut K, groups: &[Group]) -> Result<(), Failed>
        requires works { K.has_failed sink.old ≡ false }
        requires few { All HasFewUses groups.now }
        ensures text { PassesOrFails (K.contents sink.old) (K.contents sink.new) self.old.page self.new.page
            (groups_text self.old.width groups.now) result }
        ensures width { self.new.width ≡ self.old.width }
        ensures failed { K.has_failed sink.new ≡ is_err result }
    {
        for group in groups {
            self.group(sink, group)?;
        }
        Ok(())
    }

    // Writes the lines of a part after its first.
    fn rest<K: Sink>(&mut self, sink: &mut K, part: &Part) -> Result<(), Failed>
        requires works { K.has_failed sink.old ≡ false }
        requires few { HasFewValues part.now }
        ensures text { PassesOrFails (K.contents sink.old) (K.contents sink.new) self.old.page self.new.page
            (more_text self.old.width part.now) result }
        ensures width { self.new.width ≡ self.old.width }
        ensures failed { K.has_failed sink.new ≡ is_err result }
    {
        match part {
            Part::List(list) => self.values(sink, &list.prices),
            Part::One(lemma) => self.both(sink, &lemma.constraints, &lemma.entries),
            Part::Two(lemma) => {
                self.both(sink, &lemma.constraints, &lemma.first)?;
                self.both(sink, &lemma.second, &lemma.joint)
            }
            Part::Never(lemma) => self.values(sink, &lemma.cells),
            Part::Cases(lemma) => self.both(sink, &lemma.agents, &lemma.constraints),
            Part::Leaf(leaf) => {
                self.values(sink, &leaf.singles)?;
                self.groups(sink, &leaf.groups)
            }
            _ => Ok(()),
        }
    }

    /// Writes the lines of a part.
    pub fn part<K: Sink>(&mut self, sink: &mut K, part: &Part) -> Result<(), Failed>
        requires works { K.has_failed sink.old ≡ false }
        requires few { HasFewValues part.now }
        ensures text { PassesOrFails (K.contents sink.old) (K.contents sink.new) self.old.page self.new.page
            (part_text self.old.width part.now) result }
        ensures width { self.new.width ≡ self.old.width }
        ensures failed { K.has_failed sink.new ≡ is_err result }
    {
        self.line(sink, &first_line(part))?;
        self.rest(sink, part)
    }
}
