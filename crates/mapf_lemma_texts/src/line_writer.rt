//! How a line of version 3 is put on a page, for the writer of texts.
ghost use Rattle.std.specs.Prelude.{◌≡◌, ◌<◌, ◌≤◌, ◌+◌, ◌*◌, ◌++◌, length};
ghost use Rattle.mapf_fields.specs.Numbers.{field, pair};
ghost use Rattle.mapf_fields.specs.Pages.{field_room, page_room};
ghost use Rattle.mapf_lemma_texts.specs.Lines.{words, amount_words, list_words, price_words, constraint_words};
ghost use Rattle.mapf_lemma_texts.specs.Lines.{joint_words, line_text, line_room};

use crate::line::LemmaLine;
use mapf_fields::Page;
use mapf_lemmas::{
    AgentConstraint, Amount, JointEntry, JointState, PathConstraint, Price, PricedEntry,
};
use mapf_model::{Cell, Claim};

/// The room on the page that is reserved for a line, in bytes.
pub const LINE_ROOM: usize = 168;

// Adds the column and the row of a cell, each after its separator.
#[inline]
fn push_cell(page: &mut Page, cell: Cell, width: u32)
    requires wide { 0 < width }
    requires room { length page.old + 2 * field_room ≤ page_room }
    ensures text { page.new ≡ page.old ++ pair width cell }
    ensures short { length page.new ≤ length page.old + 2 * field_room }
{
    page.push_field(b' ', (cell.0 % width) as u64);
    page.push_field(b',', (cell.0 / width) as u64);
}

// Adds a word and a number.
#[inline]
fn push_one(page: &mut Page, word: &[u8], number: u64)
    requires { length page.old + (length word.now + field_room) ≤ page_room }
    ensures text { page.new ≡ page.old ++ (word.now ++ field 32 number) }
    ensures short { length page.new ≤ length page.old + (length word.now + field_room) }
{
    page.push_bytes(word);
    page.push_field(b' ', number);
}

// Adds two numbers.
#[inline]
fn push_pair(page: &mut Page, a: u64, b: u64)
    requires { length page.old + 2 * field_room ≤ page_room }
    ensures text { page.new ≡ page.old ++ (field 32 a ++ field 32 b) }
    ensures short { length page.new ≤ length page.old + 2 * field_room }
{
    page.push_field(b' ', a);
    page.push_field(b' ', b);
}

// Adds a word and two numbers.
#[inline]
fn push_two(page: &mut Page, word: &[u8], a: u64, b: u64)
    requires { length page.old + (length word.now + 2 * field_room) ≤ page_room }
    ensures text { page.new ≡ page.old ++ (word.now ++ (field 32 a ++ field 32 b)) }
    ensures short { length page.new ≤ length page.old + (length word.now + 2 * field_room) }
{
    page.push_bytes(word);
    page.push_field(b' ', a);
    page.push_field(b' ', b);
}

#[inline]
fn push_amount(page: &mut Page, amount: Amount)
    requires { length page.old + field_room ≤ page_room }
    ensures text { page.new ≡ page.old ++ amount_words amount }
    ensures short { length page.new ≤ length page.old + field_room }
{
    match amount.units() {
        Some(units) => page.push_field(b' ', units),
        None => page.push_bytes(b" inf"),
    }
}

fn push_list(page: &mut Page, list_number: Option<u64>)
    requires { length page.old + field_room ≤ page_room }
    ensures text { page.new ≡ page.old ++ list_words list_number }
    ensures short { length page.new ≤ length page.old + field_room }
{
    match list_number {
        Some(number) => page.push_field(b' ', number),
        None => page.push_bytes(b" -"),
    }
}

fn push_claim(page: &mut Page, claim: Claim)
    requires room { length page.old + line_room ≤ page_room }
    ensures text { page.new ≡ page.old ++ words 1 (LemmaLine.Claim claim) }
    ensures short { length page.new < length page.old + line_room }
{
    match claim {
        Claim::Cost(cost) => push_one(page, b"claim cost", cost),
        Claim::Bound(bound) => push_one(page, b"claim bound", bound),
        Claim::Impossible => page.push_bytes(b"claim impossible"),
    }
}

fn push_price(page: &mut Page, price: &Price, width: u32)
    requires wide { 0 < width }
    requires room { length page.old + line_room ≤ page_room }
    ensures text { page.new ≡ page.old ++ price_words width price.now }
    ensures short { length page.new < length page.old + line_room }
{
    page.push_bytes(b"price");
    match *price {
        Price::Cell { cell, tick, amount } => {
            push_cell(page, cell, width);
            push_pair(page, tick as u64, amount as u64);
        }
        Price::Edge {
            from,
            to,
            tick,
            amount,
        } => {
            push_cell(page, from, width);
            push_cell(page, to, width);
            push_pair(page, tick as u64, amount as u64);
        }
    }
}

fn push_constraint(page: &mut Page, of_agent: &AgentConstraint, width: u32)
    requires wide { 0 < width }
    requires room { length page.old + line_room ≤ page_room }
    ensures text { page.new ≡ page.old ++ constraint_words width of_agent.now.agent of_agent.now.constraint }
    ensures short { length page.new < length page.old + line_room }
{
    let agent = of_agent.agent as u64;
    match of_agent.constraint {
        PathConstraint::NotAt { cell, tick } => {
            push_one(page, b"not", agent);
            push_cell(page, cell, width);
            page.push_field(b' ', tick as u64);
        }
        PathConstraint::NotMove { from, to, tick } => {
            push_one(page, b"not", agent);
            push_cell(page, from, width);
            push_cell(page, to, width);
            page.push_field(b' ', tick as u64);
        }
        PathConstraint::Clear { cell, tick } => {
            push_one(page, b"clear", agent);
            push_cell(page, cell, width);
            page.push_field(b' ', tick as u64);
        }
        PathConstraint::Most { ticks } => push_two(page, b"most", agent, ticks as u64),
        PathConstraint::Least { ticks } => push_two(page, b"least", agent, ticks as u64),
    }
}

// Most lines of a certificate are entries, so their line is written without a call.
#[inline(always)]
fn push_entry(page: &mut Page, entry: &PricedEntry, width: u32)
    requires wide { 0 < width }
    requires room { length page.old + line_room ≤ page_room }
    ensures text { page.new ≡ page.old ++ words width (LemmaLine.At entry.now) }
    ensures short { length page.new < length page.old + line_room }
{
    page.push_byte(b'a');
    page.push_byte(b't');
    push_cell(page, entry.cell, width);
    page.push_field(b' ', entry.tick as u64);
    push_amount(page, entry.label);
}

fn push_joint(page: &mut Page, entry: &JointEntry, width: u32)
    requires wide { 0 < width }
    requires room { length page.old + line_room ≤ page_room }
    ensures text { page.new ≡ page.old ++ joint_words width entry.now.state entry.now.tick entry.now.label }
    ensures short { length page.new < length page.old + line_room }
{
    page.push_bytes(b"at");
    match entry.state {
        JointState::Both { first, second } => {
            push_cell(page, first, width);
            push_cell(page, second, width);
        }
        JointState::FirstAlone { first } => {
            push_cell(page, first, width);
            page.push_bytes(b" *");
        }
        JointState::SecondAlone { second } => {
            page.push_bytes(b" *");
            push_cell(page, second, width);
        }
    }
    page.push_field(b' ', entry.tick as u64);
    push_amount(page, entry.label);
}

fn push_words(page: &mut Page, line: &LemmaLine, width: u32)
    requires wide { 0 < width }
    requires room { length page.old + line_room ≤ page_room }
    ensures text { page.new ≡ page.old ++ words width line.now }
    ensures short { length page.new < length page.old + line_room }
{
    match *line {
        LemmaLine::Title => page.push_bytes(b"mapf-cert 3"),
        LemmaLine::Agents(agents) => push_one(page, b"agents", agents as u64),
        LemmaLine::Claim(claim) => push_claim(page, claim),
        LemmaLine::Prices(lists) => push_one(page, b"prices", lists),
        LemmaLine::List { unit, prices } => push_two(page, b"list", unit as u64, prices),
        LemmaLine::Price(price) => push_price(page, &price, width),
        LemmaLine::Lemmas(lemmas) => push_one(page, b"lemmas", lemmas),
        LemmaLine::One {
            agent,
            constraints,
            entries,
            list_number,
        } => {
            push_two(page, b"one", agent as u64, constraints as u64);
            page.push_field(b' ', entries);
            push_list(page, list_number);
        }
        LemmaLine::Two {
            first,
            second,
            constraints,
            first_entries,
            second_entries,
            joint_entries,
            list_number,
        } => {
            push_two(page, b"two", first as u64, second as u64);
            push_pair(page, constraints as u64, first_entries);
            push_pair(page, second_entries, joint_entries);
            push_list(page, list_number);
        }
        LemmaLine::Never {
            first,
            second,
            cells,
        } => {
            push_two(page, b"never", first as u64, second as u64);
            page.push_field(b' ', cells);
        }
        LemmaLine::Cases {
            agents,
            constraints,
            bound,
        } => {
            push_two(page, b"cases", agents as u64, constraints as u64);
            push_amount(page, bound);
        }
        LemmaLine::Agent(agent) => push_one(page, b"agent", agent as u64),
        LemmaLine::Constraint(constraint) => push_constraint(page, &constraint, width),
        LemmaLine::At(entry) => push_entry(page, &entry, width),
        LemmaLine::JointAt(entry) => push_joint(page, &entry, width),
        LemmaLine::Cells(cells) => {
            page.push_bytes(b"cells");
            push_cell(page, cells.first, width);
            push_cell(page, cells.second, width);
        }
        LemmaLine::Vertex { i, j, cell, tick } => {
            push_two(page, b"vertex", i as u64, j as u64);
            push_cell(page, cell, width);
            page.push_field(b' ', tick as u64);
        }
        LemmaLine::Swap {
            i,
            j,
            from,
            to,
            tick,
        } => {
            push_two(page, b"swap", i as u64, j as u64);
            push_cell(page, from, width);
            push_cell(page, to, width);
            page.push_field(b' ', tick as u64);
        }
        LemmaLine::Cost { i, ticks } => push_two(page, b"cost", i as u64, ticks as u64),
        LemmaLine::Costs {
            i,
            ticks,
            j,
            least,
            lemma,
        } => {
            push_two(page, b"costs", i as u64, ticks as u64);
            push_pair(page, j as u64, least as u64);
            page.push_field(b' ', lemma);
        }
        LemmaLine::Clash { i, j } => push_two(page, b"clash", i as u64, j as u64),
        LemmaLine::Leaf {
            uses,
            groups,
            list_number,
        } => {
            push_two(page, b"leaf", uses as u64, groups as u64);
            push_list(page, list_number);
        }
        LemmaLine::Use(lemma) => push_one(page, b"use", lemma),
        LemmaLine::Group { uses, divisor } => push_two(page, b"group", uses as u64, divisor as u64),
        LemmaLine::WeightedUse(used) => push_two(page, b"use", used.lemma, used.weight as u64),
        LemmaLine::End => page.push_bytes(b"end"),
    }
}

/// Adds a line with its LF.
pub fn push_line(page: &mut Page, line: &LemmaLine, width: u32)
    requires wide { 0 < width }
    requires room { length page.old + line_room ≤ page_room }
    ensures text { page.new ≡ page.old ++ line_text width line.now }
    ensures short { length page.new ≤ length page.old + line_room }
{
    push_words(page, line, width);
    page.push_byte(b'\n');
}

/// Adds the line of an entry with its LF. It is made part of the loops that call it, so that no entry is put into
/// memory to be read from there again.
#[inline(always)]
pub fn push_entry_line(page: &mut Page, entry: &PricedEntry, width: u32)
    requires wide { 0 < width }
    requires room { length page.old + line_room ≤ page_room }
    ensures text { page.new ≡ page.old ++ line_text width (LemmaLine.At entry.now) }
    ensures short { length page.new ≤ length page.old + line_room }
{
    push_entry(page, entry, width);
    page.push_byte(b'\n');
}
