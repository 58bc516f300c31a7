//! How a line of a certificate is put on a page, for the writer of texts. The writer of plan texts puts cells and
//! numbers by the same functions.
ghost use Rattle.std.specs.Prelude.{◌≡◌, ◌<◌, ◌≤◌, ◌+◌, ◌*◌, ◌++◌, length};
ghost use Rattle.mapf_fields.specs.Numbers.{field, pair};
ghost use Rattle.mapf_fields.specs.Pages.{field_room, page_room};
ghost use Rattle.mapf_certificate.specs.Lines.{words, title_words, split_words, count_words, label_words, line_room};
ghost use Rattle.mapf_certificate.specs.Certificates.{line_text, entry_text};

use crate::line::CertLine;
use crate::version::Version;
use mapf_fields::Page;
use mapf_model::{Cell, Claim, Conflict, Entry, Label};

/// Adds the column and the row of a cell, each after its separator.
#[inline]
pub fn push_cell(page: &mut Page, cell: Cell, width: u32)
    requires wide { 0 < width }
    requires room { length page.old + 2 * field_room ≤ page_room }
    ensures text { page.new ≡ page.old ++ pair width cell }
    ensures short { length page.new ≤ length page.old + 2 * field_room }
{
    page.push_field(b' ', (cell.0 % width) as u64);
    page.push_field(b',', (cell.0 / width) as u64);
}

/// Adds a word and a number.
#[inline]
pub fn push_one(page: &mut Page, word: &[u8], number: u64)
    requires { length page.old + (length word.now + field_room) ≤ page_room }
    ensures text { page.new ≡ page.old ++ (word.now ++ field 32 number) }
    ensures short { length page.new ≤ length page.old + (length word.now + field_room) }
{
    page.push_bytes(word);
    page.push_field(b' ', number);
}

#[inline]
fn push_two(page: &mut Page, word: &[u8], a: u64, b: u64)
    requires { length page.old + (length word.now + 2 * field_room) ≤ page_room }
    ensures text { page.new ≡ page.old ++ (word.now ++ (field 32 a ++ field 32 b)) }
    ensures short { length page.new ≤ length page.old + (length word.now + 2 * field_room) }
{
    page.push_bytes(word);
    page.push_field(b' ', a);
    page.push_field(b' ', b);
}

#[inline]
fn push_label(page: &mut Page, label: Label)
    requires { length page.old + field_room ≤ page_room }
    ensures text { page.new ≡ page.old ++ label_words label }
    ensures short { length page.new ≤ length page.old + field_room }
{
    match label {
        Label::Ticks(ticks) => page.push_field(b' ', ticks as u64),
        Label::Never => page.push_bytes(b" inf"),
    }
}

// Most lines of a certificate are entries, so their line is written without a call.
#[inline(always)]
fn push_entry(page: &mut Page, entry: &Entry, width: u32)
    requires wide { 0 < width }
    requires room { length page.old + line_room ≤ page_room }
    ensures text { page.new ≡ page.old ++ words width (CertLine.At entry.now) }
    ensures short { length page.new < length page.old + line_room }
{
    page.push_byte(b'a');
    page.push_byte(b't');
    push_cell(page, entry.cell, width);
    page.push_field(b' ', entry.tick as u64);
    push_label(page, entry.label);
}

fn push_title(page: &mut Page, version: Version)
    requires { length page.old + field_room ≤ page_room }
    ensures text { page.new ≡ page.old ++ title_words version }
    ensures short { length page.new ≤ length page.old + field_room }
{
    match version {
        Version::One => page.push_bytes(b"mapf-cert 1"),
        Version::Two => page.push_bytes(b"mapf-cert 2"),
    }
}

fn push_count(page: &mut Page, blocks: Option<u64>)
    requires { length page.old + field_room ≤ page_room }
    ensures text { page.new ≡ page.old ++ count_words blocks }
    ensures short { length page.new ≤ length page.old + field_room }
{
    if let Some(blocks) = blocks {
        page.push_field(b' ', blocks);
    }
}

fn push_split(page: &mut Page, conflict: &Conflict, blocks: Option<u64>, width: u32)
    requires wide { 0 < width }
    requires room { length page.old + line_room ≤ page_room }
    ensures text { page.new ≡ page.old ++ split_words width conflict.now blocks }
    ensures short { length page.new < length page.old + line_room }
{
    match *conflict {
        Conflict::Vertex { i, j, cell, tick } => {
            push_two(page, b"vertex", i as u64, j as u64);
            push_cell(page, cell, width);
            page.push_field(b' ', tick as u64);
            push_count(page, blocks);
        }
        Conflict::Swap {
            i,
            j,
            from,
            to,
            tick,
        } => {
            push_two(page, b"swap", i as u64, j as u64);
            push_cell(page, from, width);
            push_cell(page, to, width);
            page.push_field(b' ', tick as u64);
            push_count(page, blocks);
        }
    }
}

fn push_words(page: &mut Page, line: &CertLine, width: u32)
    requires wide { 0 < width }
    requires room { length page.old + line_room ≤ page_room }
    ensures text { page.new ≡ page.old ++ words width line.now }
    ensures short { length page.new < length page.old + line_room }
{
    match *line {
        CertLine::Title(version) => push_title(page, version),
        CertLine::Agents(agents) => push_one(page, b"agents", agents as u64),
        CertLine::Claim(Claim::Cost(cost)) => push_one(page, b"claim cost", cost),
        CertLine::Claim(Claim::Bound(bound)) => push_one(page, b"claim bound", bound),
        CertLine::Claim(Claim::Impossible) => page.push_bytes(b"claim impossible"),
        CertLine::Split { conflict, blocks } => push_split(page, &conflict, blocks, width),
        CertLine::Leaf(blocks) => push_one(page, b"leaf", blocks),
        CertLine::Clash { i, j } => push_two(page, b"clash", i as u64, j as u64),
        CertLine::Agent { agent, entries } => push_two(page, b"agent", agent as u64, entries),
        CertLine::At(entry) => push_entry(page, &entry, width),
        CertLine::End => page.push_bytes(b"end"),
    }
}

/// Adds a line with its LF.
pub fn push_line(page: &mut Page, line: &CertLine, width: u32)
    requires wide { 0 < width }
    requires room { length page.old + line_room ≤ page_room }
    ensures text { page.new ≡ page.old ++ line_text width line.now }
    ensures short { length page.new ≤ length page.old + line_room }
{
    push_words(page, line, width);
    page.push_byte(b'\n');
}

/// Adds the line of an entry with its LF. It is made part of the loops that call it, so that no entry is put into
/// memory to be read from there again.
#[inline(always)]
pub fn push_entry_line(page: &mut Page, entry: &Entry, width: u32)
    requires wide { 0 < width }
    requires room { length page.old + line_room ≤ page_room }
    ensures { page.new ≡ page.old ++ entry_text width entry.now }
{
    push_entry(page, entry, width);
    page.push_byte(b'\n');
}
