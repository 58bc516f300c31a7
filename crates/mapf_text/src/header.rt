//! The first four lines of a map, for the reader of maps.
ghost use Rattle.std.specs.Prelude.{◌^◌, ◌<◌, ℕ, List, length, IfOk, IfSome, MatchOption, MatchResult};
ghost use Rattle.mapf_text.specs.Lines.{lines_of};
ghost use Rattle.mapf_text.specs.Maps.{AfterType, AfterSize, AfterMap, IsHeader, IsSize};
ghost use Rattle.mapf_text.specs.Maps.{SizeIn, HasNoSize, HasMapFault};

use crate::line::next_line;
use crate::map_fault::MapFault;
use crate::number::{NotNumber, read_number};
use crate::word::{one_word, two_words};
use mapf_model::limits::GREATEST_SIDE;

/// The size of a map, 1 to 2,048 each way.
#[derive(Clone, Copy)]
pub struct Size {
    pub width: u32,
    pub height: u32,
}

// Why a line has no size.
#[derive(Clone, Copy)]
enum NotSize {
    // It isn't the name and a number.
    Absent,
    // The number is outside 1 to 2,048.
    OutOfRange,
}

/// Reads the first four lines of a map text. Returns the size, and the text after them.
pub fn read_header(text: &[u8]) -> Result<(Size, &[u8]), MapFault>
    ensures found { MatchResult result (λ p. IsHeader (lines_of text.now) p.0.height p.0.width (lines_of p.1.now))
        (HasMapFault (lines_of text.now)) }
    ensures size { IfOk result (λ p. IsSize p.0.width × IsSize p.0.height) }
    ensures small { IfOk result (λ p. length p.1.now < 2 ^ 63) }
{
    let Some(text) = type_line(text) else {
        return Err(MapFault::M1);
    };
    let (height, text) = match size_line(text, b"height") {
        Ok(read) => read,
        Err(NotSize::Absent) => return Err(MapFault::M2),
        Err(NotSize::OutOfRange) => return Err(MapFault::M4 { line: 2 }),
    };
    let (width, text) = match size_line(text, b"width") {
        Ok(read) => read,
        Err(NotSize::Absent) => return Err(MapFault::M3),
        Err(NotSize::OutOfRange) => return Err(MapFault::M4 { line: 3 }),
    };
    let Some(text) = map_line(text) else {
        return Err(MapFault::M5);
    };
    Ok((Size { width, height }, text))
}

// Returns the text after the line `type octile`.
fn type_line(text: &[u8]) -> Option<&[u8]>
    ensures { MatchOption result ((rest : List (List ℕ)) → AfterType (lines_of text.now) rest → ⊥)
        (λ rest. AfterType (lines_of text.now) (lines_of rest.now)) }
{
    let (line, rest) = next_line(text)?;
    let (first, second) = two_words(line)?;
    if first == b"type".as_slice() && second == b"octile".as_slice() {
        Some(rest)
    } else {
        None
    }
}

// Returns the size in a line of this name, and the text after it.
fn size_line<'a>(text: &'a [u8], name: &[u8]) -> Result<(u32, &'a [u8]), NotSize>
    ensures { MatchResult result (λ p. AfterSize name.now (lines_of text.now) p.0 (lines_of p.1.now) × IsSize p.0)
        (HasNoSize name.now (lines_of text.now)) }
{
    let Some((line, rest)) = next_line(text) else {
        return Err(NotSize::Absent);
    };
    match size_in(line, name) {
        Ok(size) => Ok((size, rest)),
        Err(fault) => Err(fault),
    }
}

fn size_in(line: &[u8], name: &[u8]) -> Result<u32, NotSize>
    ensures { SizeIn name.now line.now result }
{
    let Some((first, second)) = two_words(line) else {
        return Err(NotSize::Absent);
    };
    if first != name {
        return Err(NotSize::Absent);
    }
    match read_number(second) {
        Ok(size) if 1 <= size && size <= GREATEST_SIDE => Ok(size),
        Ok(_) => Err(NotSize::OutOfRange),
        Err(NotNumber::TooLarge) => Err(NotSize::OutOfRange),
        Err(NotNumber::NoDigits) => Err(NotSize::Absent),
    }
}

// Returns the text after the line `map`.
fn map_line(text: &[u8]) -> Option<&[u8]>
    ensures found { MatchOption result ((rest : List (List ℕ)) → AfterMap (lines_of text.now) rest → ⊥)
        (λ rest. AfterMap (lines_of text.now) (lines_of rest.now)) }
    ensures small { IfSome result (λ rest. length rest.now < 2 ^ 63) }
{
    let (line, rest) = next_line(text)?;
    let word = one_word(line)?;
    if word == b"map".as_slice() {
        Some(rest)
    } else {
        None
    }
}
