//! The reader of maps. Each run that reads a problem calls it.
ghost use Rattle.std.specs.Prelude.{◌≡◌, ◌⊎◌, ℕ, ◌+◌, ◌*◌, ◌^◌, ◌<◌, ◌≤◌, ◌++◌, true, []};
ghost use Rattle.std.specs.Prelude.{length, map, drop, slice_index_or, IfOk, IfErr, OnOk, MatchResult};
ghost use Rattle.std.specs.Vec.{vec_len, vec_capacity};
ghost use Rattle.mapf_model.specs.Grid.{GridMap, IsGridMap};
ghost use Rattle.mapf_text.specs.Lines.{lines_of};
ghost use Rattle.mapf_text.specs.Words.{is_blank_line};
ghost use Rattle.mapf_text.specs.Maps.{IsSize, HasRows, HasBodyFault, HasUnknownAt, HasTextAt, flag_of};
ghost use Rattle.mapf_text.specs.Maps.{SpellsMap, HasMapFault};

use crate::header::{Size, read_header};
use crate::line::next_line;
use crate::map_fault::MapFault;
use crate::word::is_blank_line;
use mapf_model::Grid;
use std::alloc::Global;

/// Reads a map text: the lines `type octile`, `height` and a number, `width` and a number, and `map`, then the rows
/// from the top, and then only blank lines.
///
/// `.`, `G` and `S` are free, `@`, `O`, `T` and `W` are blocked. A line ends with LF or CR LF; the last line may lack
/// its end.
pub fn read_map(alloc: Global, bytes: &[u8]) -> Result<Grid, MapFault>
    // If a grid is returned, the bytes spell it.
    ensures found { IfOk result (SpellsMap bytes.now) }
    // A grid that the bytes spell is returned, unless memory runs out.
    ensures only { (grid : GridMap) → SpellsMap bytes.now grid → (result ≡ Ok grid) ⊎ (result ≡ Err MapFault.Memory) }
    // The lines before the reported location are correct, and the error is there.
    ensures fault { IfErr result (HasMapFault (lines_of bytes.now)) }
    // The grid has a flag for each of its cells.
    ensures grid { IfOk result IsGridMap }
{
    grid_of(alloc, bytes)
}

fn grid_of(alloc: Global, bytes: &[u8]) -> Result<Grid, MapFault>
    ensures cases { MatchResult result (SpellsMap bytes.now) (HasMapFault (lines_of bytes.now)) }
    ensures grid { IfOk result IsGridMap }
{
    let (size, rows) = read_header(bytes)?;
    let (free, rest) = read_rows(alloc, size, rows)?;
    only_blank_lines(5 + size.height as u64, rest)?;
    Ok(Grid::of(size.width, size.height, free).unwrap())
}

fn read_rows(alloc: Global, size: Size, text: &[u8]) -> Result<(Vec<bool>, &[u8]), MapFault>
    requires width { IsSize size.width }
    requires height { IsSize size.height }
    ensures found { MatchResult result (λ p. HasRows (lines_of text.now) size.height size.width p.0.items)
        (HasBodyFault size.height size.width (lines_of text.now)) }
    ensures rest { IfOk result (λ p. lines_of p.1.now ≡ drop size.height (lines_of text.now)) }
    ensures length { IfOk result (λ p. length p.0.items ≡ size.width * size.height) }
    ensures shorter { IfOk result (λ p. length p.1.now ≤ length text.now) }
{
    let Ok(mut free) = Vec::with_capacity(alloc, (size.width * size.height) as usize) else {
        return Err(MapFault::Memory);
    };
    let mut rest = text;
    for y in 0..size.height {
        let Some((row, more)) = next_line(rest) else {
            return Err(MapFault::M8 { rows: y });
        };
        if row.len() != size.width as usize {
            return Err(MapFault::M6 { row: y });
        }
        if let Err(x) = push_row(&mut free, row) {
            return Err(MapFault::M7 { x: x as u32, y });
        }
        rest = more;
    }
    Ok((free, rest))
}

// Adds the flags of a row's bytes. The error is the index of the first unknown byte.
fn push_row(free: &mut Vec<bool>, row: &[u8]) -> Result<(), usize>
    requires { vec_len free.old + length row.now ≤ vec_capacity free.old }
    ensures flags { OnOk result (map Some free.new.items ≡ map Some free.old.items ++ map flag_of row.now) }
    ensures unknown { IfErr result (HasUnknownAt row.now) }
    ensures within { IfErr result (λ x. x < length row.now) }
    ensures len { OnOk result (vec_len free.new ≡ vec_len free.old + length row.now) }
    ensures capacity { vec_capacity free.new ≡ vec_capacity free.old }
{
    for (x, byte) in row.iter().enumerate() {
        let Some(flag) = flag_of(*byte) else {
            return Err(x);
        };
        free.push_reserved(flag);
    }
    Ok(())
}

// Returns whether the cell of a byte is free. None for a byte that isn't a cell.
fn flag_of(byte: u8) -> Option<bool>
    ensures { result ≡ flag_of byte }
{
    match byte {
        b'.' | b'G' | b'S' => Some(true),
        b'@' | b'O' | b'T' | b'W' => Some(false),
        _ => None,
    }
}

// Checks that the text has only blank lines. Its first line has the number `first`.
fn only_blank_lines(first: u64, text: &[u8]) -> Result<(), MapFault>
    requires { first + length text.now < 2 ^ 64 }
    ensures blank { OnOk result ((n : ℕ) → is_blank_line (slice_index_or (lines_of text.now) n []) ≡ true) }
    ensures text { IfErr result (λ fault. (n : ℕ) × HasTextAt (lines_of text.now) n
        × (fault ≡ MapFault.M9 (first + n))) }
{
    let mut number = first;
    let mut rest = text;
    while let Some((line, more)) = next_line(rest) {
        if !is_blank_line(line) {
            return Err(MapFault::M9 { line: number });
        }
        number += 1;
        rest = more;
    }
    Ok(())
}
