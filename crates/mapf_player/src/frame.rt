//! How one tick of a plan is shown, for the player.
ghost use Rattle.std.specs.Prelude.{◌≡◌, ◌++◌, ◌∷◌, [], false};
ghost use Rattle.std.specs.Result.{is_err};
ghost use Rattle.mapf_fields.specs.Pages.{PassesOrFails};
ghost use Rattle.mapf_player.specs.Play.{frame, rows};

use crate::line::put_line;
use crate::row::draw_row;
use mapf_fields::Page;
use mapf_model::limits::GREATEST_SIDE;
use mapf_model::{Failed, Grid, Path, Sink, Tick};

// Writes a row of the grid and LF.
fn put_row<K: Sink>(page: &mut Page, sink: &mut K, row: &[u8]) -> Result<(), Failed>
    requires works { K.has_failed sink.old ≡ false }
    ensures text { PassesOrFails (K.contents sink.old) (K.contents sink.new) page.old page.new
        (row.now ++ (10 ∷ [])) result }
    ensures failed { K.has_failed sink.new ≡ is_err result }
{
    page.put(sink, row)?;
    page.put(sink, b"\n")
}

// Writes the rows of the grid.
fn put_rows<K: Sink>(
    page: &mut Page,
    sink: &mut K,
    grid: &Grid,
    paths: &[Path],
    tick: Tick,
) -> Result<(), Failed>
    requires { K.has_failed sink.old ≡ false }
    ensures text { PassesOrFails (K.contents sink.old) (K.contents sink.new) page.old page.new
        (rows grid.now paths.now tick) result }
    ensures failed { K.has_failed sink.new ≡ is_err result }
{
    let mut cells = [0; GREATEST_SIDE as usize];
    let row = &mut cells[..grid.width() as usize];
    for y in 0..grid.height() {
        draw_row(row, grid, paths, tick, y);
        put_row(page, sink, row)?;
    }
    Ok(())
}

/// Writes what is shown of a tick.
pub fn put_frame<K: Sink>(
    page: &mut Page,
    sink: &mut K,
    grid: &Grid,
    paths: &[Path],
    tick: Tick,
) -> Result<(), Failed>
    requires { K.has_failed sink.old ≡ false }
    ensures text { PassesOrFails (K.contents sink.old) (K.contents sink.new) page.old page.new
        (frame grid.now paths.now tick) result }
    ensures failed { K.has_failed sink.new ≡ is_err result }
{
    put_line(page, sink, b"tick ", tick)?;
    put_rows(page, sink, grid, paths, tick)
}
