//! How one row of the grid is shown with the agents in it, for a frame.
ghost use Rattle.std.specs.Prelude.{◌≡◌, ◌<◌, ◌+◌, ◌*◌, ℕ, length, slice_index, option_map, unwrap_or};
ghost use Rattle.mapf_player.specs.Play.{agent_in, terrain, mark, row_cells};

use crate::marks::{mark_of, terrain_of};
use mapf_model::{Grid, Path, Tick};

// Fills a row as if no agent were in it.
fn fill_terrain(row: &mut [u8], grid: &Grid, y: u32)
    requires whole { length row.old ≡ grid.now.width }
    requires inside { y < grid.now.height }
    ensures { (x : ℕ) → x < grid.now.width → slice_index row.new x ≡ terrain grid.now (y * grid.now.width + x) }
{
    let free = grid.row(y);
    for x in 0..row.len() {
        row[x] = terrain_of(free[x]);
    }
}

// Marks the cells of a row in which agents are. If several are in one cell, the first one is shown.
fn mark_agents(row: &mut [u8], grid: &Grid, paths: &[Path], tick: Tick, y: u32)
    requires whole { length row.old ≡ grid.now.width }
    requires inside { y < grid.now.height }
    ensures { (x : ℕ) → x < grid.now.width → slice_index row.new x
        ≡ unwrap_or (option_map mark (agent_in paths.now tick (y * grid.now.width + x))) (slice_index row.old x) }
{
    let width = grid.width();
    let first = y * width;
    let mut agent = paths.len();
    while agent > 0 {
        agent -= 1;
        let cell = paths[agent].at(tick);
        // Each agent is looked at for each row, so the cell's row isn't found by a division.
        if first <= cell.0 && cell.0 - first < width {
            row[(cell.0 - first) as usize] = mark_of(agent);
        }
    }
}

/// Fills a row with its cells at the tick.
pub fn draw_row(row: &mut [u8], grid: &Grid, paths: &[Path], tick: Tick, y: u32)
    requires whole { length row.old ≡ grid.now.width }
    requires inside { y < grid.now.height }
    ensures { row.new ≡ row_cells grid.now paths.now tick y }
{
    fill_terrain(row, grid, y);
    mark_agents(row, grid, paths, tick, y);
}
