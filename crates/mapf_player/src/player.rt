//! The player, which shows a plan tick by tick. The run of `play` calls it.
ghost use Rattle.std.specs.Prelude.{◌≡◌, ◌≤◌, ◌+◌, ℕ, List, false, length, take, flat_map, OnOk, OnErr};
ghost use Rattle.std.specs.List.{range_with_len};
ghost use Rattle.std.specs.Result.{is_err};
ghost use Rattle.std.specs.Io.KnownBytes.{Appends};
ghost use Rattle.mapf_model.specs.Plan.{IsValid};
ghost use Rattle.mapf_fields.specs.Pages.{PassesOrFails, WritesOrFails};
ghost use Rattle.mapf_player.specs.Play.{frame, play_text, IsMakespan, IsPlayText};

use crate::frame::put_frame;
use crate::line::put_line;
use mapf_fields::Page;
use mapf_model::{Failed, Grid, Path, Plan, Problem, Sink, Tick};

// Returns the makespan, the greatest cost of a path.
fn makespan_of(problem: &Problem, plan: &Plan) -> Tick
    requires { IsValid problem.now plan.now }
    ensures { IsMakespan problem.now.agents plan.now result }
{
    let agents = problem.agents();
    let mut makespan: Tick = 0;
    for (i, path) in plan.paths().iter().enumerate() {
        makespan = makespan.max(path.cost(agents[i].goal).unwrap());
    }
    makespan
}

// Writes the frames of the ticks from 0 to the last one.
fn put_frames<K: Sink>(
    page: &mut Page,
    sink: &mut K,
    grid: &Grid,
    paths: &[Path],
    last: Tick,
) -> Result<(), Failed>
    requires { K.has_failed sink.old ≡ false }
    ensures text { PassesOrFails (K.contents sink.old) (K.contents sink.new) page.old page.new
        (flat_map (frame grid.now paths.now) (range_with_len 0 (last + 1))) result }
    ensures failed { K.has_failed sink.new ≡ is_err result }
{
    for tick in 0..=last {
        put_frame(page, sink, grid, paths, tick)?;
    }
    Ok(())
}

/// Writes the frames of the ticks from 0 to the last one, and the line after them.
pub fn write_text<K: Sink>(
    sink: &mut K,
    grid: &Grid,
    paths: &[Path],
    last: Tick,
) -> Result<(), Failed>
    requires { K.has_failed sink.old ≡ false }
    ensures text { WritesOrFails (K.contents sink.old) (K.contents sink.new)
        (play_text grid.now paths.now last) result }
    ensures failed { K.has_failed sink.new ≡ is_err result }
{
    let mut page = Page::empty();
    put_frames(&mut page, sink, grid, paths, last)?;
    put_line(&mut page, sink, b"end ", last)?;
    page.flush(sink)
}

/// Writes the plan tick by tick, from 0 to its makespan: a line `tick t`, and a line for each row of the grid. The last
/// line is `end m` with the makespan in ticks. A free cell is `.`, a blocked one `@`. The agents are `0` to `9`, `a` to
/// `z`, `A` to `Z`, and from the 63rd on `*`. After the end of its path an agent stays at its last cell. Nothing is
/// allocated. `Failed` is returned only if the sink failed; it then got a prefix of that text.
pub fn play<K: Sink>(problem: &Problem, plan: &Plan, sink: &mut K) -> Result<(), Failed>
    requires works { K.has_failed sink.old ≡ false }
    requires valid { IsValid problem.now plan.now }
    // What is written is the text that plays the plan: at each tick to the makespan the grid with the agents' marks,
    // including those of agents whose path ended.
    ensures text { OnOk result ((text : List ℕ) × IsPlayText problem.now plan.now text
        × Appends (K.contents sink.old) (K.contents sink.new) text) }
    // An error is returned if and only if the sink failed.
    ensures failed { K.has_failed sink.new ≡ is_err result }
    // After an error the sink got a prefix of that text.
    ensures front { OnErr result ((text : List ℕ) × IsPlayText problem.now plan.now text
        × (n : ℕ) × (n ≤ length text) × Appends (K.contents sink.old) (K.contents sink.new) (take n text)) }
{
    let makespan = makespan_of(problem, plan);
    write_text(sink, problem.grid(), plan.paths(), makespan)
}
