use crate::expect::expect_same;
use crate::made::{grid_of, path_text};
use mapf_constraints::{Bar, BarTable, ListBars, TickBars};
use mapf_distance::Distances;
use mapf_model::{Agent, Cell, Entry, Grid, Label, OutOfMemory};
use mapf_spacetime::{Found, search};
use std::alloc::{AllocError, Global};
use std::process::Abort;
use std::test::Fail;

// The entries as cell@tick=label.
fn labels_text(alloc: Global, entries: &[Entry]) -> Result<String, AllocError> {
    let mut text = String::from_str(alloc, ";")?;
    for entry in entries {
        text.push_str(&format!(in alloc; " {}@{}=", entry.cell.0, entry.tick)?)?;
        match entry.label {
            Label::Ticks(ticks) => text.push_str(&format!(in alloc; "{ticks}")?)?,
            Label::Never => text.push_str("never")?,
        }
    }
    Ok(text)
}

fn found_text(alloc: Global, found: &Found) -> Result<String, AllocError> {
    let (mut text, labels) = match found {
        Found::Arrives { path, labels } => (path_text(alloc, path)?, labels),
        Found::Dead { labels } => (String::from_str(alloc, "dead")?, labels),
    };
    text.push_str(&labels_text(alloc, labels.entries())?)?;
    Ok(text)
}

// Forbids cells at ticks.
fn bar_cells<B: BarTable>(table: &mut B, cells: &[(u32, u32)]) -> Result<(), OutOfMemory> {
    for (cell, tick) in cells {
        let (cell, tick) = (Cell(*cell), *tick);
        if tick < 1_000_000 {
            table.add(Bar::Cell { cell, tick })?;
        }
    }
    Ok(())
}

// Forbids moves at ticks.
fn bar_moves<B: BarTable>(table: &mut B, moves: &[(u32, u32, u32)]) -> Result<(), OutOfMemory> {
    for (from, to, tick) in moves {
        let (from, to, tick) = (Cell(*from), Cell(*to), *tick);
        if tick < 1_000_000 && from != to {
            table.add(Bar::Move { from, to, tick })?;
        }
    }
    Ok(())
}

// What the search finds under the bars of the table, if the goal is free.
fn found_on<B: BarTable>(
    alloc: Global,
    grid: &Grid,
    agent: Agent,
    table: &B,
) -> Result<Found, Fail> {
    if !grid.is_free(agent.goal) {
        return Err(Fail::from("a blocked goal"));
    }
    let distances = Distances::of(alloc, grid, agent.goal)?;
    Ok(search(alloc, grid, &distances, table, agent)?)
}

// A grid's rows, where an agent goes on it, the forbidden cells and moves with their ticks, and what the search finds:
// the path, if there is one, and the labels.
type Case<'a> = (
    &'a str,
    (u32, u32),
    &'a [(u32, u32)],
    &'a [(u32, u32, u32)],
    &'a str,
);

// What the search finds under the bars in a table of this type.
fn searched<B: BarTable>(alloc: Global, case: &Case) -> Result<String, Fail> {
    let (rows, (start, goal), cells, moves, _) = *case;
    let grid = grid_of(alloc, rows)?;
    let mut table = B::empty(alloc);
    bar_cells(&mut table, cells)?;
    bar_moves(&mut table, moves)?;
    let (start, goal) = (Cell(start), Cell(goal));
    let found = found_on(alloc, &grid, Agent { start, goal }, &table)?;
    Ok(found_text(alloc, &found)?)
}

// Both tables lead to the same answer.
fn expect_each_found(rt: &impl Abort, alloc: Global, cases: &[Case]) -> Result<(), Fail> {
    for case in cases {
        let (_, _, _, _, wanted) = *case;
        let by_list = searched::<ListBars>(alloc, case)?;
        expect_same(rt, case, &by_list.as_str(), &wanted);
        let by_index = searched::<TickBars>(alloc, case)?;
        expect_same(rt, case, &by_index.as_str(), &wanted);
    }
    Ok(())
}

// A cell with one free cell below it stands between two others.
const BAY: &str = "... @.@";

const WAITING: &[Case] = &[
    ("...", (0, 2), &[(1, 1)], &[], "path 0 0 1 2; 0@0=3"),
    ("..", (0, 1), &[], &[(0, 1, 0)], "path 0 0 1; 0@0=2"),
    (
        "..",
        (0, 1),
        &[(1, 3)],
        &[],
        "path 0 0 0 0 1; 0@0=4 0@1=3 1@1=3 0@2=2 1@2=2",
    ),
    (
        BAY,
        (0, 2),
        &[(0, 1), (0, 2), (1, 2), (2, 2)],
        &[],
        "path 0 1 4 1 2; 0@0=4 1@1=3",
    ),
    (
        BAY,
        (1, 1),
        &[(1, 1)],
        &[(1, 0, 0), (2, 1, 1)],
        "path 1 4 1; 1@0=2",
    ),
];

#[test]
fn waits_or_steps_aside(rt: HostRuntime) -> Result<(), Fail> {
    expect_each_found(&rt, rt.alloc(), WAITING)
}

// A goal that is forbidden later, a start that is forbidden, and a wall.
const DEAD: &[Case] = &[
    (
        ".",
        (0, 0),
        &[(0, 3)],
        &[],
        "dead; 0@0=never 0@1=never 0@2=never",
    ),
    ("..", (0, 1), &[(0, 0)], &[], "dead; 0@0=never"),
    (".@.", (0, 2), &[], &[], "dead;"),
];

#[test]
fn is_dead_where_it_cant_arrive(rt: HostRuntime) -> Result<(), Fail> {
    expect_each_found(&rt, rt.alloc(), DEAD)
}

const SQUARE: &str = "... ... ...";

const EQUALLY_CHEAP: &[Case] = &[
    (SQUARE, (0, 8), &[], &[], "path 0 1 2 5 8;"),
    (SQUARE, (8, 0), &[], &[], "path 8 5 2 1 0;"),
    (SQUARE, (0, 8), &[(2, 2)], &[], "path 0 1 4 5 8;"),
    (
        ".. ..",
        (0, 3),
        &[(3, 2)],
        &[],
        "path 0 0 1 3; 0@0=3 1@1=2 2@1=2",
    ),
];

#[test]
fn takes_the_least_of_the_cheapest_paths(rt: HostRuntime) -> Result<(), Fail> {
    expect_each_found(&rt, rt.alloc(), EQUALLY_CHEAP)
}
