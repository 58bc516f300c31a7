use crate::expect::expect_same;
use crate::made::{grid_of, path_text};
use mapf_distance::Distances;
use mapf_model::Cell;
use std::alloc::Global;
use std::process::Abort;
use std::test::Fail;

// The distances to this cell, if it is free, on the grid of these rows.
fn distances_to(alloc: Global, rows: &str, goal: u32) -> Result<Distances, Fail> {
    let grid = grid_of(alloc, rows)?;
    if !grid.is_free(Cell(goal)) {
        return Err(Fail::from("a blocked goal"));
    }
    Ok(Distances::of(alloc, &grid, Cell(goal))?)
}

// The distance of this cell, and the path from it.
fn descent(alloc: Global, rows: &str, start: u32, goal: u32) -> Result<(u32, String), Fail> {
    let distances = distances_to(alloc, rows, goal)?;
    let distance = distances.get(Cell(start)).ok_or("no way")?;
    let path = distances.descend(alloc, Cell(start))?;
    Ok((distance, path_text(alloc, &path)?))
}

fn expect_descent(
    rt: &impl Abort,
    alloc: Global,
    rows: &str,
    (start, goal): (u32, u32),
    (distance, path): (u32, &str),
) -> Result<(), Fail> {
    let (found, text) = descent(alloc, rows, start, goal)?;
    expect_same(rt, &rows, &found, &distance);
    expect_same(rt, &rows, &text.as_str(), &path);
    Ok(())
}

#[test]
fn descends_by_the_least_cells(rt: HostRuntime) -> Result<(), Fail> {
    expect_descent(&rt, rt.alloc(), ".. ..", (0, 3), (2, "path 0 1 3"))?;
    expect_descent(&rt, rt.alloc(), ".. ..", (3, 0), (2, "path 3 1 0"))?;
    expect_descent(&rt, rt.alloc(), ".. ..", (3, 3), (0, "path 3"))
}

// Cells of a row with a wall in its second cell, and their distances to the third.
const PAST_A_WALL: &[(u32, Option<u32>)] = &[
    (2, Some(0)),
    (0, None),
    (1, None),
    (3, None),
    (u32::MAX, None),
];

#[test]
fn finds_no_way_past_a_wall(rt: HostRuntime) -> Result<(), Fail> {
    let distances = distances_to(rt.alloc(), ".@.", 2)?;
    for (cell, distance) in PAST_A_WALL {
        expect_same(&rt, cell, &distances.get(Cell(*cell)), distance);
    }
    Ok(())
}

const SPIRAL: &str = "..... @@@@. ...@. .@@@. .....";

// The way through the spiral to its middle.
const WAY: &str = "path 0 1 2 3 4 9 14 19 24 23 22 21 20 15 10 11 12";

#[test]
fn follows_a_spiral(rt: HostRuntime) -> Result<(), Fail> {
    expect_descent(&rt, rt.alloc(), SPIRAL, (0, 12), (16, WAY))
}
