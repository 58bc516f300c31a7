use crate::expect::expect_same;
use crate::made::plan_of;
use mapf_conflicts::{Conflict, first_conflict};
use mapf_model::{Cell, Tick};
use std::alloc::Global;
use std::process::Abort;
use std::test::Fail;

// The paths, each a list of cell numbers, have this first conflict.
fn expect_conflict(
    rt: &impl Abort,
    alloc: Global,
    paths: &[&[u32]],
    conflict: Option<Conflict>,
) -> Result<(), Fail> {
    let plan = plan_of(alloc, paths)?;
    expect_same(rt, &paths, &first_conflict(&plan), &conflict);
    Ok(())
}

fn vertex(i: u32, j: u32, cell: u32, tick: Tick) -> Option<Conflict> {
    Some(Conflict::Vertex {
        i,
        j,
        cell: Cell(cell),
        tick,
    })
}

fn swap(i: u32, j: u32, from: u32, to: u32, tick: Tick) -> Option<Conflict> {
    Some(Conflict::Swap {
        i,
        j,
        from: Cell(from),
        to: Cell(to),
        tick,
    })
}

const VERTEX_BEFORE_SWAP: &[&[u32]] = &[&[0, 1], &[1, 0], &[2], &[2], &[2]];

const LEAST_AGENTS: &[&[u32]] = &[&[4], &[3], &[3], &[4]];

const LEAST_AGENTS_OF_SWAPS: &[&[u32]] = &[&[0, 1], &[4, 5], &[5, 4], &[1, 0]];

#[test]
fn takes_vertex_before_swap_then_least_agents(rt: HostRuntime) -> Result<(), Fail> {
    let alloc = rt.alloc();
    expect_conflict(&rt, alloc, VERTEX_BEFORE_SWAP, vertex(2, 3, 2, 0))?;
    expect_conflict(&rt, alloc, LEAST_AGENTS, vertex(0, 3, 4, 0))?;
    expect_conflict(&rt, alloc, LEAST_AGENTS_OF_SWAPS, swap(0, 3, 0, 1, 0))
}

const AT_SEVERAL_TICKS: &[&[u32]] = &[&[6, 7, 8], &[8, 8, 8], &[3, 0, 1], &[4, 1, 0]];

#[test]
fn takes_the_least_tick(rt: HostRuntime) -> Result<(), Fail> {
    expect_conflict(&rt, rt.alloc(), AT_SEVERAL_TICKS, swap(2, 3, 0, 1, 1))
}

#[test]
fn meets_an_agent_at_rest(rt: HostRuntime) -> Result<(), Fail> {
    expect_conflict(&rt, rt.alloc(), &[&[2], &[0, 1, 2]], vertex(0, 1, 2, 2))
}

const ROTATING: &[&[u32]] = &[&[0, 1], &[1, 3], &[3, 2], &[2, 0]];

#[test]
fn lets_agents_follow_and_rotate(rt: HostRuntime) -> Result<(), Fail> {
    expect_conflict(&rt, rt.alloc(), &[&[0, 1, 2], &[1, 2, 3]], None)?;
    expect_conflict(&rt, rt.alloc(), ROTATING, None)
}
