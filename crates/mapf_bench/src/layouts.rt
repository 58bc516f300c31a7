//! How the floors of each layout are made: which cells are blocked.
use crate::floor::{Floor, Place};
use crate::job::{Job, Layout};
use anyhow::Result;
use rand::RngExt;
use rand::seq::SliceRandom;
use rand_pcg::Pcg32;
use std::alloc::Global;

/// Returns a floor of the job's layout, all of whose free cells can be reached from one another.
pub fn floor_of(alloc: Global, job: &Job, numbers: &mut Pcg32) -> Result<Floor> {
    match job.layout {
        Layout::Open => Floor::of(alloc, job.width, job.height, true),
        Layout::Random => random(alloc, job, numbers),
        Layout::Maze => maze(alloc, job, numbers),
        Layout::Warehouse => warehouse(alloc, job),
    }
}

// A fifth of the cells is blocked, and so is what can't be reached from the middle. The cells around the middle are
// free.
fn random(alloc: Global, job: &Job, numbers: &mut Pcg32) -> Result<Floor> {
    let mut floor = Floor::of(alloc, job.width, job.height, true)?;
    let mut places = floor.free_places(alloc)?;
    places.as_mut_slice().shuffle(numbers);
    for place in places.iter().take(places.len() / 5) {
        floor.set(*place, false);
    }
    let middle = Place {
        x: job.width / 2,
        y: job.height / 2,
    };
    floor.set(middle, true);
    for near in middle.around(1) {
        floor.set(near, true);
        for next in near.around(1) {
            floor.set(next, true);
        }
    }
    floor.part_of(alloc, middle)
}

// A tree of corridors that joins the cells of odd columns and rows, by a walk that turns at random and backtracks, and
// then a wall in twelve opened.
fn maze(alloc: Global, job: &Job, numbers: &mut Pcg32) -> Result<Floor> {
    let mut floor = Floor::of(alloc, job.width, job.height, false)?;
    let first = Place { x: 1, y: 1 };
    let mut walk = Vec::new(alloc);
    floor.set(first, true);
    walk.push(first)?;
    for _ in 0..u64::from(job.width) * u64::from(job.height) {
        let Some(here) = walk.last().copied() else {
            break;
        };
        let turn = numbers.random_range(0..4usize);
        match way_on(&floor, here, turn) {
            Some((wall, room)) => {
                floor.set(wall, true);
                floor.set(room, true);
                walk.push(room)?;
            }
            None => {
                walk.pop();
            }
        }
    }
    open_some(alloc, &mut floor, numbers)?;
    Ok(floor)
}

// Returns the first blocked room two cells away, of four beginning with this one, and the wall before it.
fn way_on(floor: &Floor, here: Place, turn: usize) -> Option<(Place, Place)> {
    let walls = here.around(1);
    let rooms = here.around(2);
    for step in 0..4usize {
        let side = (turn % 4 + step) % 4;
        if floor.is_blocked(rooms[side]) {
            return Some((walls[side], rooms[side]));
        }
    }
    None
}

// Opens one wall in twelve of those between two free cells that lie opposite each other.
fn open_some(alloc: Global, floor: &mut Floor, numbers: &mut Pcg32) -> Result<()> {
    let mut walls = Vec::new(alloc);
    for y in 1..floor.height {
        for x in 1..floor.width {
            let place = Place { x, y };
            let [above, left, right, below] = place.around(1);
            let is_between = (floor.is_free(above) && floor.is_free(below))
                || (floor.is_free(left) && floor.is_free(right));
            if floor.is_blocked(place) && is_between {
                walls.push(place)?;
            }
        }
    }
    walls.as_mut_slice().shuffle(numbers);
    for place in walls.iter().take(walls.len() / 12) {
        floor.set(*place, true);
    }
    Ok(())
}

// Shelves of ten cells by two, with aisles of one cell between them and fifteen columns of open floor at both sides.
fn warehouse(alloc: Global, job: &Job) -> Result<Floor> {
    let mut floor = Floor::of(alloc, job.width, job.height, true)?;
    for y in 0..job.height {
        for x in 0..job.width {
            let is_column = 15 <= x && x < job.width.saturating_sub(15) && (x - 15) % 11 < 10;
            if is_column && y % 3 >= 1 && y < job.height.saturating_sub(1) {
                floor.set(Place { x, y }, false);
            }
        }
    }
    Ok(floor)
}
