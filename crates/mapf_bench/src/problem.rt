//! The problems of a job, as the texts of a map and of a scenario.
use crate::floor::{Floor, Place};
use crate::job::Job;
use crate::layouts::floor_of;
use anyhow::{Result, ensure};
use rand::seq::SliceRandom;
use rand_pcg::Pcg32;
use std::alloc::Global;

/// The texts of a problem.
#[derive(Debug, Drop)]
pub struct Texts {
    pub map: String,
    pub scen: String,
}

/// Makes a problem of the job, another one for each seed and number.
pub fn make(alloc: Global, job: &Job, number: u32) -> Result<Texts> {
    let mut numbers = Pcg32::new(u64::from(job.seed), u64::from(number));
    let floor = floor_of(alloc, job, &mut numbers)?;
    let starts = some_places(alloc, &floor, job.agents, &mut numbers)?;
    let goals = some_places(alloc, &floor, job.agents, &mut numbers)?;
    Ok(Texts {
        map: map_text(alloc, &floor)?,
        scen: scenario_text(alloc, &floor, &starts, &goals)?,
    })
}

// Returns so many different free cells.
fn some_places(
    alloc: Global,
    floor: &Floor,
    count: u32,
    numbers: &mut Pcg32,
) -> Result<Vec<Place>> {
    let mut places = floor.free_places(alloc)?;
    ensure!(
        count as usize <= places.len(),
        "more agents than free cells"
    );
    places.as_mut_slice().shuffle(numbers);
    places.truncate(count as usize);
    Ok(places)
}

fn map_text(alloc: Global, floor: &Floor) -> Result<String> {
    let (width, height) = (floor.width, floor.height);
    let mut text = format!(in alloc; "type octile\nheight {height}\nwidth {width}\nmap\n")?;
    for y in 0..height {
        for x in 0..width {
            let is_free = floor.is_free(Place { x, y });
            text.push(if is_free { '.' } else { '@' })?;
        }
        text.push('\n')?;
    }
    Ok(text)
}

// The length of each agent's way is left 0: no reader of scenarios looks at it.
fn scenario_text(
    alloc: Global,
    floor: &Floor,
    starts: &[Place],
    goals: &[Place],
) -> Result<String> {
    let (width, height) = (floor.width, floor.height);
    let mut text = String::from_str(alloc, "version 1\n")?;
    for (start, goal) in starts.iter().zip(goals) {
        let line = format!(in alloc;
            "0\tbench.map\t{width}\t{height}\t{}\t{}\t{}\t{}\t0\n",
            start.x, start.y, goal.x, goal.y
        )?;
        text.push_str(line.as_str())?;
    }
    Ok(text)
}
