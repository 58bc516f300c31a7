//! Groups of agents that visit cells about a random one.
use crate::draft::Draft;
use crate::group::Group;
use crate::numbers::Numbers;
use crate::path_search::steps;
use mapf_model::{Cell, OutOfMemory};
use std::alloc::Global;

// At most so many cells are looked at for a group.
const MOST_CELLS_ABOUT: usize = 64;

/// The memory of a search over the cells about another one.
#[derive(Debug, Drop)]
pub struct AgentsAbout {
    alloc: Global,
    // The cells that were reached, the nearest first.
    reached: Vec<Cell>,
    // By cell, whether it was reached.
    is_reached: Vec<bool>,
}

impl AgentsAbout {
    /// Returns the memory for a grid of so many cells.
    pub fn of(alloc: Global, cells: usize) -> Result<AgentsAbout, OutOfMemory> {
        Ok(AgentsAbout {
            alloc,
            reached: Vec::new(alloc),
            is_reached: vec![in alloc; false; cells]?,
        })
    }

    /// Adds agents that visit a cell on a random agent's path, or the cells about it.
    pub fn choose(
        &mut self,
        draft: &Draft,
        group: &mut Group,
        numbers: &mut Numbers,
    ) -> Result<(), OutOfMemory> {
        self.clear();
        let path = draft.path(numbers.below(draft.len()));
        if let Some(&centre) = path.get(numbers.below(path.len())) {
            self.reach(centre)?;
        }
        for place in 0..MOST_CELLS_ABOUT {
            let Some(&cell) = self.reached.get(place) else {
                break;
            };
            add_visitors(draft, cell, group, numbers)?;
            if group.is_full() {
                break;
            }
            self.reach_beside(draft, cell)?;
        }
        Ok(())
    }

    fn reach_beside(&mut self, draft: &Draft, cell: Cell) -> Result<(), OutOfMemory> {
        for &beside in steps(self.alloc, draft.problem.grid(), cell).as_slice() {
            self.reach(beside)?;
        }
        Ok(())
    }

    fn clear(&mut self) {
        for cell in &self.reached {
            if let Some(entry) = self.is_reached.get_mut(cell.0 as usize) {
                *entry = false;
            }
        }
        self.reached.clear();
    }

    fn reach(&mut self, cell: Cell) -> Result<(), OutOfMemory> {
        match self.is_reached.get_mut(cell.0 as usize) {
            Some(entry) if !*entry => *entry = true,
            _ => return Ok(()),
        }
        self.reached.push(cell)?;
        Ok(())
    }
}

// Adds agents that visit the cell, from a random visit on.
fn add_visitors(
    draft: &Draft,
    cell: Cell,
    group: &mut Group,
    numbers: &mut Numbers,
) -> Result<(), OutOfMemory> {
    let stays = draft.stays.at(cell);
    let begin = numbers.below(stays.len());
    for stay in stays.iter().skip(begin).chain(stays.iter().take(begin)) {
        group.add(stay.agent)?;
    }
    Ok(())
}
