//! A floor: which of its cells are free.
use anyhow::Result;
use std::alloc::Global;

/// A cell by its column and row.
#[derive(Clone, Copy, Debug, PartialEq, Eq)]
pub struct Place {
    pub x: u32,
    pub y: u32,
}

impl Place {
    /// Returns the place so many columns to the right and rows down, which may lie off every floor.
    pub fn moved(self, right: u32, down: u32) -> Place {
        Place {
            x: self.x.wrapping_add(right),
            y: self.y.wrapping_add(down),
        }
    }

    /// Returns the four places so many cells away: above, left, right and below.
    pub fn around(self, steps: u32) -> [Place; 4] {
        let back = steps.wrapping_neg();
        [
            self.moved(0, back),
            self.moved(back, 0),
            self.moved(steps, 0),
            self.moved(0, steps),
        ]
    }
}

/// A floor of free and blocked cells.
#[derive(Debug, Drop)]
pub struct Floor {
    pub width: u32,
    pub height: u32,
    // Whether each cell is free, row by row.
    free: Vec<bool>,
}

impl Floor {
    /// Returns a floor whose cells are all free, or all blocked.
    pub fn of(alloc: Global, width: u32, height: u32, is_free: bool) -> Result<Floor> {
        let cells = width as usize * height as usize;
        Ok(Floor {
            width,
            height,
            free: vec![in alloc; is_free; cells]?,
        })
    }

    fn index(&self, place: Place) -> Option<usize> {
        if place.x >= self.width || place.y >= self.height {
            return None;
        }
        Some(place.y as usize * self.width as usize + place.x as usize)
    }

    /// Returns whether the place is on the floor and free.
    pub fn is_free(&self, place: Place) -> bool {
        match self.index(place) {
            Some(at) => self.free.get(at).copied().unwrap_or(false),
            None => false,
        }
    }

    /// Returns whether the place is on the floor and blocked.
    pub fn is_blocked(&self, place: Place) -> bool {
        self.index(place).is_some() && !self.is_free(place)
    }

    /// Frees or blocks a cell, if it is on the floor.
    pub fn set(&mut self, place: Place, is_free: bool) {
        if let Some(at) = self.index(place) {
            if at < self.free.len() {
                self.free[at] = is_free;
            }
        }
    }

    /// Returns the free cells, row by row.
    pub fn free_places(&self, alloc: Global) -> Result<Vec<Place>> {
        let mut places = Vec::new(alloc);
        for y in 0..self.height {
            for x in 0..self.width {
                let place = Place { x, y };
                if self.is_free(place) {
                    places.push(place)?;
                }
            }
        }
        Ok(places)
    }

    /// Returns the floor on which only the cells are free that can be reached from this one.
    pub fn part_of(&self, alloc: Global, from: Place) -> Result<Floor> {
        let mut part = Floor::of(alloc, self.width, self.height, false)?;
        let mut reached = Vec::new(alloc);
        part.set(from, true);
        reached.push(from)?;
        for _ in 0..self.free.len() {
            let Some(place) = reached.pop() else {
                break;
            };
            for next in place.around(1) {
                if self.is_free(next) && !part.is_free(next) {
                    part.set(next, true);
                    reached.push(next)?;
                }
            }
        }
        Ok(part)
    }
}
