//! The labels that a path search has still to look at, those of the least f-value first.
use mapf_model::OutOfMemory;
use std::alloc::Global;

/// Numbers of labels by f-value, of the same value the newest first.
#[derive(Debug, Drop)]
pub struct OpenLabels {
    alloc: Global,
    // The f-value of the first list.
    first: u32,
    // Lists of rising f-value. Those before the present one are empty.
    lists: Vec<Vec<u32>>,
    present: usize,
}

impl OpenLabels {
    /// Returns no open labels.
    pub fn of(alloc: Global) -> OpenLabels {
        OpenLabels {
            alloc,
            first: 0,
            lists: Vec::new(alloc),
            present: 0,
        }
    }

    /// Takes all labels away. None will have a lower f-value than this one.
    pub fn begin(&mut self, first: u32) {
        for place in self.present..self.lists.len() {
            if let Some(list) = self.lists.get_mut(place) {
                list.clear();
            }
        }
        self.first = first;
        self.present = 0;
    }

    /// Opens a label of this f-value.
    #[inline(always)]
    pub fn push(&mut self, value: u32, number: u32) -> Result<(), OutOfMemory> {
        let place = value.saturating_sub(self.first) as usize;
        for _ in self.lists.len()..=place {
            self.lists.push(Vec::new(self.alloc))?;
        }
        if let Some(list) = self.lists.get_mut(place) {
            list.push(number)?;
        }
        Ok(())
    }

    /// Takes a label of the least f-value.
    #[inline(always)]
    pub fn pop(&mut self) -> Option<u32> {
        for place in self.present..self.lists.len() {
            let Some(list) = self.lists.get_mut(place) else {
                break;
            };
            let number = list.pop();
            if number.is_some() {
                return number;
            }
            self.present = place;
        }
        None
    }
}
