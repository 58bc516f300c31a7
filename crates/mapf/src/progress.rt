//! The line on a terminal that tells how far a search is. It is written again and again, and erased before anything
//! else is printed. Where standard error is no terminal, nothing is written.
use mapf_model::Watcher;
use std::io::{IsTerminal, Write};

/// The line, once something was told.
#[derive(Drop)]
pub struct Progress<'a> {
    rt: &'a HostRuntime,
    // The sum of costs of a plan that is known.
    plan: Option<u64>,
    is_shown: bool,
}

impl<'a> Progress<'a> {
    /// Returns a line that isn't shown yet.
    pub fn of(rt: &'a HostRuntime) -> Progress<'a> {
        Progress {
            rt,
            plan: None,
            is_shown: false,
        }
    }

    /// Erases the line, if it is shown.
    pub fn erase(&mut self) {
        if self.is_shown {
            self.write("\r\u{1b}[K");
            self.is_shown = false;
        }
    }

    // Writes to standard error. If that fails, the search goes on all the same.
    fn write(&self, text: &str) {
        let _ = self.rt.stderr().write_all(text.as_bytes());
    }
}

impl Watcher for Progress<'_> {
    fn note(&mut self, splits: u32, bound: u64, open: usize) {
        if !self.rt.stderr().is_terminal() {
            return;
        }
        let line = match self.plan {
            Some(plan) => {
                let (percent, tenth) = gap(plan, bound);
                format!(in self.rt.alloc();
                    "\r\u{1b}[K{splits} splits, plan {plan}, bound {bound} so far, gap {percent}.{tenth}%, {open} open"
                )
            }
            None => format!(in self.rt.alloc();
                "\r\u{1b}[K{splits} splits, bound {bound} so far, {open} open"
            ),
        };
        if let Ok(line) = line {
            self.write(&line);
            self.is_shown = true;
        }
    }

    fn note_plan(&mut self, cost: u64) {
        self.plan = Some(cost);
    }
}

// Returns by how many per cent a plan of this cost is dearer than the bound, and the tenths of a per cent, rounded
// down.
fn gap(cost: u64, bound: u64) -> (u64, u64) {
    let tenths = cost.saturating_sub(bound).saturating_mul(1000) / bound.max(1);
    (tenths / 10, tenths % 10)
}
