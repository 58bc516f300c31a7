//! What the numbers of a line are compared with, for the readers of plan texts and of certificates.
ghost use Rattle.std.specs.Prelude.{◌≡◌, ◌≤◌, ◌<◌, ◌+◌, ◌*◌};
ghost use Rattle.mapf_model.specs.Limits.{most_agents, greatest_side};
ghost use Rattle.mapf_fields.specs.Numbers.{read_cell};

use crate::version::Version;
use mapf_fields::{LineFault, below};
use mapf_model::{Cell, Grid};

/// What a line is judged by: the version of the text, the size of the grid, and the number of agents.
#[derive(Clone, Copy)]
pub struct Sizes {
    pub version: Version,
    pub width: u32,
    pub height: u32,
    pub agents: u32,
    ghost narrow: { (1 ≤ width) × (width ≤ greatest_side) },
    ghost low: { (1 ≤ height) × (height ≤ greatest_side) },
    ghost few: { (1 ≤ agents) × (agents ≤ most_agents) },
}

impl Sizes {
    /// Returns the sizes of a certificate of this version, on this grid, for so many agents.
    pub fn of(version: Version, grid: &Grid, agents: u32) -> Sizes
        requires some { 1 ≤ agents }
        requires few { agents ≤ most_agents }
        ensures version { result.version ≡ version }
        ensures width { result.width ≡ grid.now.width }
        ensures height { result.height ≡ grid.now.height }
        ensures agents { result.agents ≡ agents }
    {
        Sizes {
            version,
            width: grid.width(),
            height: grid.height(),
            agents,
        }
    }

    /// Returns the cell in this column and row.
    #[tactic(auto, unfolding(mapf_fields::specs::Numbers::read_cell))]
    pub fn cell(&self, x: Option<u64>, y: Option<u64>) -> Result<Cell, LineFault>
        ensures { result ≡ read_cell self.now.width self.now.height x y }
    {
        let x = below(self.width, x)?;
        let y = below(self.height, y)?;
        Ok(Cell(y * self.width + x))
    }
}
