//! What the numbers of a line of version 3 are compared with, and which lines may come. The reader of lines is told
//! both for each line.
ghost use Rattle.std.specs.Prelude.{◌≡◌, ◌≤◌, ◌<◌, ◌+◌, ◌*◌};
ghost use Rattle.mapf_model.specs.Limits.{most_agents, greatest_side};
ghost use Rattle.mapf_fields.specs.Numbers.{read_cell};
ghost use Rattle.mapf_lemma_texts.specs.Ranges.{most_listed};

use mapf_fields::{LineFault, below};
use mapf_model::Cell;

/// What a line is judged by: the size of the grid in cells, the number of agents, and the number of price lists that
/// the text announced.
#[derive(Clone, Copy)]
pub struct LineSizes {
    pub width: u32,
    pub height: u32,
    pub agents: u32,
    pub lists: u64,
    ghost narrow: { (1 ≤ width) × (width ≤ greatest_side) },
    ghost low: { (1 ≤ height) × (height ≤ greatest_side) },
    ghost few: { (1 ≤ agents) × (agents ≤ most_agents) },
    ghost listed: { lists ≤ most_listed },
}

/// Which lines may come.
#[derive(Clone, Copy)]
pub enum LinePlace {
    /// The title.
    Title,
    /// The number of agents.
    Agents,
    /// The claim.
    Claim,
    /// Any line but these three.
    Later(LineSizes),
}

impl LineSizes {
    /// Returns the cell in this column and row.
    #[tactic(auto, unfolding(mapf_fields::specs::Numbers::read_cell))]
    pub fn cell(&self, x: Option<u64>, y: Option<u64>) -> Result<Cell, LineFault>
        ensures { result ≡ read_cell self.now.width self.now.height x y }
    {
        let x = below(self.width, x)?;
        let y = below(self.height, y)?;
        Ok(Cell(y * self.width + x))
    }
}
