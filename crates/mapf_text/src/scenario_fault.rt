//! What can be wrong with a scenario. The reader of scenarios returns it, and the runs report it.
/// Why bytes are not a scenario text for a grid: the first error in the order of the text.
#[derive(Clone, Copy, Debug, PartialEq, Eq)]
pub enum ScenFault {
    /// The first line that isn't blank isn't `version 1` or `version 1.0`.
    S1,
    /// This row, counted from 0, doesn't have nine words.
    S2 { row: u32 },
    /// This field of the row, counted from 1, isn't a number of at most 4,294,967,295.
    S3 { row: u32, field: u32 },
    /// The map's width or height in this row isn't the grid's.
    S4 { row: u32 },
    /// The start or the goal of this row is outside the grid or blocked.
    S5 { row: u32 },
    /// The length in this row isn't decimal text.
    S6 { row: u32 },
    /// The text ends after so many rows, fewer than the number of agents.
    S7 { rows: u32 },
    /// Out of memory.
    Memory,
}
