//! What can be wrong with a map. The reader of maps returns it, and the runs report it.
/// Why bytes are not a map text: the first error in the order of the text.
#[derive(Clone, Copy, Debug, PartialEq, Eq)]
pub enum MapFault {
    /// The first line isn't `type octile`.
    M1,
    /// The second line isn't `height` and a number.
    M2,
    /// The third line isn't `width` and a number.
    M3,
    /// The size in this line, 2 or 3, is outside 1 to 2,048.
    M4 { line: u32 },
    /// The fourth line isn't `map`.
    M5,
    /// The number of bytes of this row, counted from 0, isn't the map's width.
    M6 { row: u32 },
    /// The byte in this column and row is none of `.`, `G`, `S`, `@`, `O`, `T` and `W`.
    M7 { x: u32, y: u32 },
    /// The text ends after so many rows, fewer than the map is high.
    M8 { rows: u32 },
    /// This line, counted from 1, comes after the rows and isn't blank.
    M9 { line: u64 },
    /// Out of memory.
    Memory,
}
