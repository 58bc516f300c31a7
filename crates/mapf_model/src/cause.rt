//! Why a search stops at a limit, for the search, for plan texts and for the line of `solve`.
/// Why a search ended without a plan and without showing that none is valid.
#[derive(Clone, Copy, Debug, PartialEq, Eq)]
pub enum Cause {
    /// As many splits as the limit allows were made, 0 to 100,000.
    Splits(u32),
    /// A conflict at tick 1,000,000 or later would have to be split.
    Ticks,
}
