//! Why a split isn't proper. Its judge says so.

/// Why a split isn't proper.
#[derive(Clone, Copy, Debug, PartialEq, Eq)]
pub enum SplitFault {
    /// Its two agents are one, or its cells aren't free, or not adjacent (rule 5).
    BadSplit,
    /// The lemma that it names may not be used here, or doesn't say what the split needs (rule 6).
    LemmaNotAllowed,
}
