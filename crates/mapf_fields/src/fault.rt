//! The two ways in which a line can be wrong. Readers of plan texts, certificates and event texts make their own errors
//! of them.
/// What is wrong with a line.
#[derive(Clone, Copy, Debug, PartialEq, Eq)]
pub enum LineFault {
    /// Its words don't have the expected form.
    Shape,
    /// A number is out of its range.
    Range,
}
