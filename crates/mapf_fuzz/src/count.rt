//! How many texts a reader accepted and refused, as one line.
use crate::samples::Reader;
use std::fmt;

/// How the texts were answered that a reader was handed.
#[derive(Clone, Copy, Debug)]
pub struct Count {
    pub reader: Reader,
    pub accepted: u64,
    pub refused: u64,
    /// How many were accepted though what they claim isn't so.
    pub wrong: u64,
}

impl fmt::Display for Count {
    fn fmt<W: fmt::Write>(&self, f: &mut fmt::Formatter<W>) -> fmt::Result {
        write!(
            f,
            "{:?}: {} accepted, {} refused, {} wrong",
            self.reader, self.accepted, self.refused, self.wrong
        )
    }
}
