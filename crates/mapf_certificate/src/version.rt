//! The versions of plan texts and of certificates, for their readers and writers.
/// The version of a text.
#[derive(Clone, Copy, Debug, PartialEq, Eq)]
pub enum Version {
    /// In a certificate only leaves have blocks, and no bound is claimed; in a plan text a limit has no bound.
    One,
    /// In a certificate splits may have blocks too, and a bound may be claimed; in a plan text a limit has a bound.
    Two,
}
