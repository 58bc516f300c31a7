//! A certificate as a value, and the errors of its text. The readers and the writer share these, and the checker
//! reports the errors.
ghost use Rattle.mapf_certificate.specs.Window.{IsTextFault, Reports};

use crate::buffer::NoLine;
use crate::version::Version;
use mapf_fields::LineFault;
use mapf_model::{Claim, Item};

/// A certificate: the version of its text, for how many agents it is, 1 to 200, what it claims, and the items of its
/// constraint tree in pre-order. In version 1 no split has blocks, and no bound is claimed.
#[derive(Debug, Drop)]
pub struct Cert {
    pub version: Version,
    pub agents: u32,
    pub claim: Claim,
    pub tree: Vec<Item>,
}

/// Why bytes are not a certificate, with a line counted from 1. It is proved that they are none; that this error is the
/// first, and its line, is only tested.
#[derive(Clone, Copy, Debug, PartialEq, Eq)]
pub enum CertFault {
    /// This line has a wrong shape, is longer than 64 bytes, or is out of place.
    K1(u64),
    /// The text ended before this line, or in it.
    K2(u64),
    /// A number of this line is out of its range.
    K3(u64),
    /// There is text after `end`, in this line.
    K4(u64),
    /// Out of memory.
    Memory,
}

/// Why reading a certificate from a source ends.
#[derive(Clone, Copy, Debug, PartialEq, Eq)]
pub enum LinesFault {
    /// The bytes are not a certificate.
    Text(CertFault),
    /// The source failed.
    Device,
    /// More bytes came than the limit allows.
    TooLong,
    /// Out of memory.
    Memory,
}

impl LinesFault {
    /// Returns the error of the line of this number, counted from 1, which is wrong in this way.
    pub fn of_line(line: u64, fault: LineFault) -> LinesFault
        ensures { IsTextFault result }
    {
        match fault {
            LineFault::Shape => LinesFault::Text(CertFault::K1(line)),
            LineFault::Range => LinesFault::Text(CertFault::K3(line)),
        }
    }

    /// Returns the error that there is no line of this number, counted from 1, for this reason.
    pub fn without_line(line: u64, why: NoLine) -> LinesFault
        ensures { Reports why result }
    {
        match why {
            NoLine::Ended => LinesFault::Text(CertFault::K2(line)),
            NoLine::Overlong => LinesFault::Text(CertFault::K1(line)),
            NoLine::Device => LinesFault::Device,
            NoLine::PastLimit => LinesFault::TooLong,
        }
    }
}
