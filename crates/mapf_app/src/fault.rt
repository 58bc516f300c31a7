//! The errors with which a run ends, and the names of its inputs and outputs. Every run returns them, and each has its
//! line in `line.rt`.
use mapf_certificate::PlanTextFault;
use mapf_checker::{CheckFault, PlanFault};
use mapf_player::EventFault;
use mapf_text::{MapFault, ScenFault};
use thiserror::Error;

/// An input of a run.
#[derive(Clone, Copy, Debug, PartialEq, Eq)]
pub enum Input {
    Map,
    Scen,
    Plan,
    Cert,
    Events,
}

/// An output of a run.
#[derive(Clone, Copy, Debug, PartialEq, Eq)]
pub enum Output {
    Plan,
    Cert,
    /// Standard output, or what is used in its place.
    Out,
}

/// Why a plan can't be played or followed, or events can't be read.
#[derive(Clone, Copy, Debug, PartialEq, Eq)]
pub enum PlayFault {
    /// The plan text does not follow the grammar. The variant `Memory` never occurs in here.
    Text(PlanTextFault),
    /// The text says that no plan is valid, or that a limit was reached.
    NoPlan,
    /// The plan is for another number of agents than the problem has.
    OtherCount,
    /// The plan isn't valid.
    Invalid(PlanFault),
    /// The event text does not follow the grammar. The variant `Memory` never occurs in here.
    Events(EventFault),
}

/// Why a run ends with an error. Out of memory is `F6`, and inside no other error.
#[derive(Clone, Copy, Debug, PartialEq, Eq, Error)]
pub enum Fault {
    /// The map has this error.
    #[error("map: {0:?}")]
    F1(MapFault),
    /// The scenario has this error.
    #[error("scenario: {0:?}")]
    F2(ScenFault),
    /// The plan can't be played or followed, or the events can't be read.
    #[error("plan or events: {0:?}")]
    F3(PlayFault),
    /// The input could not be read: its source failed, or gave more than `MOST_TEXT_BYTES` bytes, of a certificate more
    /// than `MOST_CERT_BYTES`, or of the requests of `follow` more than `mapf_player::MOST_REQUEST_BYTES`.
    #[error("read of {0:?}")]
    F4(Input),
    /// The output could not be written: its sink failed.
    #[error("write of {0:?}")]
    F5(Output),
    /// Out of memory.
    #[error("out of memory")]
    F6,
    /// The check refused the plan text or the certificate.
    #[error("refused: {0:?}")]
    Refused(CheckFault),
}
