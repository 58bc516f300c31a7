//! The errors with which the judge of a certificate of version 3 ends. All judges of parts return these.
use mapf_certificate::{CertFault, LinesFault};
use mapf_model::OutOfMemory;

/// Why a certificate of version 3 is not accepted. Lines are counted from 1. The variant `Memory` of a text's error
/// never occurs in here. It is proved that the certificate shows no claim that fits the answer; that it has the defect
/// of a `C2`, `C3` or `C4`; and that it has a part that doesn't show what it has to show where it is refused otherwise.
/// Which of the other errors is reported, and each line, is only tested.
#[derive(Clone, Copy, Debug, PartialEq, Eq)]
pub enum LemmaRefusal {
    /// The certificate does not follow the grammar.
    C2(CertFault),
    /// The certificate is for another number of agents than the problem has.
    C3,
    /// The certificate's claim does not fit the answer.
    C4,
    /// The split in this line is wrong: its agents are equal, a cell is blocked, or the cells of a swap are not
    /// adjacent.
    C6(u64),
    /// The label or the joint cell in this line is wrong, or the joint cells of the lemma in this line lack the starts.
    C7(u64),
    /// The leaf that begins in this line doesn't show what its tree has to show.
    C8(u64),
    /// The clash in this line is wrong: its agents are equal, or their goals differ.
    C9(u64),
    /// What stands in this line isn't allowed: a price, a constraint, a lemma of one agent twice, a use, or a split on
    /// two costs.
    C10(u64),
}

/// Why judging a certificate that is read from a source ends without a claim that is shown. The variant `Memory` of a
/// text's error never occurs in here.
#[derive(Clone, Copy, Debug, PartialEq, Eq)]
pub enum LemmaFault {
    /// The certificate is not accepted.
    Refused(LemmaRefusal),
    /// The source failed.
    Device,
    /// The source gave more bytes than the limit allows.
    TooLong,
    /// Out of memory.
    Memory,
}

impl From<OutOfMemory> for LemmaFault {
    ghost use Rattle.std.specs.Prelude.{◌≡◌};
    ghost use Rattle.mapf_lemma_checker.specs.declared.fault.LemmaFault.TheVariants.{Memory};

    ghost from_gives = { λ _ fault. fault ≡ Memory };

    fn from(_refused: OutOfMemory) -> LemmaFault {
        LemmaFault::Memory
    }
}

impl From<LinesFault> for LemmaFault {
    ghost use Rattle.std.specs.Prelude.{◌≡◌};
    ghost use Rattle.mapf_lemma_checker.specs.Faults.{of_lines};

    ghost from_gives = { λ given fault. fault ≡ of_lines given };

    fn from(fault: LinesFault) -> LemmaFault {
        match fault {
            LinesFault::Text(CertFault::Memory) | LinesFault::Memory => LemmaFault::Memory,
            LinesFault::Text(fault) => LemmaFault::Refused(LemmaRefusal::C2(fault)),
            LinesFault::Device => LemmaFault::Device,
            LinesFault::TooLong => LemmaFault::TooLong,
        }
    }
}
