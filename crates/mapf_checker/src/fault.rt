//! The verdict of a check, and the errors with which it ends otherwise. The judges of plan texts, certificates and
//! trees return these, and the run of `check` reports them.
use crate::plan_fault::PlanFault;
use mapf_certificate::{CertFault, LinesFault, PlanTextFault};
use mapf_lemma_checker::{LemmaFault, LemmaRefusal};
use mapf_model::OutOfMemory;

/// The verdict on two texts that are accepted.
#[derive(Clone, Copy, Debug, PartialEq, Eq)]
pub enum Verdict {
    /// The plan is valid and has this sum of costs, in ticks, and no valid plan has a smaller one.
    Optimal(u64),
    /// The plan is valid, and no valid plan has a sum of costs below the bound, which is smaller than the plan's. Only
    /// a certificate of version 3 claims a bound beside a plan.
    Within {
        /// The bound, in ticks.
        bound: u64,
        /// The plan's sum of costs, in ticks.
        cost: u64,
    },
    /// The plan text says that a limit was reached, with this bound: no valid plan has a smaller sum of costs, in
    /// ticks.
    Bound(u64),
    /// No plan is valid.
    Impossible,
}

/// Why two texts are not accepted. Lines are counted from 1. The variant `Memory` of a text's error never occurs in
/// here. It is proved that the reported error is one that the texts have; of `C1` and `C2` that the bytes spell no plan
/// text or no certificate, and of `C6` to `C10` of a certificate of version 3 that a part doesn't show what it has to
/// show: which of these errors it is, is only tested. So is that an error is the first one, and that its line is right.
#[derive(Clone, Copy, Debug, PartialEq, Eq)]
pub enum CheckFault {
    /// The plan text does not follow the grammar.
    C1(PlanTextFault),
    /// The certificate does not follow the grammar.
    C2(CertFault),
    /// One of the texts is for another number of agents than the problem has.
    C3,
    /// The certificate's claim does not fit the plan text's answer, or the answer is a limit without a bound.
    C4,
    /// The plan isn't valid.
    C5(PlanFault),
    /// The split in this line is wrong: its agents are equal, a cell is blocked, or the cells of a swap are not
    /// adjacent.
    C6(u64),
    /// The label or the joint cell in this line is not sound, or the joint cells of the lemma in this line lack the
    /// starts.
    C7(u64),
    /// The leaf that begins in this line doesn't show what its tree has to show: the claim, or a lemma's bound.
    C8(u64),
    /// The clash in this line is wrong: its agents are equal, or their goals differ.
    C9(u64),
    /// What stands in this line of a certificate of version 3 isn't allowed: a price, a constraint, a lemma of one
    /// agent twice, a use, or a split on two costs.
    C10(u64),
    /// Out of memory.
    Memory,
}

/// Why checking a certificate that is read from a source ends without a verdict. The variant `Memory` of `CheckFault`
/// never occurs in here.
#[derive(Clone, Copy, Debug, PartialEq, Eq)]
pub enum FromFault {
    /// The texts are not accepted.
    Refused(CheckFault),
    /// The source failed.
    Device,
    /// The source gave more bytes than the limit allows.
    TooLong,
    /// Out of memory.
    Memory,
}

impl From<OutOfMemory> for FromFault {
    ghost use Rattle.std.specs.Prelude.{◌≡◌};
    ghost use Rattle.mapf_checker.specs.declared.fault.FromFault.TheVariants.{Memory};

    ghost from_gives = { λ _ fault. fault ≡ Memory };

    fn from(_refused: OutOfMemory) -> FromFault {
        FromFault::Memory
    }
}

impl From<PlanTextFault> for FromFault {
    ghost use Rattle.std.specs.Prelude.{◌≡◌};
    ghost use Rattle.mapf_checker.specs.Faults.{of_plan};

    ghost from_gives = { λ given fault. fault ≡ of_plan given };

    fn from(fault: PlanTextFault) -> FromFault {
        match fault {
            PlanTextFault::Memory => FromFault::Memory,
            _ => FromFault::Refused(CheckFault::C1(fault)),
        }
    }
}

impl From<LinesFault> for FromFault {
    ghost use Rattle.std.specs.Prelude.{◌≡◌};
    ghost use Rattle.mapf_checker.specs.Faults.{of_cert};

    ghost from_gives = { λ given fault. fault ≡ of_cert given };

    fn from(fault: LinesFault) -> FromFault {
        match fault {
            LinesFault::Text(CertFault::Memory) | LinesFault::Memory => FromFault::Memory,
            LinesFault::Text(fault) => FromFault::Refused(CheckFault::C2(fault)),
            LinesFault::Device => FromFault::Device,
            LinesFault::TooLong => FromFault::TooLong,
        }
    }
}

impl From<LemmaRefusal> for CheckFault {
    ghost use Rattle.std.specs.Prelude.{◌≡◌};
    ghost use Rattle.mapf_checker.specs.Faults.{of_lemma_refusal};

    ghost from_gives = { λ given fault. fault ≡ of_lemma_refusal given };

    fn from(refusal: LemmaRefusal) -> CheckFault {
        match refusal {
            LemmaRefusal::C2(fault) => CheckFault::C2(fault),
            LemmaRefusal::C3 => CheckFault::C3,
            LemmaRefusal::C4 => CheckFault::C4,
            LemmaRefusal::C6(line) => CheckFault::C6(line),
            LemmaRefusal::C7(line) => CheckFault::C7(line),
            LemmaRefusal::C8(line) => CheckFault::C8(line),
            LemmaRefusal::C9(line) => CheckFault::C9(line),
            LemmaRefusal::C10(line) => CheckFault::C10(line),
        }
    }
}

impl From<LemmaFault> for FromFault {
    ghost use Rattle.std.specs.Prelude.{◌≡◌};
    ghost use Rattle.mapf_checker.specs.Faults.{of_lemmas};

    ghost from_gives = { λ given fault. fault ≡ of_lemmas given };

    fn from(fault: LemmaFault) -> FromFault {
        match fault {
            LemmaFault::Refused(refusal) => FromFault::Refused(CheckFault::from(refusal)),
            LemmaFault::Device => FromFault::Device,
            LemmaFault::TooLong => FromFault::TooLong,
            LemmaFault::Memory => FromFault::Memory,
        }
    }
}
