//! The numbers of each answer of a run.
ghost use Rattle.std.specs.Prelude.{◌≡◌};
ghost use Rattle.mapf_c.specs.Answers.{answered, check_answer, kind_answer, refused_numbers, unanswered, unsolved};
ghost use Rattle.mapf_c.specs.Answers.{verdict_answer};
ghost use Rattle.mapf_c.specs.Faults.{none};
ghost use Rattle.mapf_c.specs.Plans.{plan_answer};

use crate::numbers::{Answer, FaultNumbers, Solution};
use mapf_app::{CheckFault, Fault, Kind, Verdict};
use mapf_model::Cause;

// The kinds of answers.
const NO_ANSWER: u32 = 0;

const OPTIMAL: u32 = 1;

const WITHIN: u32 = 2;

const BOUND: u32 = 3;

const IMPOSSIBLE: u32 = 4;

const VALID: u32 = 5;

// The causes of a bound alone.
const SPLITS: u32 = 1;

const TICKS: u32 = 2;

impl Answer {
    // Returns the answer of a kind that has no bound and no cost.
    fn of(kind: u32, fault: FaultNumbers) -> Answer
        ensures { result ≡ record { kind = kind; cause = 0; bound = 0; cost = 0; fault = fault } }
    {
        Answer {
            kind,
            cause: 0,
            bound: 0,
            cost: 0,
            fault,
        }
    }

    // Returns the answer of a plan with this cost, and with this bound.
    fn costing(kind: u32, bound: u64, cost: u64) -> Answer
        ensures { result ≡ answered kind 0 bound cost }
    {
        Answer {
            bound,
            cost,
            ..Answer::of(kind, FaultNumbers::none())
        }
    }

    // Returns the answer of a bound alone.
    fn bounded(cause: u32, bound: u64) -> Answer
        ensures { result ≡ answered 3 cause bound 0 }
    {
        Answer {
            cause,
            bound,
            ..Answer::of(BOUND, FaultNumbers::none())
        }
    }

    fn impossible() -> Answer
        ensures { result ≡ answered 4 0 0 0 }
    {
        Answer::of(IMPOSSIBLE, FaultNumbers::none())
    }

    /// Returns that there is no answer, for this error.
    pub fn unanswered(fault: FaultNumbers) -> Answer
        ensures { result ≡ unanswered fault }
    {
        Answer::of(NO_ANSWER, fault)
    }

    /// Returns the answer of a run that solves.
    pub fn of_kind(kind: Kind) -> Answer
        ensures { result ≡ kind_answer kind }
    {
        match kind {
            Kind::Found(cost) => Answer::costing(OPTIMAL, cost, cost),
            Kind::Impossible => Answer::impossible(),
            Kind::Limit {
                cause: Cause::Splits(_),
                bound,
            } => Answer::bounded(SPLITS, bound),
            Kind::Limit {
                cause: Cause::Ticks,
                bound,
            } => Answer::bounded(TICKS, bound),
            Kind::Within { bound, cost } => Answer::costing(WITHIN, bound, cost),
        }
    }

    fn of_verdict(verdict: Verdict) -> Answer
        ensures { result ≡ verdict_answer verdict }
    {
        match verdict {
            Verdict::Optimal(cost) => Answer::costing(OPTIMAL, cost, cost),
            Verdict::Within { bound, cost } => Answer::costing(WITHIN, bound, cost),
            Verdict::Bound(bound) => Answer::bounded(0, bound),
            Verdict::Impossible => Answer::impossible(),
        }
    }

    /// Returns the answer of a plan that is valid, with its sum of costs, or of one that isn't.
    pub fn of_cost(ended: Result<u64, Fault>) -> Answer
        ensures { result ≡ plan_answer ended }
    {
        match ended {
            Ok(cost) => Answer::costing(VALID, 0, cost),
            Err(fault) => Answer::unanswered(FaultNumbers::of(fault)),
        }
    }

    /// Returns the answer of a run that checks.
    pub fn of_check(ended: Result<Verdict, Fault>) -> Answer
        ensures { result ≡ check_answer ended }
    {
        match ended {
            Ok(verdict) => Answer::of_verdict(verdict),
            Err(fault) => Answer::unanswered(FaultNumbers::of(fault)),
        }
    }
}

impl FaultNumbers {
    /// Returns the numbers of what was refused before an answer, if anything was.
    pub fn of_refused(refused: Option<CheckFault>) -> FaultNumbers
        ensures { result ≡ refused_numbers refused }
    {
        match refused {
            None => FaultNumbers::none(),
            Some(refusal) => FaultNumbers::of_refusal(refusal),
        }
    }
}

impl Solution {
    /// Returns that there is no answer, for this error.
    pub fn unsolved(fault: FaultNumbers) -> Solution
        ensures { result ≡ unsolved fault }
    {
        Solution {
            answer: Answer::unanswered(fault),
            refused: FaultNumbers::none(),
            is_written: 0,
            plan_length: 0,
            cert_length: 0,
        }
    }
}
