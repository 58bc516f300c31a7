//! An answer of a search of which only that it returns is proved. Its two texts are made in memory, and they count only
//! if the check accepts them. The run of `solve` by such a search writes what is returned here.
ghost use Rattle.std.specs.Prelude.{◌≤◌, ℕ, IfOk, IfErr, IfSome};
ghost use Rattle.mapf_app.specs.Answered.{IsLimitedBy};
ghost use Rattle.mapf_app.specs.Checked.{HasNoRefusedMemory, IsBoundInRange, IsKindOf};
ghost use Rattle.mapf_app.specs.Solved.{Prints};
ghost use Rattle.mapf_certificate.specs.Plans.{IsCauseInRange};
ghost use Rattle.mapf_checker.specs.declared.fault.Verdict.{Verdict};
ghost use Rattle.mapf_model.specs.Limits.{most_splits};
ghost use Rattle.mapf_words.specs.declared.job.Search.TheVariants.{Cbsh};

use crate::kind::Kind;
use crate::plan_in_hand::{PlanInHand, plan_in_hand};
use mapf_certificate::laws::plans_are_spelled_apart;
use mapf_certificate::{CertFault, PlanAnswer, PlanText, Version, write_plan};
use mapf_checker::{CheckFault, Verdict, check, check_plan};
use mapf_groups::{Outcome, search_below};
use mapf_lemma_texts::{Part, WriteFault, write_lemma_cert};
use mapf_model::limits::GREATEST_SUM;
use mapf_model::{Cause, Claim, OutOfMemory, Plan, Problem, Watcher};
use std::alloc::Global;

/// An answer with its two texts, which the check accepted.
#[derive(Debug, Drop)]
pub struct Checked {
    pub kind: Kind,
    pub plan: Vec<u8>,
    pub cert: Vec<u8>,
}

/// Why there is no answer of the second search that can be written. The variant `Memory` of `CheckFault` never
/// occurs in here.
#[derive(Clone, Copy, Debug, PartialEq, Eq)]
pub enum Unaccepted {
    /// The check refused the answer.
    Refused(CheckFault),
    /// Memory ran out while the answer was searched for, spelled or checked. That is no refusal.
    Memory,
}

impl From<OutOfMemory> for Unaccepted {
    ghost use Rattle.std.specs.Prelude.{◌≡◌};
    ghost use Rattle.mapf_app.specs.declared.checked.Unaccepted.TheVariants.{Memory};

    ghost from_gives = { λ _ given. given ≡ Memory };

    fn from(_refused: OutOfMemory) -> Unaccepted {
        Unaccepted::Memory
    }
}

impl From<CheckFault> for Unaccepted {
    ghost use Rattle.std.specs.Prelude.{◌≡◌};
    ghost use Rattle.mapf_app.specs.Checked.{of_check};

    ghost from_gives = { λ fault given. given ≡ of_check fault };

    fn from(fault: CheckFault) -> Unaccepted {
        match fault {
            CheckFault::Memory => Unaccepted::Memory,
            _ => Unaccepted::Refused(fault),
        }
    }
}

impl From<WriteFault> for Unaccepted {
    ghost use Rattle.std.specs.Prelude.{◌≡◌};
    ghost use Rattle.mapf_app.specs.Checked.{of_write};

    ghost from_gives = { λ fault given. given ≡ of_write fault };

    fn from(fault: WriteFault) -> Unaccepted {
        match fault {
            WriteFault::TooMany => Unaccepted::Refused(CheckFault::C2(CertFault::K3(4))),
            WriteFault::Memory => Unaccepted::Memory,
        }
    }
}

/// What `cbsh` may do.
#[derive(Clone, Copy, Debug, PartialEq, Eq)]
pub struct Effort {
    /// How many splits the search may make: 0 to 100,000. It may make 300 all the same.
    pub limit: u32,
    /// How many improvements of the first plan are tried: 0 to 1,000,000.
    pub improvements: u32,
}

/// Makes a plan, searches by `cbsh` for a cheaper one, and checks the answer. Returns why it is refused otherwise, or
/// that memory ran out.
pub fn search_checked<W: Watcher>(
    alloc: Global,
    problem: &Problem,
    effort: Effort,
    watcher: &mut W,
) -> Result<Checked, Unaccepted>
    requires { effort.limit ≤ most_splits }
    ensures prints { IfOk result (λ checked.
        Prints Cbsh problem.now checked.kind checked.plan.items checked.cert.items) }
    ensures limit { IfOk result (λ checked. IsLimitedBy effort.limit checked.kind) }
    ensures inner { IfErr result HasNoRefusedMemory }
{
    let limit = effort.limit;
    let in_hand = plan_in_hand(alloc, problem, effort.improvements)?;
    let below = match &in_hand {
        Some(found) => {
            watcher.note_plan(found.cost);
            found.cost
        }
        None => u64::MAX,
    };
    match search_below(alloc, problem, limit, below, watcher)? {
        Outcome::Found { plan, parts } => found(alloc, problem, plan, &parts),
        Outcome::Impossible { parts } => {
            judged(
                alloc,
                problem,
                PlanAnswer::Impossible,
                Claim::Impossible,
                &parts,
            )
        }
        Outcome::Limit {
            cause,
            bound,
            parts,
        } => {
            let bound = bound.min(GREATEST_SUM);
            if let Some(found) = in_hand {
                return beside(alloc, problem, found, bound, &parts);
            }
            let answer = PlanAnswer::Bounded {
                cause: cause_within(cause, limit),
                bound,
            };
            judged(alloc, problem, answer, Claim::Bound(bound), &parts)
        }
    }
}

// Returns a plan that the search found, if the check accepts it as optimal.
fn found(
    alloc: Global,
    problem: &Problem,
    plan: Plan,
    parts: &[Part],
) -> Result<Checked, Unaccepted>
    ensures prints { IfOk result (λ checked.
        Prints Cbsh problem.now checked.kind checked.plan.items checked.cert.items) }
    ensures limit { (limit : ℕ) → IfOk result (λ checked. IsLimitedBy limit checked.kind) }
    ensures inner { IfErr result HasNoRefusedMemory }
{
    if plan.paths().len() != problem.agents().len() {
        return Err(Unaccepted::Refused(CheckFault::C3));
    }
    match check_plan(problem, &plan) {
        Ok(cost) => judged(
            alloc,
            problem,
            PlanAnswer::Found(plan),
            Claim::Cost(cost),
            parts,
        ),
        Err(fault) => Err(Unaccepted::Refused(CheckFault::C5(fault))),
    }
}

// Returns the plan in hand where the search ended with this bound, if the check accepts both: it is optimal if its cost
// is the bound.
fn beside(
    alloc: Global,
    problem: &Problem,
    in_hand: PlanInHand,
    bound: u64,
    parts: &[Part],
) -> Result<Checked, Unaccepted>
    ensures prints { IfOk result (λ checked.
        Prints Cbsh problem.now checked.kind checked.plan.items checked.cert.items) }
    ensures limit { (limit : ℕ) → IfOk result (λ checked. IsLimitedBy limit checked.kind) }
    ensures inner { IfErr result HasNoRefusedMemory }
{
    let PlanInHand { plan, cost } = in_hand;
    let claim = if bound >= cost {
        Claim::Cost(cost)
    } else {
        Claim::Bound(bound)
    };
    judged(alloc, problem, PlanAnswer::Found(plan), claim, parts)
}

// Returns the cause, with the limit as the number of splits.
fn cause_within(cause: Cause, limit: u32) -> Cause
    requires { limit ≤ most_splits }
    ensures range { IsCauseInRange result }
    ensures limit { (bound : ℕ) → IsLimitedBy limit (Kind.Limit result bound) }
{
    match cause {
        Cause::Splits(_) => Cause::Splits(limit),
        Cause::Ticks => Cause::Ticks,
    }
}

// Makes the plan text of an answer and the certificate of its claim, and returns them if the check accepts them.
fn judged(
    alloc: Global,
    problem: &Problem,
    answer: PlanAnswer,
    claim: Claim,
    parts: &[Part],
) -> Result<Checked, Unaccepted>
    requires { IsBoundInRange answer }
    ensures prints { IfOk result (λ checked.
        Prints Cbsh problem.now checked.kind checked.plan.items checked.cert.items) }
    ensures kind { IfOk result (λ checked. (verdict : Verdict) × IsKindOf verdict answer claim checked.kind) }
    ensures inner { IfErr result HasNoRefusedMemory }
{
    plans_are_spelled_apart();
    // Calling `width` lets the prover use its contract, which says that the grid is well formed.
    let _width = problem.grid().width();
    let agents = problem.agents().len() as u32;
    let text = PlanText {
        version: Version::Two,
        agents,
        answer,
    };
    let plan = write_plan(alloc, &text, problem.grid())?;
    let cert = write_lemma_cert(alloc, problem.grid(), agents, claim, parts)?;
    let verdict = check(alloc, problem, &plan, &cert)?;
    match kind_of(verdict, &text.answer, claim) {
        Some(kind) => Ok(Checked { kind, plan, cert }),
        None => Err(Unaccepted::Refused(CheckFault::C4)),
    }
}

// Returns the answer of a run, if its plan text has this answer and its certificate this claim, and they are accepted
// with this verdict.
fn kind_of(verdict: Verdict, answer: &PlanAnswer, claim: Claim) -> Option<Kind>
    ensures { IfSome result (IsKindOf verdict answer.now claim) }
{
    match (verdict, answer, claim) {
        (Verdict::Optimal(cost), PlanAnswer::Found(_), Claim::Cost(claimed)) if claimed == cost => {
            Some(Kind::Found(cost))
        }
        (Verdict::Within { bound, cost }, PlanAnswer::Found(_), Claim::Bound(claimed))
            if claimed == bound => { Some(Kind::Within { bound, cost }) }
        (Verdict::Impossible, PlanAnswer::Impossible, Claim::Impossible) => Some(Kind::Impossible),
        (Verdict::Bound(bound), PlanAnswer::Bounded { cause, bound: says }, Claim::Bound(claimed))
            if *says == bound && claimed == bound => {
            Some(Kind::Limit {
                cause: *cause,
                bound,
            })
        }
        _ => None,
    }
}
