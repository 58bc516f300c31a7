//! How a run ends for the user: its line, on standard output or standard error, and its exit status. The program calls
//! these after each run, but for `tell_solve`.
ghost use Rattle.std.specs.Prelude.{◌≡◌, ℕ, List, false, None, IfOk, IfErr, IfSome, OnOk, MatchBool, if◌then◌else◌};
ghost use Rattle.std.specs.Result.{is_err};
ghost use Rattle.mapf_app.specs.FaultLines.{fault_line};
ghost use Rattle.mapf_app.specs.Told.{Gets, IsRefusedLine, Tells, is_refusal, kind_status, kind_line, message_text};
ghost use Rattle.mapf_app.specs.Told.{verdict_line};

use crate::answer_writer::Answered;
use crate::fault::Fault;
use crate::kind::Kind;
use crate::line::{Line, write_line, write_refused};
use mapf_checker::{CheckFault, Verdict};
use mapf_model::{Cause, Failed, Sink};

// The exit statuses.
const DONE: u8 = 0;

const REFUSED: u8 = 1;

const FAULT: u8 = 2;

const IMPOSSIBLE: u8 = 3;

const LIMIT: u8 = 4;

// Returns the status, or that of an error if the line could not be written.
fn told(written: Result<(), Failed>, status: u8) -> u8
    ensures { result ≡ if is_err written then 2 else status }
{
    match written {
        Ok(()) => status,
        Err(Failed) => FAULT,
    }
}

fn kind_line(kind: Kind) -> (Line, u8)
    ensures text { message_text result.0 ≡ kind_line kind }
    ensures status { result.1 ≡ kind_status kind }
{
    match kind {
        Kind::Found(cost) => (Line::of("cost").with(cost), DONE),
        Kind::Impossible => (Line::of("impossible"), IMPOSSIBLE),
        Kind::Limit {
            cause: Cause::Splits(splits),
            bound,
        } => (Line::of("limit").with(splits as u64).bounded(bound), LIMIT),
        Kind::Limit {
            cause: Cause::Ticks,
            bound,
        } => (Line::of("limit ticks").bounded(bound), LIMIT),
        Kind::Within { bound, cost } => (Line::of("within").with_two(bound, cost), LIMIT),
    }
}

/// Prints the answer of a solving run as a line on `out`, or its error as a line on `err`. Returns the exit status: 0
/// solved, 3 impossible, 4 a limit, also if there is a plan, 2 an error, also if the line could not be written.
pub fn tell_solve<O: Sink, E: Sink>(answer: &Result<Kind, Fault>, out: &mut O, err: &mut E) -> u8
    requires out_works { O.has_failed out.old ≡ false }
    requires err_works { E.has_failed err.old ≡ false }
    // The other sink isn't called.
    ensures answer { IfOk answer.now (λ kind. (err.new ≡ err.old) × Tells
        (O.has_failed out.new) (O.contents out.old) (O.contents out.new) (kind_line kind) (kind_status kind) result) }
    ensures fault { IfErr answer.now (λ fault. (out.new ≡ out.old)
        × Tells (E.has_failed err.new) (E.contents err.old) (E.contents err.new) (fault_line fault) 2 result) }
{
    match answer {
        Ok(kind) => {
            let (line, status) = kind_line(*kind);
            told(write_line(out, &line), status)
        }
        Err(fault) => told(write_line(err, &Line::of_fault(*fault)), FAULT),
    }
}

// Says on `err` that the answer of the second search was refused, and why, if it was. If that can't be written, the
// answer is told all the same.
fn tell_refused<E: Sink>(refused: Option<CheckFault>, err: &mut E)
    requires { E.has_failed err.old ≡ false }
    ensures quiet { refused ≡ None → err.new ≡ err.old }
    ensures line { IfSome refused (λ refusal. (text : List ℕ) → IsRefusedLine refusal text
        → Gets (E.has_failed err.new) (E.contents err.old) (E.contents err.new) text) }
{
    if let Some(refusal) = refused {
        let _ = write_refused(err, refusal);
    }
}

/// Prints the answer of a solving run by a search of the user's choice, as `tell_solve` does. If the answer of the
/// second search was refused, a line on `err` says so first, and why.
pub fn tell_solve_by<O: Sink, E: Sink>(
    answer: &Result<Answered, Fault>,
    out: &mut O,
    err: &mut E,
) -> u8
    requires out_works { O.has_failed out.old ≡ false }
    requires err_works { E.has_failed err.old ≡ false }
    // The answer is printed on `out`.
    ensures answer { IfOk answer.now (λ given. Tells (O.has_failed out.new) (O.contents out.old) (O.contents out.new)
        (kind_line given.kind) (kind_status given.kind) result) }
    // If an answer was refused, `err` gets the line that says so. Else it isn't called.
    ensures refused { IfOk answer.now (λ given. IfSome given.refused (λ refusal. (text : List ℕ)
        → IsRefusedLine refusal text → Gets (E.has_failed err.new) (E.contents err.old) (E.contents err.new) text)) }
    ensures quiet { IfOk answer.now (λ given. given.refused ≡ None → err.new ≡ err.old) }
    // An error is printed on `err`, and `out` isn't called.
    ensures fault { IfErr answer.now (λ fault. (out.new ≡ out.old)
        × Tells (E.has_failed err.new) (E.contents err.old) (E.contents err.new) (fault_line fault) 2 result) }
{
    match answer {
        Ok(Answered { kind, refused }) => {
            tell_refused(*refused, err);
            let (line, status) = kind_line(*kind);
            told(write_line(out, &line), status)
        }
        Err(fault) => told(write_line(err, &Line::of_fault(*fault)), FAULT),
    }
}

/// Prints the verdict or the refusal of a checking run as a line on `out`, or any other error as a line on `err`.
/// Returns the exit status: 0 accepted, 1 refused, 2 any other error, also if the line could not be written.
pub fn tell_check<O: Sink, E: Sink>(answer: &Result<Verdict, Fault>, out: &mut O, err: &mut E) -> u8
    requires out_works { O.has_failed out.old ≡ false }
    requires err_works { E.has_failed err.old ≡ false }
    // The other sink isn't called.
    ensures verdict { IfOk answer.now (λ verdict. (err.new ≡ err.old)
        × Tells (O.has_failed out.new) (O.contents out.old) (O.contents out.new) (verdict_line verdict) 0 result) }
    ensures fault { IfErr answer.now (λ fault. MatchBool (is_refusal fault)
        ((err.new ≡ err.old)
        × Tells (O.has_failed out.new) (O.contents out.old) (O.contents out.new) (fault_line fault) 1 result)
        ((out.new ≡ out.old)
        × Tells (E.has_failed err.new) (E.contents err.old) (E.contents err.new) (fault_line fault) 2 result)) }
{
    match answer {
        Ok(verdict) => told(write_line(out, &Line::of_verdict(*verdict)), DONE),
        Err(Fault::Refused(refusal)) => {
            told(
                write_line(out, &Line::of_fault(Fault::Refused(*refusal))),
                REFUSED,
            )
        }
        Err(fault) => told(write_line(err, &Line::of_fault(*fault)), FAULT),
    }
}

/// Prints the error of a run that writes its own output, as a line on `err`, and returns the exit status. After a run
/// without an error nothing is printed.
pub fn tell_run<E: Sink>(answer: &Result<(), Fault>, err: &mut E) -> u8
    requires { E.has_failed err.old ≡ false }
    // Without an error `play`, `dispatch`, `follow` and the demo print nothing more, with status 0.
    ensures well { OnOk answer.now ((result ≡ 0) × (err.new ≡ err.old)) }
    // An error of these is its line on standard error, with status 2.
    ensures fault { IfErr answer.now (λ fault.
        Tells (E.has_failed err.new) (E.contents err.old) (E.contents err.new) (fault_line fault) 2 result) }
{
    match answer {
        Ok(()) => DONE,
        Err(fault) => told(write_line(err, &Line::of_fault(*fault)), FAULT),
    }
}
