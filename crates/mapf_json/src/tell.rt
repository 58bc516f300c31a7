//! How a run ends for a user who wants an object: the object on standard output, the lines on standard error that the
//! run has anyway, and the same exit status. The program calls this after a run of `solve` or `check` with `--json`.
ghost use Rattle.std.specs.Prelude.{◌≡◌, ℕ, List, false, None, IfOk, IfErr, IfSome, MatchBool, if◌then◌else◌};
ghost use Rattle.std.specs.Result.{is_err};
ghost use Rattle.mapf_app.specs.FaultLines.{fault_line};
ghost use Rattle.mapf_app.specs.Told.{Gets, IsRefusedLine, Tells, is_refusal, kind_status};
ghost use Rattle.mapf_json.specs.Answers.{kind_object, verdict_object};
ghost use Rattle.mapf_app.specs.declared.fault.Fault.TheVariants.{Refused as RefusedFault};
ghost use Rattle.mapf_json.specs.Faults.{fault_object};
ghost use Rattle.mapf_json.specs.Written.{object_text};

use crate::members::write_object;
use crate::nowhere::Nowhere;
use crate::object::Object;
use crate::objects::{of_fault, of_kind, of_verdict};
use mapf_app::{Answered, Fault, Kind, Verdict, tell_run, tell_solve_by};
use mapf_checker::CheckFault;
use mapf_model::{Failed, Sink};

// The exit statuses.
const DONE: u8 = 0;

const REFUSED: u8 = 1;

const FAULT: u8 = 2;

const IMPOSSIBLE: u8 = 3;

const LIMIT: u8 = 4;

// Returns the exit status that goes with an answer of `solve`.
fn status_of(kind: Kind) -> u8
    ensures { result ≡ kind_status kind }
{
    match kind {
        Kind::Found(_) => DONE,
        Kind::Impossible => IMPOSSIBLE,
        Kind::Limit { .. } => LIMIT,
        Kind::Within { .. } => LIMIT,
    }
}

// Returns the status, or that of an error if the object could not be written.
fn told(written: Result<(), Failed>, status: u8) -> u8
    ensures { result ≡ if is_err written then 2 else status }
{
    match written {
        Ok(()) => status,
        Err(Failed) => FAULT,
    }
}

// Prints an object, and returns this status, or that of an error if the object could not be written.
fn tell_object<O: Sink>(object: &Object, status: u8, out: &mut O) -> u8
    requires { O.has_failed out.old ≡ false }
    ensures { Tells (O.has_failed out.new) (O.contents out.old) (O.contents out.new) (object_text object.now) status
        result }
{
    told(write_object(out, object), status)
}

// Prints the object of a refusal, and returns the status of one.
fn tell_refusal<O: Sink>(refusal: CheckFault, out: &mut O) -> u8
    requires { O.has_failed out.old ≡ false }
    ensures { Tells (O.has_failed out.new) (O.contents out.old) (O.contents out.new)
        (fault_object (RefusedFault refusal)) 1 result }
{
    tell_object(&of_fault(Fault::Refused(refusal)), REFUSED, out)
}

// Prints the object of an answer of `solve`, and returns the status that goes with it.
fn tell_kind<O: Sink>(kind: Kind, out: &mut O) -> u8
    requires { O.has_failed out.old ≡ false }
    ensures { Tells (O.has_failed out.new) (O.contents out.old) (O.contents out.new) (kind_object kind) (kind_status kind)
        result }
{
    tell_object(&of_kind(kind), status_of(kind), out)
}

// Prints the object of a verdict, and returns the status of one.
fn tell_verdict<O: Sink>(verdict: Verdict, out: &mut O) -> u8
    requires { O.has_failed out.old ≡ false }
    ensures { Tells (O.has_failed out.new) (O.contents out.old) (O.contents out.new) (verdict_object verdict) 0 result }
{
    tell_object(&of_verdict(verdict), DONE, out)
}

// Prints the line of an error on `err` and its object on `out`, and returns the status of an error.
fn tell_fault<O: Sink, E: Sink>(fault: Fault, out: &mut O, err: &mut E) -> u8
    requires out_works { O.has_failed out.old ≡ false }
    requires err_works { E.has_failed err.old ≡ false }
    ensures { (result ≡ 2)
        × Gets (O.has_failed out.new) (O.contents out.old) (O.contents out.new) (fault_object fault)
        × Gets (E.has_failed err.new) (E.contents err.old) (E.contents err.new) (fault_line fault) }
{
    let status = tell_run(&Err(fault), err);
    let _ = write_object(out, &of_fault(fault));
    status
}

/// Prints the answer of a solving run as an object on `out`, or its error as an object on `out` and as a line on `err`.
/// If the answer of the second search was refused, a line on `err` says so first. Returns the status of `tell_solve_by`.
pub fn tell_solve_json<O: Sink, E: Sink>(
    answer: &Result<Answered, Fault>,
    out: &mut O,
    err: &mut E,
) -> u8
    requires out_works { O.has_failed out.old ≡ false }
    requires err_works { E.has_failed err.old ≡ false }
    // The object of the answer is printed on `out`.
    ensures answer { IfOk answer.now (λ given. Tells (O.has_failed out.new) (O.contents out.old) (O.contents out.new)
        (kind_object given.kind) (kind_status given.kind) result) }
    // If an answer was refused, `err` gets the line that says so. Else it isn't called.
    ensures refused { IfOk answer.now (λ given. IfSome given.refused (λ refusal. (text : List ℕ)
        → IsRefusedLine refusal text → Gets (E.has_failed err.new) (E.contents err.old) (E.contents err.new) text)) }
    ensures quiet { IfOk answer.now (λ given. given.refused ≡ None → err.new ≡ err.old) }
    // The object of an error is printed on `out`, and its line on `err`. The status is that of an error.
    ensures fault { IfErr answer.now (λ fault. (result ≡ 2)
        × Gets (O.has_failed out.new) (O.contents out.old) (O.contents out.new) (fault_object fault)
        × Gets (E.has_failed err.new) (E.contents err.old) (E.contents err.new) (fault_line fault)) }
{
    match answer {
        Ok(Answered { kind, .. }) => {
            let _ = tell_solve_by(answer, &mut Nowhere, err);
            tell_kind(*kind, out)
        }
        Err(fault) => tell_fault(*fault, out, err),
    }
}

/// Prints the verdict or the refusal of a checking run as an object on `out`, or any other error as an object on `out`
/// and as a line on `err`. Returns the status of `tell_check`.
pub fn tell_check_json<O: Sink, E: Sink>(
    answer: &Result<Verdict, Fault>,
    out: &mut O,
    err: &mut E,
) -> u8
    requires out_works { O.has_failed out.old ≡ false }
    requires err_works { E.has_failed err.old ≡ false }
    // The object of the verdict is printed on `out`, and `err` isn't called.
    ensures verdict { IfOk answer.now (λ verdict. (err.new ≡ err.old)
        × Tells (O.has_failed out.new) (O.contents out.old) (O.contents out.new) (verdict_object verdict) 0 result) }
    // So is the object of a refusal. The object of any other error is printed on `out`, and its line on `err`.
    ensures fault { IfErr answer.now (λ fault. MatchBool (is_refusal fault)
        ((err.new ≡ err.old)
        × Tells (O.has_failed out.new) (O.contents out.old) (O.contents out.new) (fault_object fault) 1 result)
        ((result ≡ 2)
        × Gets (O.has_failed out.new) (O.contents out.old) (O.contents out.new) (fault_object fault)
        × Gets (E.has_failed err.new) (E.contents err.old) (E.contents err.new) (fault_line fault))) }
{
    match answer {
        Ok(verdict) => tell_verdict(*verdict, out),
        Err(Fault::Refused(refusal)) => tell_refusal(*refusal, out),
        Err(fault) => tell_fault(*fault, out, err),
    }
}
