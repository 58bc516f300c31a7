//! The judge of a certificate of version 1 or 2: its header, and its tree as the items are read from the source. The
//! judge of certificates of any version calls it.
ghost use Rattle.std.specs.Prelude.{◌≡◌, ◌↔◌, ◌∷◌, ◌++◌, ◌<◌, ◌≤◌, ◌^◌, [], ℕ, List, Option, Some, false, length};
ghost use Rattle.std.specs.Prelude.{IfErr, IfOk, OnOk, IsTrue, option_map};
ghost use Rattle.mapf_certificate.specs.Buffered.{spare};
ghost use Rattle.mapf_certificate.specs.CertReading.{Awaits, AwaitsCert, TakesHeader};
ghost use Rattle.mapf_certificate.specs.Reading.{Reading};
ghost use Rattle.mapf_certificate.specs.declared.version.Version.{Version};
ghost use Rattle.mapf_certificate.specs.Window.{ComesWithin};
ghost use Rattle.mapf_model.specs.declared.item.Claim.{Claim};
ghost use Rattle.mapf_model.specs.Tree.{ConstraintTree, Node, NodesShow, Shows, root};
ghost use Rattle.mapf_checker.specs.CertJudging.{IsOpened, IsHeaded, IsBetweenItems, IsReadTo, IsReadOn, IsJudgedTree};
ghost use Rattle.mapf_checker.specs.CertJudging.{HasHeaderRefusal, HasTreeRefusal};
ghost use Rattle.mapf_checker.specs.Faults.{IsOfChecking, IsNoRefusal};
ghost use Rattle.mapf_checker.specs.Progress.{pending_by};
ghost use Rattle.mapf_checker.specs.Refusals.{HasTreeCertRefusal};
ghost use Rattle.mapf_checker.specs.Verdict.{IsGoodTreeCert};

use crate::fault::{CheckFault, FromFault};
use crate::tree::Progress;
use mapf_certificate::{CertLines, LineBuffer};
use mapf_model::{Claim, Problem, Source, laws};
use std::alloc::Global;

/// Checks that what is in the buffer, of which nothing was taken, and what then comes from the source is a certificate
/// of version 1 or 2 for the problem that shows the claim. Returns the first error otherwise.
pub fn judge_tree_cert<S: Source>(
    alloc: Global,
    problem: &Problem,
    claim: &Claim,
    source: &mut S,
    buffer: LineBuffer,
) -> Result<(), FromFault>
    requires works { S.has_failed source.old ≡ false }
    requires bounded { spare buffer < 2 ^ 64 }
    ensures works { OnOk result (S.has_failed source.new ≡ false) }
    ensures came { OnOk result (ComesWithin (S.remaining source.old) (S.remaining source.new) buffer) }
    ensures shown { OnOk result ((tree : ConstraintTree) × Shows problem.now claim.now tree) }
    ensures good { (bytes : List ℕ) → S.remaining source.old ≡ Some bytes
        → OnOk result (IsGoodTreeCert problem.now claim.now (buffer.bytes ++ bytes)) }
    ensures within { (bytes : List ℕ) → S.remaining source.old ≡ Some bytes → OnOk result (length bytes ≤ buffer.left) }
    ensures only { (bytes : List ℕ) → S.remaining source.old ≡ Some bytes
        → IsGoodTreeCert problem.now claim.now (buffer.bytes ++ bytes) → IfErr result IsNoRefusal }
    ensures stops { IfErr result (IsOfChecking (S.remaining source.old) (S.remaining source.new)
        (S.has_failed source.new) buffer
        (HasTreeCertRefusal problem.now claim.now
        (option_map (λ bytes. buffer.bytes ++ bytes) (S.remaining source.old)))) }
{
    laws::items_are_judged_by_front();
    laws::tree_is_unique();
    let grid = problem.grid();
    let mut lines = CertLines::over(alloc, grid.width(), grid.height(), buffer);
    judge_header(problem, claim, &mut lines, source)?;
    judge_tree(alloc, problem, claim, &mut lines, source)
}

// Checks that the header is for the problem's number of agents and makes the claim.
fn judge_header<S: Source>(
    problem: &Problem,
    claim: &Claim,
    lines: &mut CertLines,
    source: &mut S,
) -> Result<(), FromFault>
    requires works { S.has_failed source.old ≡ false }
    requires opened { IsOpened problem.now lines.old }
    ensures works { OnOk result (S.has_failed source.new ≡ false) }
    ensures headed { OnOk result (IsHeaded problem.now claim.now lines.new) }
    ensures taken { OnOk result (TakesHeader (S.remaining source.old) (S.remaining source.new) lines.old lines.new
        (length problem.now.agents) claim.now) }
    ensures ahead { OnOk result ((version : Version) (agents : ℕ) (claimed : Claim) (nodes : List Node)
        → AwaitsCert (S.remaining source.old) lines.old version agents claimed nodes
        → Awaits (S.remaining source.new) lines.new nodes) }
    ensures only { (version : Version) (nodes : List Node)
        → AwaitsCert (S.remaining source.old) lines.old version (length problem.now.agents) claim.now nodes
        → IfErr result IsNoRefusal }
    ensures stops { IfErr result (IsOfChecking (S.remaining source.old) (S.remaining source.new)
        (S.has_failed source.new) lines.old.buffer
        (HasHeaderRefusal problem.now claim.now (S.remaining source.old) lines.old)) }
{
    let (agents, claimed) = lines.header(source)?;
    if agents as usize != problem.agents().len() {
        return Err(FromFault::Refused(CheckFault::C3));
    }
    if !are_one_claim(&claimed, claim) {
        return Err(FromFault::Refused(CheckFault::C4));
    }
    Ok(())
}

fn are_one_claim(a: &Claim, b: &Claim) -> bool
    ensures { IsTrue result ↔ a.now ≡ b.now }
{
    match (*a, *b) {
        (Claim::Cost(a), Claim::Cost(b)) | (Claim::Bound(a), Claim::Bound(b)) => a == b,
        (Claim::Impossible, Claim::Impossible) => true,
        _ => false,
    }
}

// Checks that the items of the certificate's tree show the claim.
fn judge_tree<S: Source>(
    alloc: Global,
    problem: &Problem,
    claim: &Claim,
    lines: &mut CertLines,
    source: &mut S,
) -> Result<(), FromFault>
    requires works { S.has_failed source.old ≡ false }
    requires headed { IsHeaded problem.now claim.now lines.old }
    ensures works { OnOk result (S.has_failed source.new ≡ false) }
    ensures came { OnOk result (ComesWithin (S.remaining source.old) (S.remaining source.new) lines.old.buffer) }
    ensures judged { OnOk result (IsJudgedTree problem.now claim.now (S.remaining source.old) lines.old) }
    ensures only { (nodes : List Node) → Awaits (S.remaining source.old) lines.old nodes
        → NodesShow problem.now claim.now (root ∷ []) nodes → IfErr result IsNoRefusal }
    ensures stops { IfErr result (IsOfChecking (S.remaining source.old) (S.remaining source.new)
        (S.has_failed source.new) lines.old.buffer
        (HasTreeRefusal problem.now claim.now (S.remaining source.old) lines.old)) }
{
    let mut progress = Progress::new(alloc, problem)?;
    while judge_next(alloc, problem, claim, lines, source, &mut progress)? {}
    Ok(())
}

// Judges the next item of the certificate's tree. Returns false at its end.
fn judge_next<S: Source>(
    alloc: Global,
    problem: &Problem,
    claim: &Claim,
    lines: &mut CertLines,
    source: &mut S,
    progress: &mut Progress,
) -> Result<bool, FromFault>
    requires works { S.has_failed source.old ≡ false }
    requires between { IsBetweenItems problem.now claim.now lines.old progress.old }
    ensures works { OnOk result (S.has_failed source.new ≡ false) }
    ensures between { IfOk result (λ came. IsTrue came → IsBetweenItems problem.now claim.now lines.new progress.new) }
    ensures nearer { IfOk result (λ came. IsTrue came → spare lines.new.buffer < spare lines.old.buffer) }
    // This holds whatever was read and judged before.
    ensures judged { (had : Option (List ℕ)) (start : Reading)
        → IsReadTo problem.now claim.now had (S.remaining source.old) start lines.old (pending_by progress.old)
        → IsReadOn problem.now claim.now had (S.remaining source.new) (S.has_failed source.new) start lines.new
        (pending_by progress.new) result }
{
    laws::items_are_judged_by_front();
    laws::only_start_entries_count();
    let Some(item) = lines.next_item(source)? else {
        return Ok(false);
    };
    progress.item(alloc, problem, claim, &item, lines.line())?;
    Ok(true)
}
