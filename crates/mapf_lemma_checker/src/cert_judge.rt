//! The judge of a certificate of version 3: its header, and its parts as they are read from the source. The check of
//! both texts calls it.
ghost use Rattle.std.specs.Prelude.{◌≡◌, ◌≤◌, ◌<◌, ◌^◌, ◌++◌, ℕ, List, Some, false, length, option_map};
ghost use Rattle.std.specs.Prelude.{IfErr, IfOk, OnOk, IsTrue, MatchResult, Option};
ghost use Rattle.mapf_certificate.specs.Buffered.{spare};
ghost use Rattle.mapf_certificate.specs.Window.{ComesWithin};
ghost use Rattle.mapf_lemma_texts.specs.PartReading.{PartReading, AwaitsParts, AwaitsText, TakesHeader};
ghost use Rattle.mapf_lemma_texts.specs.declared.part.Part.{Part};
ghost use Rattle.mapf_lemmas.specs.Lemmas.{target_of};
ghost use Rattle.mapf_model.specs.declared.item.Claim.{Claim};
ghost use Rattle.mapf_lemma_checker.specs.Answers.{FitsAnswer};
ghost use Rattle.mapf_lemma_checker.specs.CertJudging.{IsOpened, IsBetweenParts, IsJudgedTo, IsJudgedOn};
ghost use Rattle.mapf_lemma_checker.specs.CertJudging.{AreJudgedParts, HasHeaderRefusal, HasPartRefusal};
ghost use Rattle.mapf_lemma_checker.specs.Faults.{IsNoRefusal, IsOfChecking};
ghost use Rattle.mapf_lemma_checker.specs.States.{first_state};
ghost use Rattle.mapf_lemma_checker.specs.Judges.{IsReady, state_of};
ghost use Rattle.mapf_lemma_checker.specs.Whole.{IsGoodLemmaCert, IsShownByLemmas, HasLemmaRefusal};

use crate::answer::{fits_answer, target_of};
use crate::fault::{LemmaFault, LemmaRefusal};
use crate::laws;
use crate::lemma_judge::LemmaJudge;
use mapf_certificate::LineBuffer;
use mapf_lemma_texts::{PartReader, part_laws};
use mapf_lemmas::laws as lemma_laws;
use mapf_model::{Claim, Problem, Source};
use std::alloc::Global;

/// Checks that what is in the buffer, of which nothing was taken, and what then comes from the source is a certificate
/// of version 3 for the problem that shows its claim, and that the claim fits an answer whose claim is `answer`.
/// Returns the certificate's claim, or the first error.
pub fn judge_lemmas<S: Source>(
    alloc: Global,
    problem: &Problem,
    answer: &Claim,
    source: &mut S,
    buffer: LineBuffer,
) -> Result<Claim, LemmaFault>
    requires works { S.has_failed source.old ≡ false }
    requires bounded { spare buffer < 2 ^ 64 }
    ensures works { OnOk result (S.has_failed source.new ≡ false) }
    ensures came { OnOk result (ComesWithin (S.remaining source.old) (S.remaining source.new) buffer) }
    // The claim fits the answer, and some certificate of version 3 shows it.
    ensures fits { IfOk result (FitsAnswer answer.now) }
    ensures shown { IfOk result (IsShownByLemmas problem.now) }
    // If the source reports its bytes: they are accepted if and only if they spell such a certificate, unless memory
    // runs out, the source fails or it gives too many bytes.
    ensures good { (bytes : List ℕ) → S.remaining source.old ≡ Some bytes
        → IfOk result (λ claim. IsGoodLemmaCert problem.now claim (buffer.bytes ++ bytes)) }
    ensures within { (bytes : List ℕ) → S.remaining source.old ≡ Some bytes → OnOk result (length bytes ≤ buffer.left) }
    ensures only { (bytes : List ℕ) (claim : Claim) → S.remaining source.old ≡ Some bytes → FitsAnswer answer.now claim
        → IsGoodLemmaCert problem.now claim (buffer.bytes ++ bytes)
        → MatchResult result (λ given. given ≡ claim) IsNoRefusal }
    ensures stops { IfErr result (IsOfChecking (S.remaining source.old) (S.remaining source.new)
        (S.has_failed source.new) buffer
        (HasLemmaRefusal problem.now answer.now
        (option_map (λ bytes. buffer.bytes ++ bytes) (S.remaining source.old)))) }
{
    part_laws::texts_have_trees();
    part_laws::trees_have_texts();
    laws::parts_show_certificates();
    let grid = problem.grid();
    let mut reader = PartReader::over(alloc, grid.width(), grid.height(), buffer);
    let claim = judge_header(problem, answer, &mut reader, source)?;
    let judge = LemmaJudge::new(alloc, problem, target_of(&claim))?;
    judge_parts(problem, judge, &mut reader, source)?;
    Ok(claim)
}

// Checks that the header is for the problem's number of agents, and that its claim fits the answer. Returns the claim.
fn judge_header<S: Source>(
    problem: &Problem,
    answer: &Claim,
    reader: &mut PartReader,
    source: &mut S,
) -> Result<Claim, LemmaFault>
    requires works { S.has_failed source.old ≡ false }
    requires opened { IsOpened problem.now reader.old }
    ensures works { OnOk result (S.has_failed source.new ≡ false) }
    ensures fits { IfOk result (FitsAnswer answer.now) }
    ensures between { IfOk result (λ claim. IsBetweenParts problem.now (target_of claim) reader.new first_state) }
    ensures taken { IfOk result (TakesHeader (S.remaining source.old) (S.remaining source.new) reader.old reader.new
        (length problem.now.agents)) }
    ensures due { OnOk result (reader.new.due ≡ reader.old.due) }
    ensures only { (agents : ℕ) (claim : Claim) (parts : List Part)
        → AwaitsText (S.remaining source.old) reader.old agents claim parts
        → IfOk result (λ given. (given ≡ claim) × AwaitsParts (S.remaining source.new) reader.new parts) }
    ensures stops { IfErr result (IsOfChecking (S.remaining source.old) (S.remaining source.new)
        (S.has_failed source.new) reader.old.buffer
        (HasHeaderRefusal problem.now answer.now (S.remaining source.old) reader.old)) }
{
    let (agents, claim) = reader.header(source)?;
    if agents as usize != problem.agents().len() {
        return Err(LemmaFault::Refused(LemmaRefusal::C3));
    }
    if !fits_answer(answer, &claim) {
        return Err(LemmaFault::Refused(LemmaRefusal::C4));
    }
    Ok(claim)
}

// Judges the parts of the certificate, up to its end.
fn judge_parts<S: Source>(
    problem: &Problem,
    mut judge: LemmaJudge,
    reader: &mut PartReader,
    source: &mut S,
) -> Result<(), LemmaFault>
    requires works { S.has_failed source.old ≡ false }
    requires ready { IsReady problem.now judge }
    requires nothing { state_of judge ≡ first_state }
    requires between { IsBetweenParts problem.now judge.target reader.old first_state }
    ensures works { OnOk result (S.has_failed source.new ≡ false) }
    ensures came { OnOk result (ComesWithin (S.remaining source.old) (S.remaining source.new) reader.old.buffer) }
    ensures judged { OnOk result (AreJudgedParts problem.now judge.target (S.remaining source.old) reader.old) }
    ensures stops { IfErr result (IsOfChecking (S.remaining source.old) (S.remaining source.new)
        (S.has_failed source.new) reader.old.buffer
        (HasPartRefusal problem.now judge.target (S.remaining source.old) reader.old)) }
{
    while judge_next(problem, &mut judge, reader, source)? {}
    Ok(())
}

// Judges the next part of the certificate. Returns false at its end.
fn judge_next<S: Source>(
    problem: &Problem,
    judge: &mut LemmaJudge,
    reader: &mut PartReader,
    source: &mut S,
) -> Result<bool, LemmaFault>
    requires works { S.has_failed source.old ≡ false }
    requires ready { IsReady problem.now judge.old }
    requires between { IsBetweenParts problem.now judge.old.target reader.old (state_of judge.old) }
    ensures works { OnOk result (S.has_failed source.new ≡ false) }
    ensures ready { OnOk result (IsReady problem.now judge.new) }
    ensures target { judge.new.target ≡ judge.old.target }
    ensures between { IfOk result (λ came. IsTrue came
        → IsBetweenParts problem.now judge.old.target reader.new (state_of judge.new)) }
    ensures nearer { IfOk result (λ came. IsTrue came → spare reader.new.buffer < spare reader.old.buffer) }
    // This holds whatever was read and judged before.
    ensures judged { (had : Option (List ℕ)) (start : PartReading)
        → IsJudgedTo problem.now judge.old.target had (S.remaining source.old) start reader.old (state_of judge.old)
        → IsJudgedOn problem.now judge.old.target had (S.remaining source.new) (S.has_failed source.new) start
        reader.new (state_of judge.new) result }
{
    lemma_laws::lemmas_are_decided();
    let Some(part) = reader.next_part(source)? else {
        return Ok(false);
    };
    judge.part(problem, part, reader.line())?;
    Ok(true)
}
