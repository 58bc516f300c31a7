//! Why an accepted verdict is true, as a law, which the check of both texts calls; and when there is a verdict, and
//! that there is one at most, as laws that no code calls.
ghost use Rattle.mapf_checker.specs.Verdict.{AcceptedIsTrue, FittingClaimsHaveVerdicts, VerdictIsUnique};

use mapf_certificate::laws::plans_are_spelled_apart;
use mapf_lemma_texts::part_laws::certificates_are_spelled_apart;
use mapf_lemmas::laws::certificates_show_truth;
use mapf_model::laws::{shown_claims_hold, sums_are_one};

/// What is accepted as optimal is optimal, what is accepted as impossible is impossible, and no valid plan has a sum
/// below an accepted bound, whether a tree or a certificate of version 3 shows it.
pub fn accepted_is_true()
    ensures { AcceptedIsTrue }
{
    shown_claims_hold();
    certificates_show_truth();
}

/// A claim fits an answer exactly if there is a verdict on the two.
pub fn fitting_claims_have_verdicts()
    ensures { FittingClaimsHaveVerdicts }
{}

/// Two texts are accepted with one verdict at most, whatever their versions.
pub fn verdict_is_unique()
    ensures { VerdictIsUnique }
{
    plans_are_spelled_apart();
    certificates_are_spelled_apart();
    sums_are_one();
}
