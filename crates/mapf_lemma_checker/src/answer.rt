//! Which claims fit an answer, and what a claim asks of the last tree. The judge of a certificate calls these.
ghost use Rattle.std.specs.Prelude.{◌≡◌, ◌↔◌, IsTrue};
ghost use Rattle.mapf_lemmas.specs.Lemmas.{target_of};
ghost use Rattle.mapf_model.specs.Printed.{IsClaimInRange};
ghost use Rattle.mapf_lemma_checker.specs.Answers.{FitsAnswer};

use mapf_lemmas::Amount;
use mapf_model::Claim;

/// Returns whether a certificate may make the claim beside an answer with the first claim. Beside a plan of some cost
/// it may also claim a bound that isn't above the cost.
pub fn fits_answer(answer: &Claim, claim: &Claim) -> bool
    ensures { IsTrue result ↔ FitsAnswer answer.now claim.now }
{
    match (*answer, *claim) {
        (Claim::Cost(cost), Claim::Cost(claimed)) => claimed == cost,
        (Claim::Cost(cost), Claim::Bound(claimed)) => claimed <= cost,
        (Claim::Bound(bound), Claim::Bound(claimed)) => claimed == bound,
        (Claim::Impossible, Claim::Impossible) => true,
        _ => false,
    }
}

/// Returns what all agents have to cost at least for the claim, in ticks.
pub fn target_of(claim: &Claim) -> Amount
    requires { IsClaimInRange claim.now }
    ensures { result ≡ target_of claim.now }
{
    match *claim {
        Claim::Cost(ticks) | Claim::Bound(ticks) => Amount::of(ticks),
        Claim::Impossible => Amount::infinite(),
    }
}
