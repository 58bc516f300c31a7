//! The result of a search, with the parts of its certificate.
use mapf_lemma_texts::Part;
use mapf_model::{Cause, Plan};

/// What a search found, with the parts of a certificate of version 3. None of it is proved: a checker judges it.
#[derive(Debug, Drop)]
pub enum Outcome {
    /// A plan, and parts that show that no valid plan is cheaper.
    Found {
        plan: Plan,
        parts: Vec<Part>,
    },
    /// No plan is valid, and the parts show it.
    Impossible {
        parts: Vec<Part>,
    },
    /// The search stopped at its limit, or where no plan below the given sum is left. The parts show that no valid plan
    /// has a sum of costs below the bound, in ticks.
    Limit {
        cause: Cause,
        bound: u64,
        parts: Vec<Part>,
    },
}
