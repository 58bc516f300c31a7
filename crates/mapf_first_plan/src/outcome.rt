//! The result of the search for a first plan.
use mapf_model::Plan;

/// How the search for a first plan ended.
#[derive(Debug, Drop)]
pub enum FirstPlan {
    /// A plan, without waits at the ends of its paths.
    Found(Plan),
    /// No plan is valid: that is plain, or each configuration that can be reached was met. Nothing shows it to anybody
    /// else.
    Impossible,
    /// As many successors were tried as the bound allows.
    Stopped,
}
