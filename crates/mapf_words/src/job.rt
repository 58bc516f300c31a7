//! What a command line can ask for. The reader of arguments makes a job, and `main` does it.
/// Which search finds the answer.
#[derive(Clone, Copy, Debug, PartialEq, Eq)]
pub enum Search {
    /// Plain conflict-based search.
    Cbs,
    /// The second search, whose answer is checked before it is written.
    Cbsh,
}

/// How many improvements of a first plan may be asked for, at most.
pub const MOST_IMPROVEMENTS: u32 = 1_000_000;

/// How many improvements are tried for each agent if no number is asked for.
pub const IMPROVEMENTS_FOR_EACH: u32 = 50;

/// What the arguments ask for. Strings are names of files, except in `Explain`.
#[derive(Debug, PartialEq, Eq, Drop)]
pub enum Job {
    /// Solve and check a small built-in problem.
    Demo,
    /// Search for an optimal plan for the first `k` agents with at most `limit` splits.
    Solve {
        map: String,
        scen: String,
        /// 1 to 200.
        k: u32,
        /// 0 to 100,000.
        limit: u32,
        plan: String,
        cert: String,
    },
    /// The same by the search of this name, other than plain conflict-based search.
    SolveBy {
        search: Search,
        map: String,
        scen: String,
        /// 1 to 200.
        k: u32,
        /// 0 to 100,000.
        limit: u32,
        /// How many improvements of a first plan are tried: 0 to 1,000,000.
        improvements: u32,
        plan: String,
        cert: String,
    },
    /// Search by the search of this name, and tell the answer as an object of JSON.
    SolveInJson {
        search: Search,
        map: String,
        scen: String,
        /// 1 to 200.
        k: u32,
        /// 0 to 100,000.
        limit: u32,
        /// How many improvements of a first plan are tried: 0 to 1,000,000, and 0 by plain search.
        improvements: u32,
        plan: String,
        cert: String,
    },
    /// Check a plan text and a certificate for the first `k` agents.
    Check {
        map: String,
        scen: String,
        /// 1 to 200.
        k: u32,
        plan: String,
        cert: String,
    },
    /// The same, and tell the verdict as an object of JSON.
    CheckInJson {
        map: String,
        scen: String,
        /// 1 to 200.
        k: u32,
        plan: String,
        cert: String,
    },
    /// Show the plan of a plan text of the first `k` agents, tick by tick.
    Play {
        map: String,
        scen: String,
        /// 1 to 200.
        k: u32,
        plan: String,
    },
    /// Let the first `k` agents follow the plan of a plan text, and write the reply to each agent that asks to move on
    /// in an event text.
    Dispatch {
        map: String,
        scen: String,
        /// 1 to 200.
        k: u32,
        plan: String,
        events: String,
    },
    /// Let the first `k` agents follow the plan of a plan text, and answer each line of standard input as it comes.
    Follow {
        map: String,
        scen: String,
        /// 1 to 200.
        k: u32,
        plan: String,
    },
    /// Say in words what a line means that the program prints.
    Explain {
        line: String,
    },
}
