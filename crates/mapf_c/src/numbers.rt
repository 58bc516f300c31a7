//! The structs that cross to C. `include/mapf.h` has the same fields in the same order, under names of its own.
ghost use Rattle.std.specs.Prelude.{◌≡◌, None};
ghost use Rattle.mapf_c.specs.Dispatchers.{told_visit};

/// An error or a refusal in numbers: `mapf_fault` of the header.
#[repr(C)]
#[derive(Clone, Copy, Debug, PartialEq, Eq)]
pub struct FaultNumbers {
    /// 0 for none, 1 to 6 for F1 to F6, 10 for a number of the caller's that is out of its range, and 11 to 20 for the
    /// refusals C1 to C10.
    pub error: u32,
    /// The error of a text or of a plan inside it: its number, and 100 for M, 200 for S, 300 for P, 400 for K and 500
    /// for V; or 601 to 604 for the text that can't be read, in the order map, scenario, plan, certificate. Else 0.
    pub defect: u32,
    /// How many of the numbers below there are: 0 to 3. The others are 0.
    pub count: u32,
    pub first: u64,
    pub second: u64,
    pub third: u64,
}

/// What a run answers, in numbers: `mapf_answer` of the header.
#[repr(C)]
#[derive(Clone, Copy, Debug, PartialEq, Eq)]
pub struct Answer {
    /// 0 for no answer, 1 for an optimal plan, 2 for a plan within a bound, 3 for a bound alone, 4 for no valid plan,
    /// 5 for a valid plan.
    pub kind: u32,
    /// Why a search answers a bound alone: 1 as its splits are used up, 2 as the ticks of a split are. Else 0.
    pub cause: u32,
    /// A bound in ticks: no valid plan has a smaller sum of costs. 0 where there is none.
    pub bound: u64,
    /// The plan's sum of costs in ticks. 0 where there is no plan.
    pub cost: u64,
    /// Why there is no answer.
    pub fault: FaultNumbers,
}

/// What a search is asked for: `mapf_question` of the header.
#[repr(C)]
#[derive(Clone, Copy, Debug, PartialEq, Eq)]
pub struct Question {
    /// How many agents count: 1 to 200.
    pub agents: u32,
    /// 0 for plain search, 1 for the second search.
    pub search: u32,
    /// How many splits the search may make: 0 to 100,000.
    pub limit: u32,
    /// How many improvements of its first plan the second search tries: 0 to 1,000,000.
    pub improvements: u32,
}

/// What a search answers, and how long its texts are: `mapf_solution` of the header.
#[repr(C)]
#[derive(Clone, Copy, Debug, PartialEq, Eq)]
pub struct Solution {
    pub answer: Answer,
    /// Why the check refused what the second search answered, so that this is the answer of plain search.
    pub refused: FaultNumbers,
    /// 1 if both texts were written, else 0.
    pub is_written: u32,
    /// The bytes of the plan text, 0 if there is no answer.
    pub plan_length: usize,
    /// The bytes of the certificate, 0 if there is no answer.
    pub cert_length: usize,
}

/// The reply to an agent that asks, in numbers: `mapf_reply` of the header.
#[repr(C)]
#[derive(Clone, Copy, Debug, PartialEq, Eq)]
pub struct ReplyNumbers {
    /// 1 to move on, 2 to wait, 3 if it is done, 10 if it isn't an agent.
    pub kind: u32,
    /// The cell to which it moves, or the agent for which it waits. Else 0.
    pub number: u32,
}

/// A visit of an agent, in numbers: `mapf_visit` of the header.
#[repr(C)]
#[derive(Clone, Copy, Debug, PartialEq, Eq)]
pub struct VisitNumbers {
    /// How many visits the agent has. 0 if it isn't an agent.
    pub count: u32,
    /// The cell of this one. 0 if the agent has no visit of this number.
    pub cell: u32,
    /// The tick of the plan at which the agent enters it. 0 if the agent has no visit of this number.
    pub entry: u32,
}

impl VisitNumbers {
    /// Returns that there are so many visits, and none of the number that was asked for.
    pub fn none(count: u32) -> VisitNumbers
        ensures { result ≡ told_visit count None }
    {
        VisitNumbers {
            count,
            cell: 0,
            entry: 0,
        }
    }
}
