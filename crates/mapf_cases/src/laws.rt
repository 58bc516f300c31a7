//! What the judge of a tree of cases rests on. The judge of a certificate calls these laws.
ghost use Rattle.mapf_cases.specs.Laws.{DefectsRefute, FrontDecides, NoneIsExpected, NodesShowTheirTree};
ghost use Rattle.mapf_cases.specs.Laws.{SomeIsExpected};

/// A list of nodes can be judged in pre-order, with a stack of what stands at the roots of the subtrees that are still
/// to come.
pub fn nodes_are_judged_by_front()
    // The first node decides, and then the others.
    ensures front { FrontDecides }
    // After the last expected tree there are no nodes.
    ensures none { NoneIsExpected }
    // Before it there are some.
    ensures some { SomeIsExpected }
    // The nodes of a tree show what it shows.
    ensures tree { NodesShowTheirTree }
{}

/// A node that the judge refuses doesn't show what it has to show.
pub fn defects_refute()
    ensures { DefectsRefute }
{}
