//! Which problems a tree of version 1 or 2 can show to be impossible, as a law. The program doesn't call it.
ghost use Rattle.mapf_laws.specs.Impossible.{ImpossibleIsTrivial, TrivialIsShown};

use mapf_model::laws::label_bound;

/// A tree of version 1 or 2 shows `impossible` if and only if two agents share a start, two agents share a goal, or an
/// agent's goal can't be reached from its start. If none of this holds, all agents can wait at their starts until the tick
/// of every split has passed and walk then, and some leaf allows that. A certificate of version 3 shows it of more
/// problems: a lemma of joint cells says that two agents can't both arrive without a conflict.
pub fn impossible_is_trivial()
    // A tree shows it only for such a problem.
    ensures only { ImpossibleIsTrivial }
    // For each such problem some tree shows it.
    ensures shown { TrivialIsShown }
{
    label_bound();
}
