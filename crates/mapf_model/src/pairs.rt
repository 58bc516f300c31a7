//! The first pair of numbers with a property. The search and the checker find conflicts by it, and the beginning of a
//! search finds two agents with one goal.
ghost use Rattle.std.specs.Prelude.{◌<◌, false, true, IfNone, IfSome};
ghost use Rattle.mapf_model.specs.Pairs.{EachPair, EachPairBefore};

/// Returns the first pair `(i, j)` of numbers below `count`, `i` less than `j`, for which the test is true: the one of
/// the least `i`, and of these the one of the least `j`. None if the test is true for no pair.
pub fn first_pair<F: Fn(usize, usize) -> bool>(count: usize, test: F) -> Option<(usize, usize)>
    requires { EachPair (F.pre test) count }
    ensures pair { IfSome result (λ pair. (pair.0 < pair.1) × (pair.1 < count)) }
    ensures some { IfSome result (λ pair. F.post test pair.0 pair.1 true) }
    ensures first { IfSome result (λ pair. EachPairBefore (λ i j. F.post test i j false) count pair.0 pair.1) }
    ensures none { IfNone result (EachPair (λ i j. F.post test i j false) count) }
{
    for i in 0..count {
        for j in i + 1..count {
            if test(i, j) {
                return Some((i, j));
            }
        }
    }
    None
}
