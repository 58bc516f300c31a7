//! How a test compares a value.
use std::fmt::Debug;
use std::process::Abort;

/// The value of this case is the expected one.
pub fn expect_same<T: PartialEq + Debug>(
    rt: &impl Abort,
    case: &impl Debug,
    given: &T,
    expected: &T,
) {
    assert_eq!(rt; *given, *expected, "{case:?}");
}
