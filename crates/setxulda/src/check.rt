// The one comparison of these tests. An `assert_eq!` takes a long proof wherever it stands, and a call of this a short one.
use std::fmt::Debug;
use std::process::Abort;

// `assert_eq!` at values that can be copied. A failure prints both, under the name of the test; where rows are compared in a loop, the row stands in both.
pub(crate) fn check_eq<T: Copy + PartialEq + Debug>(rt: &impl Abort, left: T, right: T) {
    assert_eq!(rt; left, right);
}
