use std::fmt::Debug;
use std::process::Abort;

/// Stops the test, and prints both, where what was found isn't what is wanted.
pub fn check_equal<T: PartialEq + Debug + Drop>(rt: &impl Abort, found: T, want: T) {
    assert_eq!(rt; found, want);
}
