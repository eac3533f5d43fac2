//! Comparisons that end the test where they fail. They stand in functions of their own, so that a
//! test has one path, and what is compared lives here alone.
use std::fmt::Debug;
use std::process::Abort;

/// Fails the test, showing both values, where what was found isn't what is wanted.
pub fn same<T: PartialEq + Debug + Drop>(rt: &impl Abort, found: T, want: T) {
    assert_eq!(rt; found, want);
}

/// As `same`, of the elements of two lists in their order.
pub fn same_list<T: PartialEq + Debug>(rt: &impl Abort, found: &[T], want: &[T]) {
    assert_eq!(rt; found, want);
}
