//! What tests compare, by one call.
use std::fmt::Debug;
use std::process::Abort;

/// What was found is what was wanted; else the test fails, and both are printed.
pub(crate) fn equal<T: PartialEq + Debug + Drop>(rt: &impl Abort, found: T, wanted: T) {
    assert_eq!(rt; found, wanted);
}
