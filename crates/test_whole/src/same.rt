//! The assertion that the tests share.

use std::fmt::Debug;
use std::process::Abort;

/// Fails unless two values are the same. The message has both, and the words of `place`. Each `assert_eq!` needs a proof
/// of its own, which takes longer than the proof of a call.
pub fn assert_same<T: Debug + PartialEq>(rt: &impl Abort, found: &T, wanted: &T, place: &str) {
    assert_eq!(rt; found, wanted, "{place}");
}
