//! What the drivers of tables share.

use std::fmt::Debug;
use std::process::Abort;

/// Compares what a case gave with what it is to give. An assertion is dear to prove, and this one
/// is proved once, for every type.
pub(crate) fn assert_is<T: PartialEq + Debug>(rt: &impl Abort, name: &str, got: &T, wanted: &T) {
    assert_eq!(rt; *got, *wanted, "{name}");
}
