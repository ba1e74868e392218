//! One comparison for all tests.
use std::fmt::Debug;
use std::process::Abort;

/// Compares the outcome of a row with the expected one: a test that fails says its row. A call that
/// has no row is named.
pub(crate) fn compare<R: Debug + Drop, T: Debug + Drop + PartialEq>(
    rt: &impl Abort,
    row: R,
    found: T,
    wanted: T,
) {
    assert_eq!(rt; found, wanted, "{row:?}");
}
