//! Asserts, each proved once: proving one in place takes a second or two, proving a call of one takes no time.
ghost use Rattle.std.specs.Prelude.{IsTrue};

use std::fmt::Debug;
use std::process::Abort;

// Asserts that the two are equal.
pub(crate) fn equal<T: PartialEq + Debug + Drop>(rt: &impl Abort, found: T, wanted: T) {
    assert_eq!(rt; found, wanted);
}

// Asserts that this holds, which is known afterwards.
pub(crate) fn holds(rt: &impl Abort, condition: bool)
    ensures { IsTrue condition }
{
    assert!(rt; condition);
}

// Asserts that this holds, in this row of a table.
pub(crate) fn holds_at<R: Debug + Drop>(rt: &impl Abort, row: R, condition: bool) {
    assert!(rt; condition, "at {row:?}");
}
