//! Assertions as calls. The check proves an `assert_eq!` in each function that has one, with all that it would
//! print; a call of these costs next to nothing. A failed one names the line of the call.
use std::fmt::Debug;
use std::process::Abort;

// The two are equal.
pub(crate) fn assert_equal<T: PartialEq + Debug>(rt: &impl Abort, got: &T, wanted: &T) {
    assert_eq!(rt; *got, *wanted);
}

// The two are equal. If they are not, `place` says in which row, or what was tested.
pub(crate) fn assert_equal_at<T: PartialEq + Debug, P: Debug>(
    rt: &impl Abort,
    got: &T,
    wanted: &T,
    place: &P,
) {
    assert_eq!(rt; *got, *wanted, "at {place:?}");
}
