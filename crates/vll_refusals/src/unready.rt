//! The failure to make what a function needs before it is called.
use std::fmt::Debug;

/// The function could not be called: what it needs could not be made. It has no `Debug`, so that each error that has it
/// becomes this one by `?`.
#[derive(Clone, Copy)]
pub(crate) struct Unready;

impl<E: Debug + Drop> From<E> for Unready {
    fn from(_: E) -> Unready {
        Unready
    }
}
