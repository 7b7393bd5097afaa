//! The status of an entered call: running, waiting or gone.

/// The status of an entered call.
#[derive(Clone, Copy, PartialEq, Eq, Debug)]
pub enum Status {
    /// It has begun, and is not finished.
    Running,
    /// It was blocked, and has not begun.
    Waiting,
    /// It is finished.
    Gone,
}
