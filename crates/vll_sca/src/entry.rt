//! An entered call as the contention analysis sees it.
use crate::status::Status;
use vll_record::Claims;

/// An entered call as the analysis sees it: its claims and its status.
#[derive(Clone, Copy)]
pub struct Entry {
    pub claims: Claims,
    pub status: Status,
}
