//! How many calls were made and how they ended, and how long they took.
use std::time::Duration;
use vll_proc::{Reason, Reply};

/// How many calls were made, how many of them committed, and how many were aborted as moved.
#[derive(Clone, Copy, PartialEq, Eq)]
pub(crate) struct Count {
    pub calls: u64,
    pub committed: u64,
    pub moved: u64,
}

impl Count {
    /// No call.
    pub(crate) fn none() -> Count {
        Count {
            calls: 0,
            committed: 0,
            moved: 0,
        }
    }

    /// Adds one call.
    pub(crate) fn with_call(self, committed: bool) -> Count {
        Count {
            calls: self.calls.saturating_add(1),
            committed: self.committed.saturating_add(u64::from(committed)),
            moved: self.moved,
        }
    }

    /// Adds one call, with this reply.
    pub(crate) fn with_reply(self, reply: &Option<Reply>) -> Count {
        let is_moved = matches!(reply, Some(Reply::Aborted(Reason::Moved)));
        Count {
            moved: self.moved.saturating_add(u64::from(is_moved)),
            ..self.with_call(matches!(reply, Some(Reply::Committed(_))))
        }
    }

    /// Adds the calls of `others`.
    pub(crate) fn with(self, others: Count) -> Count {
        Count {
            calls: self.calls.saturating_add(others.calls),
            committed: self.committed.saturating_add(others.committed),
            moved: self.moved.saturating_add(others.moved),
        }
    }

    /// How many calls were aborted, for any reason.
    pub(crate) fn aborted(self) -> u64 {
        self.calls.saturating_sub(self.committed)
    }
}

/// How long calls took together, and how many there were.
#[derive(Clone, Copy)]
pub(crate) struct Timed {
    pub time: Duration,
    pub count: Count,
}

impl Timed {
    /// The nanoseconds per call.
    pub(crate) fn nanos_a_call(&self) -> u128 {
        self.time.as_nanos() / u128::from(self.count.calls.max(1))
    }
}
