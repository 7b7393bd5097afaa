//! A column of the drawings: an event of a replay, the machine's answer, and the record's words after it.
use vll_core::{Event, Refusal, Seen};
use vll_record::{Claim, Pair};

/// A record's value and its pair word.
#[derive(Clone, Copy)]
pub(crate) struct RecordWords {
    pub(crate) value: u64,
    pub(crate) pair: u64,
}

impl RecordWords {
    /// The counters of its open claims.
    pub(crate) fn counters(self) -> Pair {
        Pair::of(self.pair)
    }
}

/// An event of a replay, and what the machine showed for it.
#[derive(Clone, Copy)]
pub(crate) struct Column {
    pub(crate) event: Event,
    pub(crate) answer: Result<Seen, Refusal>,
    /// The ticket of the event's call, or the one that the call of the open turn gets. None if the event was refused,
    /// or belongs to no call that has begun to enter.
    pub(crate) ticket: Option<usize>,
    /// The claim that the event concerned, if it concerned one and was not refused.
    pub(crate) claim: Option<Claim>,
    /// The words of this claim's record after the event, 0 if there is no claim.
    pub(crate) words: RecordWords,
}
