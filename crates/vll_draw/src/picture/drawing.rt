//! What is drawn, band by band: the events of the window, their calls, and the state before them.
use crate::picture::band::{Band, push_band};
use crate::picture::column::{Column, RecordWords};
use crate::picture::markup::BAND;
use std::alloc::{AllocError, Global};
use vll_check::Library;
use vll_core::{Line, Seen};
use vll_record::{RecordId, pair_word, value_word};

/// Returns the id of the record with this number.
pub(crate) fn id_of(record: usize) -> RecordId {
    RecordId(u32::try_from(record).unwrap_or(u32::MAX))
}

/// Returns the number of a record.
pub(crate) fn number_of(id: RecordId) -> usize {
    id.0 as usize
}

/// How far a call has come.
#[derive(Clone, Copy, PartialEq, Eq, Debug)]
pub(crate) enum Phase {
    /// It has not entered.
    Outside,
    /// Its turn is open.
    Turn,
    Waiting,
    Running,
    Gone,
}

/// What is drawn.
#[derive(Clone, Copy)]
pub(crate) struct Drawing<'a> {
    /// The allocator for the drawing.
    pub(crate) alloc: Global,
    /// The number of the first event.
    pub(crate) first: usize,
    pub(crate) columns: &'a [Column],
    /// All calls that have entered, followed by the one whose turn is open.
    pub(crate) journal: &'a [Line],
    pub(crate) library: &'a Library,
}

impl Drawing<'_> {
    /// Returns the number of the event in a column.
    pub(crate) fn number(&self, index: usize) -> usize {
        self.first.saturating_add(index)
    }
}

/// The words of the machine, and the phase of each call, at some time.
#[derive(Drop)]
pub(crate) struct Standing {
    pub(crate) words: Vec<u64>,
    pub(crate) phases: Vec<Phase>,
}

impl Standing {
    pub(crate) fn phase(&self, ticket: usize) -> Phase {
        self.phases.get(ticket).copied().unwrap_or(Phase::Outside)
    }

    /// Returns a record's words.
    pub(crate) fn record(&self, id: RecordId) -> RecordWords {
        let value = self.words.get(value_word(id)).copied().unwrap_or(0);
        let pair = self.words.get(pair_word(id)).copied().unwrap_or(0);
        RecordWords { value, pair }
    }

    // Moves past an event.
    fn pass(&mut self, column: &Column) {
        if let Some(claim) = column.claim {
            if let Some(word) = self.words.get_mut(value_word(claim.id)) {
                *word = column.words.value;
            }
            if let Some(word) = self.words.get_mut(pair_word(claim.id)) {
                *word = column.words.pair;
            }
        }
        if let (Some(ticket), Some(phase)) = (column.ticket, phase_after(column)) {
            if let Some(stands) = self.phases.get_mut(ticket) {
                *stands = phase;
            }
        }
    }
}

/// Returns the phase of a call after an event of it, if the event changes it.
pub(crate) fn phase_after(column: &Column) -> Option<Phase> {
    match &column.answer {
        Ok(Seen::Opened) => Some(Phase::Turn),
        Ok(Seen::Blocked(_)) => Some(Phase::Waiting),
        Ok(Seen::Free(_) | Seen::Run(_)) => Some(Phase::Running),
        Ok(Seen::Replied(_)) => Some(Phase::Gone),
        _ => None,
    }
}

/// Appends the drawings, band by band, starting from the state `before` the first event. After `AllocError` a prefix of
/// them may have been appended.
pub(crate) fn push_bands(
    page: &mut String,
    drawing: &Drawing<'_>,
    before: Standing,
) -> Result<(), AllocError> {
    let mut standing = before;
    for _ in standing.phases.len()..drawing.journal.len() {
        standing.phases.push(Phase::Outside)?;
    }
    let mut start: usize = 0;
    for columns in drawing.columns.chunks(BAND) {
        push_band(page, drawing, &standing, Band { start, columns })?;
        for column in columns {
            standing.pass(column);
        }
        start = start.saturating_add(columns.len());
    }
    Ok(())
}
