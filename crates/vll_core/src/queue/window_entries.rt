//! The calls of a window's tickets, as entries for the contention analysis.
ghost use Rattle.std.specs.Prelude.{◌≡◌, ◌<◌, length, All};

use crate::line::Line;
use vll_record::Claims;
use vll_sca::{Entries, Status};

/// The calls of a window's tickets, as the contention analysis reads them: their claims from the journal, and their
/// statuses from the list by ticket.
#[derive(Drop)]
pub(crate) struct WindowEntries<'a> {
    pub(crate) tickets: &'a [u32],
    pub(crate) journal: &'a [Line],
    pub(crate) statuses: &'a [Status],
    ghost lines: { length journal.now ≡ length statuses.now },
    ghost below: { All (λ t. t < length statuses.now) tickets.now },
}

impl Entries for WindowEntries<'_> {
    ghost use Rattle.vll_core.specs.Private.Window.{entries_at};

    ghost entries_of = { λ w. entries_at w.journal.now w.statuses.now w.tickets.now };

    fn len(&self) -> usize {
        self.tickets.len()
    }

    fn status(&self, index: usize) -> Status {
        self.statuses[self.tickets[index] as usize]
    }

    fn claims(&self, index: usize) -> &Claims {
        let line = &self.journal[self.tickets[index] as usize];
        &line.call.claims
    }
}
