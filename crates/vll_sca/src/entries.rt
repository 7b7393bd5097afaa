//! The trait by which a scan reads entered calls, in order, with their claims and statuses.
ghost use Rattle.std.specs.Prelude.{◌≡◌, ◌<◌, length, Some, slice_get};
ghost use Rattle.std.specs.Option.{option_map};

use crate::entry::Entry;
use crate::status::Status;
use vll_record::Claims;

/// Entered calls in order, as the analysis reads them, wherever their claims and statuses are stored.
pub trait Entries {
    ghost use Rattle.std.specs.Prelude.{List};
    ghost use Rattle.vll_sca.specs.declared.entry.Entry.{Entry};

    ghost entries_of: { Self → List Entry };

    /// Returns the number of entries.
    fn len(&self) -> usize
        ensures { result ≡ length (entries_of self.now) };

    /// Returns the status of the entry at `index`.
    fn status(&self, index: usize) -> Status
        requires { index < length (entries_of self.now) }
        ensures { option_map (λ e. e.status) (slice_get (entries_of self.now) index) ≡ Some result };

    /// Returns the claims of the entry at `index`.
    fn claims(&self, index: usize) -> &Claims
        requires { index < length (entries_of self.now) }
        ensures { option_map (λ e. e.claims) (slice_get (entries_of self.now) index) ≡ Some result.now };
}

// Entries that lie in one slice.
#[derive(Drop)]
pub(crate) struct Listed<'a>(pub(crate) &'a [Entry]);

impl Entries for Listed<'_> {
    ghost entries_of = { λ l. l.0.now };

    fn len(&self) -> usize {
        self.0.len()
    }

    fn status(&self, index: usize) -> Status {
        self.0[index].status
    }

    fn claims(&self, index: usize) -> &Claims {
        let entry = &self.0[index];
        &entry.claims
    }
}
