//! Which events of a schedule a page draws, and how many at most.
ghost use Rattle.std.specs.Prelude.{◌≤◌};

use crate::up_to::UpTo;

/// The most events that a page draws.
pub const MOST_COLUMNS: u32 = 3600;

const _: () = prove!(MOST_COLUMNS == 3_600);

/// The events of a schedule that are drawn. The lines of all events are listed.
#[derive(Clone, Copy, Debug)]
pub struct EventRange {
    /// The number of the first one, from 0.
    pub from: u32,
    /// The most events that are drawn.
    pub count: UpTo<MOST_COLUMNS>,
}
