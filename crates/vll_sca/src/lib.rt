//! Selective contention analysis: a scan of the entered calls for the first waiting one that may run. It tells records
//! apart only by their places, a hash modulo the number of bits, so a collision can only hold a call back.
//! Proved: the scan finds the first waiting entry that is in hash conflict with no earlier entry that runs or waits.
//! Entries that conflict are in hash conflict, so no such earlier entry conflicts with the one that is found.
//! Start at `Bits`, which scans; then `Entries`, what it reads; `Place` and `Placing`, the hashes; and `laws.rt`.
//!
//! ```rattle
//! let mut bits = Bits::new(alloc, 1_024)?;
//! let entries = WindowEntries { tickets, journal, statuses }; // in vll_core: a type that implements `Entries`
//! let found = bits.scan_among(&Placing::Spread, &entries); // the index of the entry that may run, or `None`
//! let ticket = tickets.get(found?).copied();
//! ```
#![tactic(auto)]

mod bits;
mod claim_marks;
mod entries;
mod entry;
mod laws;
mod marks;
mod place;
mod status;

pub use bits::{Bits, BitsFault, MOST_BITS};
pub use entries::Entries;
pub use entry::Entry;
pub use laws::{
    conflict_implies_hash_conflict, gone_beginnings_do_not_matter, gone_entries_do_not_matter,
    scanned_entry_waits_and_is_clear,
};
pub use place::{Place, Placing};
pub use status::Status;
