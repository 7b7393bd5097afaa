//! Laws of the scan, for every hash and every number of bits, each the contract of a function that does nothing.
ghost use Rattle.vll_sca.specs.Laws.{ConflictImpliesHashConflict, ScannedEntryIsThere, ScannedEntryWaits, ScannedEntryIsClear, GoneBeginningsDoNotMatter, GoneEntriesDoNotMatter};

/// Two entries that conflict are in hash conflict: a record has one place.
#[tactic(auto, using(crate::proofs::Scanning::conflict_implies_hash_conflict))]
pub fn conflict_implies_hash_conflict()
    ensures { ConflictImpliesHashConflict }
{}

/// The entry that a scan finds is among the entries and waits, and no earlier entry that is running or
/// waiting conflicts with it. So it may run: a collision can only hold an entry back.
pub fn scanned_entry_waits_and_is_clear()
    ensures there { ScannedEntryIsThere }
    ensures waits { ScannedEntryWaits }
    ensures clear { ScannedEntryIsClear }
{}

/// Entries at the front that are gone only change the index of the entry that is found. So they may be left out.
#[tactic(auto, using(crate::proofs::Scanning::gone_beginnings_do_not_matter))]
pub fn gone_beginnings_do_not_matter()
    ensures { GoneBeginningsDoNotMatter }
{}

/// Entries that are gone may be left out wherever they are: the scan finds the same entry.
#[tactic(auto, using(crate::proofs::Leaving::gone_entries_do_not_matter))]
pub fn gone_entries_do_not_matter()
    ensures { GoneEntriesDoNotMatter }
{}
