//! The room for scans, and the scan for the first waiting entry that may run.
ghost use Rattle.std.specs.Prelude.{◌≡◌, ◌≤◌, ◌↔◌, ◌⊎◌, Ok, Err};
ghost use Rattle.vll_sca.specs.Scan.{scan};
ghost use Rattle.vll_sca.specs.declared.bits.BitsFault.TheVariants as BitsFault;

use crate::claim_marks::ClaimMarks;
use crate::entries::{Entries, Listed};
use crate::entry::Entry;
use crate::place::Place;
use std::alloc::Global;
use std::marker::Model;

/// The most bits that records can share: 2^20.
pub const MOST_BITS: u32 = 1_048_576;

// As docs/SCENARIO.md says.
const _: () = prove!(MOST_BITS == 1_048_576);

// Clearing this many bits takes about as long as clearing the marks of one entry.
const BITS_OF_AN_ENTRY: u32 = 1_024;

/// The room for scans: two arrays of bits that records share. Contracts see the number of bits.
#[derive(Drop)]
pub struct Bits {
    count: u32,
    // Clear between scans, so that a short scan costs no walk over the bits.
    marks: ClaimMarks,
}

impl Model for Bits {
    ghost use Rattle.std.specs.Prelude.{ℕ};

    ghost Value = { ℕ };

    ghost use Rattle.vll_sca.specs.Private.Bits.{IsReady};

    ghost view = { λ b. b.count };

    ghost invariant = { IsReady };
}

/// Why there is no room for scans.
#[derive(Clone, Copy, PartialEq, Eq, Debug)]
pub enum BitsFault {
    /// The number of bits is not 1 to `MOST_BITS`.
    Size,
    /// An allocation failed.
    NoMemory,
}

impl Bits {
    /// Allocates room for scans over `n` bits. Fails with `Size` exactly if `n` is not 1 to `MOST_BITS`, before any
    /// memory is requested. The only other fault is `NoMemory`.
    pub fn new(alloc: Global, n: u32) -> Result<Bits, BitsFault>
        ensures size { result ≡ Err BitsFault.Size ↔ ¬ ((1 ≤ n) × (n ≤ MOST_BITS)) }
        ensures made { (result ≡ Ok n) ⊎ (result ≡ Err BitsFault.Size) ⊎ (result ≡ Err BitsFault.NoMemory) }
    {
        if n < 1 || n > MOST_BITS {
            return Err(BitsFault::Size);
        }
        let marks = ClaimMarks::new(alloc, n as usize).map_err(|_| BitsFault::NoMemory)?;
        Ok(Bits { count: n, marks })
    }

    /// Returns the index of the first waiting entry that is in hash conflict with no earlier entry that is running or
    /// waiting, or `None` if there is none. Two entries are in hash conflict if a claim of one and a claim of the other
    /// have the same place, modulo the number of bits, and at least one of the two is Write. So a collision can only
    /// hold an entry back. Earlier scans have no effect. Allocates nothing. The cost grows with the number of entries
    /// passed, not with the number of bits.
    pub fn scan<H: Place>(&mut self, hash: &H, entries: &[Entry]) -> Option<usize>
        ensures found { result ≡ scan (H.place_of hash.now) self.old entries.now }
        ensures same { self.new ≡ self.old }
    {
        self.scan_among(hash, &Listed(entries))
    }

    /// Scans entries that need not lie in one slice: the same as `scan` of the list of them.
    pub fn scan_among<H: Place, E: Entries>(&mut self, hash: &H, entries: &E) -> Option<usize>
        ensures found { result ≡ scan (H.place_of hash.now) self.old (E.entries_of entries.now) }
        ensures same { self.new ≡ self.old }
    {
        let found = self.marks.first_clear(hash, self.count, entries);
        let passed = found.unwrap_or(entries.len());
        // Both leave no mark; the cheaper one is used.
        if passed > (self.count / BITS_OF_AN_ENTRY) as usize {
            self.marks.clear_all();
        } else {
            self.marks.take_back(hash, self.count, entries, passed);
        }
        found
    }
}
