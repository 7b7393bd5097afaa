//! The places of the claims that a scan has passed, marked by mode, and the test of each entry against these marks.
ghost use Rattle.std.specs.Prelude.{◌≡◌, ◌<◌, ◌≤◌, ◌&&◌, not, false, true, [], ◌∷◌, length, map, take, IfOk};
ghost use Rattle.std.specs.List.{list_any};
ghost use Rattle.vll_sca.specs.Headline.Status.{is_waiting};
ghost use Rattle.vll_sca.specs.Scan.{hashed, scan};
ghost use Rattle.vll_sca.specs.Private.ClaimMarks.{HasRoom, IsClear, meets, with_claims, claims_left, passed};

use crate::entries::Entries;
use crate::marks::Marks;
use crate::place::{Place, place_modulo};
use crate::status::Status;
use std::alloc::{AllocError, Global};
use vll_record::{Claims, Mode};

/// The two bit arrays of the analysis: the places of the claims that were marked, by mode.
#[derive(Drop)]
pub(crate) struct ClaimMarks {
    // DX: the places of Write claims.
    writes: Marks,
    // DS: the places of Read claims.
    reads: Marks,
}

impl ClaimMarks {
    /// Allocates bits for the places below `n`, none of them marked.
    pub(crate) fn new(alloc: Global, n: usize) -> Result<ClaimMarks, AllocError>
        requires { 1 ≤ n }
        ensures room { IfOk result (HasRoom n) }
        ensures clear { IfOk result IsClear }
    {
        Ok(ClaimMarks {
            writes: Marks::new(alloc, n)?,
            reads: Marks::new(alloc, n)?,
        })
    }

    /// Returns the index of the first waiting entry that meets no mark of an earlier one, or `None` if there is none.
    /// An entry that is passed is marked after its own test, so that later entries meet its marks and it does not meet
    /// its own.
    pub(crate) fn first_clear<H: Place, E: Entries>(
        &mut self,
        hash: &H,
        bits: u32,
        entries: &E,
    ) -> Option<usize>
        requires room { HasRoom bits self.old }
        requires clear { IsClear self.old }
        ensures found { result ≡ scan (H.place_of hash.now) bits (E.entries_of entries.now) }
        ensures marked { self.new ≡ with_claims true
            (map (hashed (H.place_of hash.now) bits) (claims_left (passed result (E.entries_of entries.now)))) self.old }
    {
        for i in 0..entries.len() {
            let status = entries.status(i);
            let claims = entries.claims(i);
            if self.is_clear(hash, bits, status, claims) {
                return Some(i);
            }
            self.mark(hash, bits, status, claims, true);
        }
        None
    }

    /// Clears the marks of the first `passed` entries. It tests no mark.
    pub(crate) fn take_back<H: Place, E: Entries>(
        &mut self,
        hash: &H,
        bits: u32,
        entries: &E,
        passed: usize,
    )
        requires room { HasRoom bits self.old }
        requires within { passed ≤ length (E.entries_of entries.now) }
        ensures { self.new ≡ with_claims false
            (map (hashed (H.place_of hash.now) bits) (claims_left (take passed (E.entries_of entries.now)))) self.old }
    {
        for i in 0..passed {
            self.mark(hash, bits, entries.status(i), entries.claims(i), false);
        }
    }

    /// Clears all marks, in time that grows with the number of bits.
    pub(crate) fn clear_all(&mut self)
        ensures writes { length self.new.writes ≡ length self.old.writes }
        ensures reads { length self.new.reads ≡ length self.old.reads }
        ensures clear { IsClear self.new }
    {
        self.writes.clear_all();
        self.reads.clear_all();
    }

    // Reports whether an entry waits and none of its claims meets a mark.
    fn is_clear<H: Place>(&self, hash: &H, bits: u32, status: Status, claims: &Claims) -> bool
        requires { HasRoom bits self.now }
        ensures { result ≡ (is_waiting status
            && not (list_any (meets self.now) (map (hashed (H.place_of hash.now) bits) claims.now))) }
    {
        matches!(status, Status::Waiting) && !self.meets(hash, bits, claims)
    }

    // Marks the claims of an entry that runs or waits, or clears their marks. One that is gone holds no entry back.
    fn mark<H: Place>(&mut self, hash: &H, bits: u32, status: Status, claims: &Claims, marked: bool)
        requires { HasRoom bits self.old }
        ensures { self.new ≡ with_claims marked
            (map (hashed (H.place_of hash.now) bits) (claims_left (record { claims = claims.now; status = status } ∷ []))) self.old }
    {
        if !matches!(status, Status::Gone) {
            self.mark_claims(hash, bits, claims, marked);
        }
    }

    // Reports whether one of these claims meets a mark.
    fn meets<H: Place>(&self, hash: &H, bits: u32, claims: &Claims) -> bool
        requires { HasRoom bits self.now }
        ensures { result ≡ list_any (meets self.now) (map (hashed (H.place_of hash.now) bits) claims.now) }
    {
        for i in 0..claims.len() {
            if let Some(claim) = claims.get(i) {
                if self.meets_at(place_modulo(hash, bits, claim.id), claim.mode) {
                    return true;
                }
            }
        }
        false
    }

    fn mark_claims<H: Place>(&mut self, hash: &H, bits: u32, claims: &Claims, marked: bool)
        requires { HasRoom bits self.old }
        ensures { self.new ≡ with_claims marked (map (hashed (H.place_of hash.now) bits) claims.now) self.old }
    {
        for i in 0..claims.len() {
            if let Some(claim) = claims.get(i) {
                self.mark_at(place_modulo(hash, bits, claim.id), claim.mode, marked);
            }
        }
    }

    fn meets_at(&self, place: usize, mode: Mode) -> bool
        requires writes { place < length self.now.writes }
        requires reads { place < length self.now.reads }
        ensures { result ≡ meets self.now (record { id = place; mode = mode }) }
    {
        match mode {
            Mode::Write => self.writes.is_set(place) || self.reads.is_set(place),
            Mode::Read => self.writes.is_set(place),
        }
    }

    fn mark_at(&mut self, place: usize, mode: Mode, marked: bool)
        requires writes { place < length self.old.writes }
        requires reads { place < length self.old.reads }
        ensures { self.new ≡ with_claims marked (record { id = place; mode = mode } ∷ []) self.old }
    {
        match mode {
            Mode::Write => self.writes.put(place, marked),
            Mode::Read => self.reads.put(place, marked),
        }
    }
}
