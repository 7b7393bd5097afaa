//! The claims of a call, in ascending order of record number.
ghost use Rattle.std.specs.Prelude.{◌≡◌, ◌<◌, ◌≤◌, ◌⊎◌, ◌↔◌, [], length, slice_get, slice_set, insert, IsSome, Some, IsTrue};
ghost use Rattle.vll_record.specs.Headline.Claim.{stronger, with_claim};
ghost use Rattle.vll_record.specs.Claim.{IsRising, mode_on};
ghost use Rattle.vll_record.specs.declared.claim.Claim.{Claim};
ghost use Rattle.vll_record.specs.Private.Place.{place_in};

use crate::claim::{Claim, Mode, RecordId};
use std::marker::Model;

mod iter;
mod modes;

pub use iter::ClaimsIter;
use modes::Modes;

/// The greatest number of claims of a call.
pub const MOST_CLAIMS: usize = 32;

// As docs/SCENARIO.md says.
const _: () = prove!(MOST_CLAIMS == 32);

/// Up to `MOST_CLAIMS` claims, in strictly ascending order of record number. Contracts see them as a list.
#[derive(Clone, Copy)]
pub struct Claims {
    ids: [RecordId; MOST_CLAIMS],
    modes: Modes,
    len: u8,
}

impl Model for Claims {
    ghost use Rattle.std.specs.Prelude.{List};
    ghost use Rattle.vll_record.specs.declared.claim.Claim.{Claim};

    ghost Value = { List Claim };

    ghost use Rattle.vll_record.specs.Private.Kept.{kept, from_list, IsCanonical, from_list-kept};

    ghost view = { kept };

    ghost invariant = { IsCanonical };

    ghost inverse = { from_list };

    ghost inverse_ok = { from_list-kept };
}

impl Claims {
    /// Returns an empty list of claims.
    pub fn new() -> Claims
        ensures { result ≡ [] }
    {
        Claims {
            ids: [RecordId(0); MOST_CLAIMS],
            modes: Modes::new(),
            len: 0,
        }
    }

    /// Returns the number of claims, at most `MOST_CLAIMS`. They are in strictly ascending order of record number.
    pub fn len(&self) -> usize
        ensures value { result ≡ length self.now }
        ensures few { length self.now ≤ MOST_CLAIMS }
        ensures rising { IsRising self.now }
    {
        self.len as usize
    }

    /// Returns the claim at index `i`, or `None` exactly if `i` is at least `len`.
    pub fn get(&self, i: usize) -> Option<Claim>
        ensures { result ≡ slice_get self.now i }
    {
        if i < self.len as usize {
            Some(Claim {
                id: self.ids[i],
                mode: self.modes.get(i),
            })
        } else {
            None
        }
    }

    /// Returns an iterator over the claims, in ascending order of record number.
    pub fn iter(&self) -> ClaimsIter<'_>
        ensures { result ≡ self.now }
    {
        ClaimsIter::new(self)
    }

    /// Inserts a claim in order. If the record has a claim already, one remains: Write if either of the two is.
    /// If it has none, there has to be room: fewer than `MOST_CLAIMS` claims so far.
    pub fn add(&mut self, claim: Claim)
        requires { (length self.old < MOST_CLAIMS) ⊎ IsSome (mode_on self.old claim.id) }
        ensures { self.new ≡ with_claim claim self.old }
    {
        let place = self.place_of(claim.id);
        match self.get(place) {
            Some(held) if held.id == claim.id => self.strengthen(place, claim.mode),
            _ => self.insert(place, claim),
        }
    }

    // The index of the record's claim, or the one at which it would be inserted.
    fn place_of(&self, id: RecordId) -> usize
        ensures place { result ≡ place_in self.now id }
        ensures rising { IsRising self.now }
    {
        let len = self.len();
        self.iter()
            .position(|held| held.id.0 >= id.0)
            .unwrap_or(len)
    }

    // Makes the claim at `place` Write if it was or `mode` is.
    fn strengthen(&mut self, place: usize, mode: Mode)
        requires within { place < length self.old }
        ensures { (held : Claim) → slice_get self.old place ≡ Some held
            → self.new ≡ slice_set self.old place (record held { mode = stronger mode held.mode }) }
    {
        self.modes.strengthen(place, mode);
    }

    // Inserts the claim at `place`; the claims from there on move up by one.
    fn insert(&mut self, place: usize, claim: Claim)
        requires room { length self.old < MOST_CLAIMS }
        requires within { place ≤ length self.old }
        requires rising { IsRising (insert self.old place claim) }
        ensures { self.new ≡ insert self.old place claim }
    {
        let len = self.len as usize;
        self.ids.copy_within(place..len, place + 1);
        self.ids[place] = claim.id;
        self.modes.insert(place, claim.mode);
        self.len += 1;
    }
}

impl PartialEq for Claims {
    ghost use Rattle.std.specs.Cmp.Lexicographic.{pointwise};
    ghost use Rattle.std.specs.Cmp.Rules.{comparing};
    ghost use Rattle.std.proofs.Common.{rules};
    ghost use Rattle.vll_record.specs.Claim.{is_same_claim};

    ghost eq = { pointwise is_same_claim };

    ghost laws = { Prim.search (comparing, rules) };

    /// Reports whether the two are the same list of claims.
    fn eq(&self, other: &Claims) -> bool
        ensures value { result ≡ pointwise is_same_claim self.now other.now }
        ensures same { IsTrue result ↔ (self.now ≡ other.now) }
    {
        self.len == other.len && self.modes == other.modes && self.ids == other.ids
    }
}
