//! The modes of a call's claims, a bit for each claim.
ghost use Rattle.std.specs.Prelude.{◌≡◌, ◌<◌, ◌≤◌, ℕ, List, length, slice_get, slice_index, slice_set, insert, Some};
ghost use Rattle.vll_record.specs.declared.claim.Claim.{Claim};
ghost use Rattle.vll_record.specs.declared.claims.TheConstants.{MOST_CLAIMS};
ghost use Rattle.vll_record.specs.Headline.Claim.{stronger};
ghost use Rattle.vll_record.specs.Private.Masks.{mask_of, claims_with};

use super::MOST_CLAIMS;
use crate::claim::Mode;

// A word has a bit for each claim.
const _: () = prove!(MOST_CLAIMS <= 32);

// The modes of up to 32 claims: a bit is set if the claim is Write.
#[derive(Clone, Copy, PartialEq)]
pub(super) struct Modes {
    writes: u32,
}

impl Modes {
    pub(super) fn new() -> Modes
        ensures { result.writes ≡ 0 }
    {
        Modes { writes: 0 }
    }

    pub(super) fn get(&self, i: usize) -> Mode
        requires { i < MOST_CLAIMS }
        ensures { (ids : List ℕ) → i < length ids → slice_get (claims_with ids self.now.writes) i
            ≡ Some (record { id = slice_index ids i; mode = result }) }
    {
        if (self.writes >> i) & 1 == 1 {
            Mode::Write
        } else {
            Mode::Read
        }
    }

    // Makes claim `i` Write if `mode` is Write; Read changes nothing.
    pub(super) fn strengthen(&mut self, i: usize, mode: Mode)
        requires { i < MOST_CLAIMS }
        ensures { (cs : List Claim) (held : Claim) → self.old.writes ≡ mask_of cs → slice_get cs i ≡ Some held
            → self.new.writes ≡ mask_of (slice_set cs i (record held { mode = stronger mode held.mode })) }
    {
        if mode == Mode::Write {
            self.writes |= 1 << i;
        }
    }

    // Inserts a mode at place `i`; the modes from there on move up by one.
    pub(super) fn insert(&mut self, i: usize, mode: Mode)
        requires { i < MOST_CLAIMS }
        ensures { (cs : List Claim) (id : ℕ) → self.old.writes ≡ mask_of cs → length cs < MOST_CLAIMS
            → i ≤ length cs → self.new.writes ≡ mask_of (insert cs i (record { id = id; mode = mode })) }
    {
        let below = self.writes & ((1 << i) - 1);
        let above = (self.writes >> i) << 1;
        let bit = match mode {
            Mode::Read => 0,
            Mode::Write => 1,
        };
        self.writes = ((above | bit) << i) | below;
    }
}
