//! The places of records: the trait of hashes, and the hashes that a scenario can name.
ghost use Rattle.std.specs.Prelude.{◌≡◌, ◌<◌, ◌≤◌, ◌%◌};

use vll_record::RecordId;

/// A hash of records: it gives each record a place.
///
/// The place is a fixed function of the hash and the record, so a record never changes its place. In an array of n bits
/// the record has the bit at its place modulo n.
pub trait Place {
    ghost use Rattle.std.specs.Prelude.{ℕ};

    ghost place_of: { Self → ℕ → ℕ };

    /// Returns the place of a record. Allocates nothing.
    fn place(&self, r: RecordId) -> u64
        ensures { result ≡ place_of self.now r };
}

/// Returns a record's place modulo `bits`.
pub(crate) fn place_modulo<H: Place>(hash: &H, bits: u32, r: RecordId) -> usize
    requires { 1 ≤ bits }
    ensures place { result ≡ H.place_of hash.now r % bits }
    ensures within { result < bits }
{
    (hash.place(r) % u64::from(bits)) as usize
}

/// The hashes that a scenario can name.
#[derive(Clone, Copy, PartialEq, Eq, Debug)]
pub enum Placing {
    /// A record's place is its number.
    Modulo,
    /// Multiplicative hashing: neighbouring records have places far apart.
    Spread,
}

impl Place for Placing {
    ghost use Rattle.vll_sca.specs.Placing.{placing};

    ghost place_of = { placing };

    /// Returns the record's number, or the upper half of its product, modulo 2^64, with 11400714819323198485, which is
    /// 2^64 over the golden ratio.
    fn place(&self, r: RecordId) -> u64 {
        let number = u64::from(r.0);
        match self {
            Placing::Modulo => number,
            Placing::Spread => number.wrapping_mul(11_400_714_819_323_198_485) >> 32,
        }
    }
}
