//! The outputs of a call, in the order of its reply statements.
ghost use Rattle.std.specs.Prelude.{◌≡◌, ℕ, ◌<◌, ◌≤◌, ◌++◌, ◌∷◌, [], length, slice_get, IsTrue, ◌↔◌, ◌==◌};
ghost use Rattle.std.specs.Slice.Iter.{iter_rest};
ghost use Rattle.std.specs.Iterator.Adapters.{IterYieldsInOrder};

use crate::limits::MOST_OUTPUTS;
use std::marker::Model;
use std::slice;

/// The outputs of a call: up to `MOST_OUTPUTS` numbers, in the order of the reply statements. Contracts see them as a
/// list.
#[derive(Clone, Copy)]
pub struct Outputs {
    places: [u64; MOST_OUTPUTS],
    len: u8,
}

impl Model for Outputs {
    ghost use Rattle.std.specs.Prelude.{ℕ, List};

    ghost Value = { List ℕ };

    ghost use Rattle.vll_proc.specs.Private.Kept.{kept, from_list, IsCanonical, from_list-kept};

    ghost view = { kept };

    ghost invariant = { IsCanonical };

    ghost inverse = { from_list };

    ghost inverse_ok = { from_list-kept };
}

impl Outputs {
    // No outputs.
    pub(crate) fn new() -> Outputs
        ensures { result ≡ [] }
    {
        Outputs {
            places: [0; MOST_OUTPUTS],
            len: 0,
        }
    }

    /// Returns the number of outputs, at most `MOST_OUTPUTS`.
    pub fn len(&self) -> usize
        ensures value { result ≡ length self.now }
        ensures few { length self.now ≤ MOST_OUTPUTS }
    {
        self.len as usize
    }

    /// Returns the output at index `i`, or `None` exactly if `i` is at least `len`.
    pub fn get(&self, i: usize) -> Option<u64>
        ensures { result ≡ slice_get self.now i }
    {
        if i < self.len as usize {
            Some(self.places[i])
        } else {
            None
        }
    }

    /// Returns the outputs, in the order of the reply statements.
    pub fn as_slice(&self) -> &[u64]
        ensures { result.now ≡ self.now }
    {
        &self.places[..self.len as usize]
    }

    /// Iterates over the outputs, in the order of the reply statements.
    pub fn iter(&self) -> slice::Iter<'_, u64>
        ensures rest { iter_rest result ≡ self.now }
        ensures runs { IterYieldsInOrder ℕ }
    {
        self.as_slice().iter()
    }

    // Appends an output.
    pub(crate) fn push(&mut self, value: u64)
        requires { length self.old < MOST_OUTPUTS }
        ensures { self.new ≡ self.old ++ value ∷ [] }
    {
        self.places[self.len as usize] = value;
        self.len += 1;
    }
}

impl PartialEq for Outputs {
    ghost use Rattle.std.specs.Cmp.Lexicographic.{pointwise};
    ghost use Rattle.std.specs.Cmp.Rules.{comparing};
    ghost use Rattle.std.specs.Prelude.{◌==◌};
    ghost use Rattle.std.proofs.Common.{rules};

    ghost eq = { pointwise ◌==◌ };

    ghost laws = { Prim.search (comparing, rules) };

    /// Reports whether the two are the same list of outputs.
    fn eq(&self, other: &Outputs) -> bool
        ensures value { result ≡ pointwise ◌==◌ self.now other.now }
        ensures same { IsTrue result ↔ (self.now ≡ other.now) }
    {
        self.as_slice() == other.as_slice()
    }
}
