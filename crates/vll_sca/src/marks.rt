//! A bit for each place, which says whether the place is marked.
ghost use Rattle.std.specs.Prelude.{◌≡◌, ◌<◌, ◌≤◌, false, true, length, All, IfOk, slice_set, slice_index_or};

use std::alloc::{AllocError, Global};
use std::marker::Model;

/// A bit for each place, in words of 64. Contracts see them as the list that says for each place whether it is marked.
/// The list may be longer than requested, by the rest of the last word.
#[derive(Drop)]
pub(crate) struct Marks {
    words: Vec<u64>,
}

impl Model for Marks {
    ghost use Rattle.std.specs.Prelude.{Bool, List};
    ghost use Rattle.vll_sca.specs.Private.Marks.{bits_of};

    ghost Value = { List Bool };

    ghost view = { λ m. bits_of m.words.items };
}

impl Marks {
    /// Allocates bits for the places below `n`, none of them marked.
    pub(crate) fn new(alloc: Global, n: usize) -> Result<Marks, AllocError>
        ensures room { IfOk result (λ m. n ≤ length m) }
        ensures clear { IfOk result (All (λ b. b ≡ false)) }
    {
        let words = vec![in alloc; 0; n.div_ceil(64)]?;
        Ok(Marks { words })
    }

    /// Reports whether the place is marked.
    pub(crate) fn is_set(&self, place: usize) -> bool
        requires { place < length self.now }
        ensures { result ≡ slice_index_or self.now place false }
    {
        self.words[place / 64] & (1 << (place % 64)) != 0
    }

    /// Marks the place if `marked` is true, else clears its mark.
    pub(crate) fn put(&mut self, place: usize, marked: bool)
        requires { place < length self.old }
        ensures { self.new ≡ slice_set self.old place marked }
    {
        if marked {
            self.set(place);
        } else {
            self.clear(place);
        }
    }

    fn set(&mut self, place: usize)
        requires { place < length self.old }
        ensures { self.new ≡ slice_set self.old place true }
    {
        let word = self.words[place / 64];
        self.words[place / 64] = word | (1 << (place % 64));
    }

    fn clear(&mut self, place: usize)
        requires { place < length self.old }
        ensures { self.new ≡ slice_set self.old place false }
    {
        let word = self.words[place / 64];
        self.words[place / 64] = word & !(1 << (place % 64));
    }

    /// Clears all marks.
    pub(crate) fn clear_all(&mut self)
        ensures room { length self.new ≡ length self.old }
        ensures clear { All (λ b. b ≡ false) self.new }
    {
        self.words.fill(0);
    }
}
