//! Whole numbers from 1 to a limit, as options of the program take them.
ghost use Rattle.std.specs.Prelude.{◌≡◌, ◌↔◌, ◌≤◌, ℕ, IfSome, IsSome};

use std::marker::Model;

/// A whole number from 1 to `MOST`.
#[derive(Clone, Copy, Debug)]
pub struct UpTo<const MOST: u32>(u32);

impl<const MOST: u32> Model for UpTo<MOST> {
    ghost Value = { ℕ };

    ghost view = { λ n. n.0 };

    ghost invariant = { λ n. (1 ≤ n.0) × (n.0 ≤ MOST) };

    ghost inverse = { λ n. record { 0 = n } };
}

impl<const MOST: u32> UpTo<MOST> {
    /// Returns the number as an `UpTo`, or `None` if it is 0 or greater than `MOST`.
    pub fn new(number: u32) -> Option<UpTo<MOST>>
        ensures some { IsSome result ↔ ((1 ≤ number) × (number ≤ MOST)) }
        ensures value { IfSome result (λ n. n ≡ number) }
    {
        if 1 <= number && number <= MOST {
            Some(UpTo(number))
        } else {
            None
        }
    }

    /// Returns the number, from 1 to `MOST`.
    pub fn get(self) -> u32
        ensures value { result ≡ self.entry }
        ensures least { 1 ≤ result }
        ensures most { result ≤ MOST }
    {
        self.0
    }
}
