//! The ticket of an entered call: its index in the order of entry.
use std::marker::Model;

/// The index of an entered call in the order of entry, from 0. Contracts see it as that number.
#[derive(Clone, Copy, PartialEq, Eq, Debug)]
pub struct Ticket(pub u32);

impl Model for Ticket {
    ghost use Rattle.std.specs.Prelude.{ℕ};

    ghost Value = { ℕ };

    ghost view = { λ t. t.0 };

    ghost inverse = { λ n. record { 0 = n } };
}
