//! Properties of the values of all records, for the law `invariants_carry_over`.
use std::marker::Brand;

/// A property of the values of all records, for the law `invariants_carry_over`. It has no functions. A caller
/// instantiates the law at `std::marker::Brand`, and picks the property there.
pub trait Property {
    ghost use Rattle.std.specs.Prelude.{ℕ, List};

    ghost holds: { List ℕ → Type 0 };
}

impl Property for Brand {
    ghost holds = { λ records. Unit {0} };
}
