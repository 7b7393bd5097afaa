//! The name of the tokens that were passed to a run, and of how many calls its engine takes.
use std::marker::Brand;

/// Names the tokens that were passed to a run and how many calls its engine takes, so that the tokens in its pool are
/// known to be among them, and those that its workers keep to have entered all the calls they could. It has no
/// functions, and is chosen inside `run`.
pub trait Roster {
    ghost use Rattle.std.specs.Prelude.{ℕ, List};
    ghost use Rattle.vll_tokens.specs.Shown.{TokenShown};

    ghost tokens: { List TokenShown };

    ghost limit: { ℕ };
}

impl Roster for Brand {
    ghost use Rattle.std.specs.Prelude.{[]};

    ghost tokens = { [] };

    ghost limit = { 0 };
}
