//! Whether the `Repeat`s of a body are allowed in a procedure of its edition.
ghost use Rattle.std.specs.Prelude.{◌≡◌};
ghost use Rattle.std.specs.List.{list_all};
ghost use Rattle.vll_proc.specs.WellFormed.{may_repeat, turns_are_few};

use vll_proc::{Edition, MOST_TURNS, Stmt};

// Whether each `Repeat` in a list is allowed in this edition.
#[cycle(turns)]
pub(crate) fn list_turns_are_few(statements: &[Stmt], edition: Edition) -> bool
    ensures { result ≡ list_all (turns_are_few edition) statements.now }
{
    for statement in statements {
        if !turns_are_few(statement, edition) {
            return false;
        }
    }
    true
}

// Whether each `Repeat` in a statement, and the statement itself, is allowed in this edition.
#[cycle(turns)]
#[tactic(auto, using(vll_proc::proofs::Lists::branches))]
pub(crate) fn turns_are_few(statement: &Stmt, edition: Edition) -> bool
    ensures { result ≡ turns_are_few edition statement.now }
{
    match statement {
        Stmt::If(_, first, second) => {
            list_turns_are_few(first.as_slice(), edition)
                && list_turns_are_few(second.as_slice(), edition)
        }
        Stmt::Repeat(turns, list) => {
            may_repeat(edition, *turns) && list_turns_are_few(list.as_slice(), edition)
        }
        Stmt::Let(_, _) | Stmt::Set(_, _) | Stmt::Abort(_) | Stmt::Reply(_) => true,
    }
}

// Whether a `Repeat` of this many turns is allowed in this edition.
fn may_repeat(edition: Edition, turns: u8) -> bool
    ensures { result ≡ may_repeat edition turns }
{
    match edition {
        Edition::One => false,
        Edition::Two => turns <= MOST_TURNS,
    }
}
