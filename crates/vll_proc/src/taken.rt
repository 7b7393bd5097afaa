//! How many turns a `Repeat` takes: none of a list that does nothing, so that no turn escapes the weight of a body.
ghost use Rattle.std.specs.Prelude.{◌≡◌};
ghost use Rattle.std.specs.List.{list_all};
ghost use Rattle.vll_proc.specs.Steps.{does_nothing, turns_taken};

use crate::syntax::Stmt;

// The turns that a `Repeat` of this many turns takes of a list. A single turn costs no more than the test.
pub(crate) fn turns_taken(turns: u8, statements: &[Stmt]) -> u8
    ensures { result ≡ turns_taken turns (list_all does_nothing statements.now) }
{
    if turns > 1 && list_does_nothing(statements) {
        0
    } else {
        turns
    }
}

// Whether each statement of a list does nothing.
#[cycle(nothing)]
fn list_does_nothing(statements: &[Stmt]) -> bool
    ensures { result ≡ list_all does_nothing statements.now }
{
    for statement in statements {
        if !does_nothing(statement) {
            return false;
        }
    }
    true
}

// Whether a statement is a `Repeat` that does nothing.
#[cycle(nothing)]
#[tactic(auto, using(crate::proofs::Lists::branches))]
fn does_nothing(statement: &Stmt) -> bool
    ensures { result ≡ does_nothing statement.now }
{
    match statement {
        Stmt::Repeat(turns, list) => *turns == 0 || list_does_nothing(list.as_slice()),
        Stmt::Let(_, _) | Stmt::Set(_, _) | Stmt::If(_, _, _) | Stmt::Abort(_) | Stmt::Reply(_) => {
            false
        }
    }
}
