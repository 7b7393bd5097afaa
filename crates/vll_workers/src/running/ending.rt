//! The outcome of a run, by the tokens that are kept at its end.
ghost use Rattle.std.specs.Prelude.{◌≡◌, All, IfOk, IfErr, MatchBool, nat_eq};
ghost use Rattle.std.specs.List.{IsDistinct};
ghost use Rattle.vll_tokens.specs.Pool.{AreSame};
ghost use Rattle.vll_tokens.specs.Settled.{OneHasLeft};
ghost use Rattle.vll_tokens.specs.Tokens.{AreBack, IsThrough, OneIsSpent, clients_of};
ghost use Rattle.vll_workers.specs.declared.fault.RunFault.TheVariants as RunFault;

use crate::fault::{RunError, RunFault};
use vll_tokens::{Roster, Token, Worker};

// Returns the outcome of a run at whose end this worker keeps all tokens.
pub(super) fn outcome_of<T: Roster>(worker: Worker<T>) -> Result<Vec<Token>, RunError>
    requires distinct { IsDistinct nat_eq (clients_of T.tokens) }
    requires all { AreSame (clients_of T.tokens) (clients_of worker.kept) }
    ensures ok { IfOk result (λ back. AreBack T.tokens back.items × All IsThrough back.items) }
    ensures spent { IfErr result (λ e. e.fault ≡ RunFault.Spent) }
    ensures back { IfErr result (λ e. AreBack T.tokens e.tokens.items × OneIsSpent T.limit e.tokens.items) }
{
    let mut tokens = worker.into_tokens();
    tokens.sort_unstable_by_key(|token| token.client());
    if !are_through(tokens.as_slice()) {
        return Err(RunError::new(RunFault::Spent, tokens));
    }
    Ok(tokens)
}

// Whether every call of each token has entered.
fn are_through(tokens: &[Token]) -> bool
    ensures { MatchBool result (All IsThrough tokens.now) (OneHasLeft tokens.now) }
{
    for token in tokens {
        if token.next() as usize != token.script().len() {
            return false;
        }
    }
    true
}
