//! The tokens that are passed to the workers, and the sessions of those that come back.
ghost use Rattle.std.specs.Prelude.{◌≡◌, ◌≤◌, ◌<◌, ◌^◌, [], All, IfOk, length, nat_eq, vec_capacity};
ghost use Rattle.std.specs.List.{IsDistinct};
ghost use Rattle.vll_check.specs.Calls.{Fits};
ghost use Rattle.vll_counters.specs.Shown.{AreNewSessions};
ghost use Rattle.vll_queue.specs.Shown.{library_of};
ghost use Rattle.vll_tokens.specs.Tokens.{AreFit, clients_of};
ghost use Rattle.vll_scenario.specs.Setup.{lists_of};
ghost use Rattle.vll_server.specs.Scripts.{tokens_from};
ghost use Rattle.vll_server.specs.Private.Serving.{sessions_in};

use std::alloc::{AllocError, Global};
use vll_engine::{Name, Session};
use vll_proc::Call;
use vll_scenario::MOST_CLIENTS;
use vll_workers::Token;

/// Makes a token for each client, in order, with its session and its script. The sessions are those with which an
/// engine of this name starts, one for each script, in order. It fails if an allocation fails.
pub fn tokens_of<N: Name>(
    alloc: Global,
    sessions: Vec<Session>,
    scripts: Vec<Vec<Call>>,
) -> Result<Vec<Token>, AllocError>
    requires sessions { AreNewSessions N.engine.table (length scripts.items) sessions.items }
    requires few { length scripts.items ≤ MOST_CLIENTS }
    requires short { All (λ script. length script.items < 2 ^ 32) scripts.items }
    requires fits { All (λ script. All (Fits (library_of N.engine)) script.items) scripts.items }
    ensures tokens { IfOk result (λ tokens. tokens.items ≡ tokens_from N.engine.table 0 (lists_of scripts.items)) }
    ensures fit { IfOk result (λ tokens. AreFit N.engine tokens.items) }
    ensures distinct { IfOk result (λ tokens. IsDistinct nat_eq (clients_of tokens.items)) }
{
    let mut sessions = sessions;
    let mut scripts = scripts;
    let mut tokens = Vec::new(alloc);
    while let Some(script) = scripts.pop() {
        let client = scripts.len() as u32;
        let session = sessions.pop().unwrap();
        tokens.push(Token::new(client, session, script))?;
    }
    tokens.reverse();
    Ok(tokens)
}

// Moves the tokens' sessions, in the same order, to a list that is empty and has capacity for them.
pub(crate) fn into_sessions(tokens: Vec<Token>, room: Vec<Session>) -> Vec<Session>
    requires empty { room.items ≡ [] }
    requires room { length tokens.items ≤ vec_capacity room }
    ensures { result.items ≡ sessions_in tokens.items }
{
    let mut sessions = room;
    for token in tokens {
        sessions.push_reserved(token.into_session());
    }
    sessions
}
