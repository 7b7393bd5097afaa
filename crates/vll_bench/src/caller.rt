//! The clients of an engine, each with the script of calls that it makes.
ghost use Rattle.std.specs.Prelude.{All};
ghost use Rattle.vll_check.specs.Calls.{Fits};
ghost use Rattle.vll_queue.specs.Shown.{library_of};

use std::alloc::{AllocError, Global};
use std::marker::Model;
use vll_engine::{Client, Clients, Name};
use vll_proc::Call;

/// A client of the engine, with the calls that it makes. Contracts see the client.
#[derive(Drop)]
pub(crate) struct Caller<N: Name> {
    pub(crate) client: Client<N>,
    pub(crate) script: Vec<Call>,
}

impl<N: Name> Model for Caller<N> {
    ghost use Rattle.std.specs.Prelude.{All};
    ghost use Rattle.vll_check.specs.Calls.{Fits};
    ghost use Rattle.vll_counters.specs.Shown.{SessionShown};
    ghost use Rattle.vll_queue.specs.Shown.{library_of};

    ghost Value = { SessionShown };

    ghost view = { λ c. c.client };

    ghost invariant = { λ c. All (Fits (library_of N.engine)) c.script.items };
}

/// Makes a caller for each script.
pub(crate) fn callers<N: Name>(
    alloc: Global,
    clients: Clients<N>,
    scripts: Vec<Vec<Call>>,
) -> Result<Vec<Caller<N>>, AllocError>
    requires fits { All (λ script. All (Fits (library_of N.engine)) script.items) scripts.items }
{
    let mut clients = clients;
    let mut scripts = scripts;
    let mut callers = Vec::new(alloc);
    while let Some(script) = scripts.pop() {
        let Some(client) = clients.pop() else {
            break;
        };
        callers.push(Caller { client, script })?;
    }
    Ok(callers)
}
