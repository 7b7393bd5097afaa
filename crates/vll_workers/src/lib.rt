//! Worker threads over an engine: they enter the calls of the clients' scripts, and bring each to its reply. A run
//! takes a token for each client, with its session and its script, and returns the tokens once the workers have ended.
//! Proved: every token comes back, and of its client's calls its session has seen just those of its script enter, in
//! order; once all have entered, the journal of an engine that is closed with these sessions merges the scripts. Start
//! at `run` and `Token`; `RunError` says why a run failed, and a `Gate` observes the calls and receives each
//! worker's `Tally`.
//!
//! ```rattle
//! let token = Token::new(session.client(), session, script);
//! tokens.push(token)?;
//! let ran = run(rt, rt, alloc, &engine, tokens, workers, &OpenGate);
//! let tokens = ran.map_err(|error| Fault::Run(error.fault))?;
//! ```
#![tactic(auto)]

mod batch;
mod fault;
mod gate;
mod laws;
mod pace;
mod running;
mod shared;
mod solo;
mod tally;
mod work;

pub use fault::{RunError, RunFault};
pub use gate::{Choice, Gate, OpenGate};
pub use laws::{
    journals_merge_the_scripts, sessions_gain_found_calls, spent_engines_took_fewer_calls,
};
pub use running::{run, run_limited};
pub use tally::Tally;
pub use vll_tokens::{MOST_WORKERS, Token};
