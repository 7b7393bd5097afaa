//! The tokens of clients, each with its client's session and script; the pool in which those lie that no worker has in
//! hand; and what a worker has in hand. `vll_workers` runs worker threads over them. Proved: a token's session has seen
//! just the calls of its script enter that come before its next call, and no token is lost or doubled on its way
//! between the pool and the workers. Start at `Token`, `Pool` and `Worker`.
#![tactic(auto)]

mod pool;
mod roster;
mod stack;
mod taken;
mod token;
mod worker;

pub use pool::{Hand, Pool, PoolPass};
pub use roster::Roster;
pub use stack::{MOST_BATCH, Stack};
pub use taken::Taken;
pub use token::Token;
pub use vll_core::MOST_WORKERS;
pub use worker::{Shelf, Worker};
