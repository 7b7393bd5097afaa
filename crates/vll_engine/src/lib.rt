//! The engine, which a program embeds to run transactions on records in memory: it takes calls from many sessions,
//! decides which may run, and brings each to its reply. The queue of entered calls is behind one lock; records are
//! loaded and stored, and claims released, outside it. Proved: the replies and records are those of the calls made one
//! at a time, in the order of their tickets. Start at `Opening`, `Service`, `Clients` and `Client`; `Session`, `Pass`,
//! `Hold` and `Passes` are for a program that makes the steps of a call itself.
//!
//! ```rattle
//! let opening = Opening::new(alloc, accounts, library, config, Placing::Spread, 2)?;
//! opening.host(Bank { rt }) // a `Service`, whose `host` gets `engine` and `clients` and does:
//! let (ticket, reply) = client.call(rt, &engine, "transfer", &[0, 1, 30])?;
//! let closed = engine.close(clients.into_sessions())?;
//! ```
#![tactic(auto)]

mod calling;
mod client;
mod clients;
mod endings;
mod engine;
mod fault;
mod hold;
mod latch;
mod opening;
mod passes;
mod reopening;
mod rest;
mod service;
mod telling;

pub use calling::EngineSpent;
pub use client::Client;
pub use clients::Clients;
pub use endings::{NotClosed, NotReopened, Reopened};
pub use engine::Engine;
pub use fault::EngineFault;
pub use hold::Hold;
pub use opening::Opening;
pub use passes::{BegunOnto, MOST_PASSES, Passes};
pub use rest::rest_for;
pub use service::Service;
pub use vll_queue::{
    BeginRefusal, Begun, Closed, Done, Knob, Name, News, Pacing, Pass, Released, Session, USUAL,
    news_orders_calls,
};
