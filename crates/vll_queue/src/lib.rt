//! The steps of the engine's calls: those behind its one lock, at the queue of entered calls, and those outside it, at
//! the records. `vll_engine` makes the engine of them, and is what a program embeds. Proved of each step: what it leaves
//! of the queue, what a session has then seen, and that a reply is that of the calls made one at a time, in the order of
//! their tickets. Start at `Locked`, `Session` and `Pass`.
#![tactic(auto)]

mod begun;
mod closed;
mod closing_memory;
mod ended;
mod execution;
mod finding;
mod laws;
mod locked;
mod name;
mod news;
mod pacing;
mod pass;
mod patience;
mod session;

pub use begun::{Admission, BeginRefusal, Begun};
pub use closed::Closed;
pub use closing_memory::ClosingMemory;
pub use ended::Ended;
pub use execution::{execute, look, release, run_at, run_in_place};
pub use finding::find;
pub use laws::news_orders_calls;
pub use locked::Locked;
pub use locked::close::NotEnded;
pub use name::Name;
pub use news::News;
pub use pacing::{Knob, Pacing, USUAL};
pub use pass::{Done, Pass, Released};
pub use session::Session;
