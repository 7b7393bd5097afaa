//! The shared words of an engine: one turn word, and a value word and a pair word for each record, which many threads
//! change in single atomic steps. The engine is built on them: each step is a function of `Words` on a seat of the
//! queue, of a running call or of a session. Proved: one rule, by which between any two steps the words and what the
//! seats know show one state of the plain machine; its laws are functions such as `tickets_are_clear`. Start at `Words`
//! and its `QueueSeat`, `PassSeat` and `SessionSeat`.
//!
//! ```rattle
//! let (words, mut queue, mut sessions) = Words::open(alloc, &[5, 7], &library, 1)?; // the records, and one client
//! words.join_session(&mut queue, session, Some(&call)); // a session of `sessions`; then one `request` for each claim
//! let mut pass = words.give_pass(&mut queue, Ticket(0)); // `load`, `store` and `release` take `&mut pass`
//! words.join_pass(&mut queue, pass);
//! ```
#![tactic(auto)]

mod fault;
mod key;
mod laws;
mod news_seat;
mod pass_seat;
mod queue_seat;
mod rule;
mod session_seat;
mod steps;
mod views;
mod words;

pub use fault::NoMemory;
pub use laws::{
    clients_have_one_session, pair_words_count_open_claims, passes_are_clear, pasts_are_of_one_run,
    tickets_are_clear, tickets_get_one_pass, tickets_have_one_pass,
};
pub use news_seat::NewsSeat;
pub use pass_seat::PassSeat;
pub use queue_seat::QueueSeat;
pub use session_seat::SessionSeat;
pub use views::{PassView, QueueView, SessionView, TurnView, View};
pub use words::Words;
