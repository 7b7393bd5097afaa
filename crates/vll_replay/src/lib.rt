//! Replays: the crate reads a scenario, and writes what its schedule does on the machine of atomic steps, step by step.
//! The program's `vll replay` and `vll draw` are built on it; an `Observer` may watch the machine before and after each
//! event. The crate proves that the text is the one that the machine's specification gives for the schedule, whatever
//! the observer does, and that an observer is shown each step. Start at `replay`, or at `text_of_replay` and
//! `Observer`.
//!
//! ```rattle
//! let mut reader = Plain::new(rt.reader());
//! let mut writer = Plain::new(io::writer(rt));
//! replay(rt.alloc(), &mut reader, &mut writer)?;
//! let (text, core) = text_of_replay(alloc, scenario, &mut Unwatched)?;
//! ```
#![tactic(auto)]

mod event_text;
mod fault;
mod observer;
mod record_text;
mod replay_text;
mod replaying;
mod watching;

pub use event_text::{push_answer, push_event_line, refusal_words};
pub use fault::ReplayFault;
pub use observer::{Observer, Unwatched};
pub use record_text::push_record_line;
pub use replay_text::push_state;
pub use replaying::{core_of, replay, text_of_replay};
