//! Calls as lines of text: what a service reads from a pipe, and what it answers. A line of JSON asks for a call of one
//! client, for what the service has done so far or for records, and its answer is a line of JSON too. Proved: what a line asks for or
//! which fault it has, as the kit's JSON reader reads it; the text of each answer; and that bytes are cut into lines at
//! line feeds. Start at `RoundReader`, `LineReader` and `push_reply`.
//!
//! ```rattle
//! let round = rounds.read(wait, &library, clients, &mut source, &mut tail)?;
//! let text = push_reply(text, &request.id, number, &reply)?;
//! ```
#![tactic(auto)]

mod asked;
mod counts;
mod cutting;
mod limits;
mod read_fault;
mod reading;
mod replying;
mod request;
mod round;
mod tokens;

pub use counts::{Counts, Rounds};
pub use limits::{MOST_ID, MOST_LINE, MOST_READ, MOST_ROUND};
pub use replying::{push_counts, push_end, push_fault, push_records, push_reply};
pub use request::{Asked, ClientCall, Id, LineFault, RecordRange, Request};
pub use round::{Round, RoundFault, RoundReader};
pub use tokens::LineReader;
