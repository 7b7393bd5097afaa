//! A service over a stream of bytes, which is what `vll serve` runs: calls come in as lines of JSON, and their answers go
//! out as lines, until the input ends. It opens an engine over a scenario's records, and goes on with another one whenever
//! one has taken as many calls as it can. Proved: the answers are those of the input's calls made one at a time in the
//! order of their lines, and so are the counts of calls and the records that a line asks for, and the records in the last
//! line. Start at
//! `serve_stream`.
//!
//! ```rattle
//! let scenario = read_scenario(alloc, &mut Plain::new(text.as_bytes()))?;
//! let mut reader = Plain::new(rt.reader());
//! let mut writer = Plain::new(io::writer(rt));
//! serve_stream(rt, rt.alloc(), scenario, &mut reader, &mut writer)?;
//! ```
#![tactic(auto)]

mod answering;
mod callers;
mod epoch;
mod fault;
mod serving;
mod snapshot;

pub use fault::StreamFault;
pub use serving::serve_stream;
