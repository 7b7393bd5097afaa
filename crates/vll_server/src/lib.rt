//! `vll run`, without its command line: it runs a scenario's scripts with worker threads, and writes the outcome as
//! text. It also exports what reads, checks and replays scenarios. Proved: the text that is written is that of the
//! journal's calls, run one at a time in the order in which they entered, and the journal merges the scripts. Start at
//! `serve`; `run_scenario` returns what a run leaves, a `Closed`, and `ServeFault` says why a scenario was not served.
//! (`vll serve` is `serve_stream` of `vll_stream`.)
//!
//! ```rattle
//! let scenario = read_scenario(alloc, &mut Plain::new(text.as_bytes()))?;
//! let mut outcome = Vec::new(alloc);
//! let mut writer = Plain::new(&mut outcome);
//! serve(rt, rt, alloc, scenario, workers, &OpenGate, &mut writer)?;
//! ```
#![tactic(auto)]

mod fault;
mod laws;
mod serving;
mod text;

pub use fault::ServeFault;
pub use laws::served_texts_are_serial;
pub use serving::{opening_of, run_scenario, serve, tokens_of};
pub use text::closed_text_of;
pub use text::outcome::write_outcome;
pub use vll_core::Line;
pub use vll_engine::Closed;
pub use vll_replay::{ReplayFault, core_of, push_event_line, push_state, replay};
pub use vll_scenario::{
    CallFault, CheckFault, MOST_BYTES, MOST_CLIENTS, MOST_EVENTS, MOST_PROCS, Part, Plain,
    Scenario, ScenarioFault, ScenarioParts, Sink, Source, Spot, WriteFault, read_scenario,
    write_text,
};
