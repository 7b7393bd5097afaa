//! Scenarios: the JSON texts that say what the records hold, which procedures there are, which calls each client makes,
//! and which events a replay takes. The crate reads a scenario from a `Source`, checks it, and writes texts to a
//! `Sink`. It proves that each scenario or fault that
//! reading returns, other than `Read` and `NoMemory`, is the one that the specification gives for the bytes read, and
//! that the library of a scenario makes each of its calls. Start at `read_scenario`, `Scenario` and `ScenarioFault`.
//!
//! ```rattle
//! let mut reader = Plain::new(text.as_bytes());
//! let scenario = read_scenario(alloc, &mut reader)?;
//! let parts = scenario.into_parts();
//! let records = parts.records.as_slice();
//! ```
#![tactic(auto)]

mod engine_options;
mod event_range;
mod fault;
mod limits;
mod plain;
mod reading;
mod scenario;
mod shown;
mod stream;
mod up_to;
mod writing;

pub use engine_options::{Bits, Cap, EngineOptions};
pub use event_range::{EventRange, MOST_COLUMNS};
pub use fault::{Part, ScenarioFault, Spot};
pub use limits::{MOST_BYTES, MOST_CLIENTS, MOST_EVENTS, MOST_PROCS};
pub use plain::Plain;
pub use reading::asked::Asked;
pub use reading::bytes::{ReadFault, read_bytes};
pub use reading::members::{has_exactly, has_members};
pub use reading::shape::{MAY_NAMES, MUST_NAMES};
pub use reading::syntax::expression::expr_of;
pub use reading::syntax::statement::{code_of, stmt_of, stmts_of};
pub use reading::syntax::{index_of, key_of, mode_of};
pub use reading::tree::{Misread, Reads, u32_of};
pub use reading::{Reading, read_scenario, reading_of};
pub use scenario::{Scenario, ScenarioParts};
pub use shown::{MOST_SHOWN, Shortened};
pub use stream::{Sink, Source};
pub use up_to::UpTo;
pub use vll_check::{CallFault, CheckFault};
pub use writing::{WriteFault, write_text};
