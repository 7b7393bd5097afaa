//! The way to the piece of a refused scenario that is at fault: step by step through its JSON tree, always into the first
//! piece that does not pass the test of the fault. The crate proves that each step of the way is such a step, and that
//! no piece inside the last one is at fault. Start at `way_to_fault`.
//!
//! ```rattle
//! let Reading { tree, scenario } = reading_of(alloc, text.as_bytes())?;
//! if let Err(why) = scenario {
//!     let way = way_to_fault(alloc, &tree, why)?;
//! }
//! ```
#![tactic(auto)]

mod form;
mod laws;
mod part;
mod piece;
mod piece_test;
mod shape;
mod way;

pub use form::{Form, Slot, form_with, forms_of};
pub use laws::refused_procedures_have_a_part_at_fault;
pub use piece::{Kind, Step};
pub use way::{Found, Way, way_to_fault};
