//! Explanations for a person: what is wrong with a scenario and where, or, if nothing is, what the scenario has. It is
//! the whole of the program's `vll explain`. The crate proves that the text names the fault of the bytes that were
//! read, and the way to the piece that is at fault; nothing is proved about the wording of the reasons. Start at
//! `explain`.
//!
//! ```rattle
//! let mut reader = Plain::new(rt.reader());
//! let mut writer = Plain::new(io::writer(rt));
//! let fault = explain(rt.alloc(), Origin::Standard, &mut reader, &mut writer)?;
//! let is_valid = fault.is_none();
//! ```
#![tactic(auto)]

mod asked;
mod check;
mod explaining;
mod forms;
mod inner;
mod members;
mod names;
mod origin;
mod reason;
mod shape;
mod shown;
mod size;
mod summary;
mod unread;
mod way;
mod written;

pub use explaining::{Parsed, Refusal, explain, read_or_explain};
pub use origin::Origin;
