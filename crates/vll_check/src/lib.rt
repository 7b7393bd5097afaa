//! Checks that procedures are well-formed, keeps the checked ones in a library, and makes their calls. `check` tests a
//! procedure for a number of records, and returns it checked or the first of sixteen faults; a `Library` makes a call,
//! with its claims, from the name of a procedure and arguments. Proved: a checked procedure is well-formed, and a call
//! that is ready was made for a procedure of the library and claims only existing records. Start at `check`, `Checked`
//! and `Library`.
//!
//! ```rattle
//! let mut procs = Vec::new(alloc);
//! procs.push(check(procedure, records)?)?;
//! let library = Library::new(records, procs)?;
//! let call = library.call("transfer", &[1, 0, 7])?;
//! ```
#![tactic(auto)]

mod call;
mod checked;
mod checker;
mod fault;
mod laws;
mod library;
mod locals;
mod making;
mod measure;
mod order;
mod piece;
mod places;
mod turns;
mod walk;

pub use checked::Checked;
pub use checker::check;
pub use fault::{CallFault, CheckFault, NameTwice};
pub use laws::{
    checked_procedures_are_well_formed, fitting_calls_are_of_the_records,
    ready_calls_have_their_procedure,
};
pub use library::Library;
pub use locals::Locals;
pub use piece::{Before, Piecewise};
