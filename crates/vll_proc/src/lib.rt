//! The language of stored procedures: their syntax, calls of them, the replies, and the frames on which bodies run. The
//! meaning of a body is defined on the whole list of records; `Frame::run` runs it on the values of the call's claims
//! alone, and is proved to give the same reply and the same new values. Also proved: a call depends only on the records
//! that it claims, and changes only those that it claims for writing. Start at `Proc`, whose body is made of `Stmt` and
//! `Expr`, then at `Call`, `Reply` and `Frame`.
//!
//! ```rattle
//! let mut frame = Frame::new();
//! frame.put(0, value); // the value of the record of the call's first claim
//! let reply = frame.run(&procedure, &call);
//! let new = frame.get(0);
//! ```
#![tactic(auto)]

mod call;
mod display;
mod frame;
mod laws;
mod limits;
mod outputs;
mod property;
mod run;
mod syntax;
mod taken;

pub use call::{Call, Reason, Reply};
pub use frame::Frame;
pub use laws::{
    changes_claimed_records_alone, depends_on_claimed_records_alone, epochs_are_one_serial_run,
    invariants_carry_over, keeps_the_number_of_records, meets_nothing_undeclared, serial_runs_join,
    weight_bounds_work,
};
pub use limits::{
    FIRST_MOST_KEYS, MOST_ARGS, MOST_DEPTH, MOST_LOCALS, MOST_NODES, MOST_OUTPUTS, MOST_TURNS,
    MOST_WEIGHT,
};
pub use outputs::Outputs;
pub use property::Property;
pub use sqlite_items::{Boxed, Items};
pub use syntax::{Edition, Expr, KeyAt, KeyDecl, Proc, Stmt, Text};
