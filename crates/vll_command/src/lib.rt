//! The command line of the program `vll`: its commands with their options and help, and what the words given ask for. It
//! stands on nothing of the engine, and performs no action. Proved: an action is what the words ask for, by the meaning
//! that `clap` gives them (`AsksFor` in `specs/CommandLine.antt`). Start at `action_of` and `Action`.
#![tactic(auto)]

mod action;
mod commands;
mod fault;
mod help;
mod values;

pub use action::{Action, Input, RunOptions, ServeOptions, Workers, action_of};
pub use fault::CommandFault;
