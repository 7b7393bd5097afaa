//! What the command line asks for.
ghost use Rattle.std.specs.Prelude.{IfOk, List, map, string_bytes};
ghost use Rattle.clap.specs.Words.{Text, found_of, rows_of};
ghost use Rattle.vll_command.specs.CommandLine.{AsksFor, Names};

use crate::commands::matches_of;
use crate::fault::CommandFault;
use crate::values::{input_of, options_of, range_of, serve_options_of};
use clap::error::ErrorKind;
use clap::{ArgMatches, Error};
use std::alloc::Global;
use vll_core::MOST_WORKERS;
use vll_scenario::{EngineOptions, EventRange, UpTo};

/// What the command line asks for.
#[derive(Drop)]
pub enum Action {
    /// To print this text: the help or the version.
    Tell(Error),
    /// To run the scenario of this input with these options.
    Run(Input, RunOptions),
    /// To serve the calls on standard input, over the scenario of a file.
    Serve(ServeOptions),
    /// To replay the schedule of the scenario of this input.
    Replay(Input),
    /// To explain why the scenario of this input is refused, or to report what it has.
    Explain(Input),
    /// To draw these events of the replay of the scenario of this input.
    Draw(Input, EventRange),
    /// To run the scenario of this input with these options, and to tell its steps.
    Trace(Input, RunOptions),
}

/// Where a scenario is read from.
#[derive(Drop)]
pub enum Input {
    /// Standard input.
    Standard,
    /// The file with this path.
    File(String),
}

/// How a scenario is run.
#[derive(Clone, Copy, Debug)]
pub struct RunOptions {
    /// How many worker threads make the calls.
    pub workers: Workers,
    /// What the engine has in place of the scenario's settings.
    pub engine: EngineOptions,
}

/// A number of worker threads.
pub type Workers = UpTo<MOST_WORKERS>;

/// How calls are served.
#[derive(Drop)]
pub struct ServeOptions {
    /// The path of the scenario's file.
    pub file: String,
    /// What the engine has in place of the scenario's settings.
    pub engine: EngineOptions,
}

/// Reads the command line, whose first word is the program's name. The other words have to be `run`, `serve`, `replay`,
/// `explain`, `draw` or `trace`, with its options and the path of a file, which only `serve` has to have; or ask for help or the
/// version. Any others are refused. The action has the file and the values that the
/// words give, and those of options that they do not give are the defaults.
pub fn action_of(alloc: Global, words: &[String]) -> Result<Action, CommandFault>
    ensures { IfOk result (AsksFor (map string_bytes words.now)) }
{
    match matches_of(alloc, words) {
        Ok(matches) => match matches.subcommand() {
            Some((name, options)) => action_named(alloc, name, options),
            None => Err(CommandFault::Failed),
        },
        Err(text) => match text.kind() {
            ErrorKind::DisplayHelp | ErrorKind::DisplayVersion => Ok(Action::Tell(text)),
            _ => Err(CommandFault::Refused(text)),
        },
    }
}

// The action of the command with this name, and with these options.
fn action_named(alloc: Global, name: &str, options: &ArgMatches<'_>) -> Result<Action, CommandFault>
    ensures { (words : List Text) → Names words name.now (rows_of (found_of options.now)) → IfOk result (AsksFor words) }
{
    match name {
        "run" => Ok(Action::Run(input_of(alloc, options)?, options_of(options)?)),
        "serve" => Ok(Action::Serve(serve_options_of(alloc, options)?)),
        "replay" => Ok(Action::Replay(input_of(alloc, options)?)),
        "explain" => Ok(Action::Explain(input_of(alloc, options)?)),
        "draw" => Ok(Action::Draw(input_of(alloc, options)?, range_of(options)?)),
        "trace" => Ok(Action::Trace(input_of(alloc, options)?, options_of(options)?)),
        _ => Err(CommandFault::Failed),
    }
}
