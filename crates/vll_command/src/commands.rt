//! The program's commands with their options, as `clap` reads them.
ghost use Rattle.std.specs.Prelude.{◌≡◌, ◌++◌, ◌∷◌, [], IfErr, IfOk, codes, map, string_bytes};
ghost use Rattle.clap.specs.Faults.{fault_of};
ghost use Rattle.clap.specs.Words.{HasKind, Shape, app_of, subcommand_of, subcommand_rows_of};
ghost use Rattle.vll_command.specs.CommandLine.{bits, cap, draw, explain, file, option, replay, run, run_rules, serve, trace, vll};
ghost use Rattle.vll_command.specs.Private.Made.{IsMade, IsOption};

use crate::help::{
    BITS, CAP, COUNT, DRAW_EXAMPLES, EXAMPLES, EXPLAIN_EXAMPLE, FILE, FROM, REPLAY_EXAMPLE,
    RUN_EXAMPLES, SERVE_EXAMPLES, SERVE_FILE, TRACE_EXAMPLES, WORKERS,
};
use clap::{Arg, ArgMatches, Command, Error, value_parser};
use std::alloc::{AllocError, Global};
use vll_core::{MOST_WAITING, MOST_WORKERS};
use vll_sca::MOST_BITS;
use vll_scenario::{MOST_COLUMNS, MOST_EVENTS};

// CHANGELOG.md lists what is new in it.
const VERSION: &str = "0.9.0";

// What `clap` has read of the words.
pub(crate) fn matches_of<'a>(alloc: Global, words: &'a [String]) -> Result<ArgMatches<'a>, Error>
    ensures taken { IfOk result (λ _. fault_of vll (map string_bytes words.entry.now) ≡ []) }
    ensures entered { IfOk result (λ m. subcommand_rows_of m ≡ subcommand_of vll (map string_bytes words.entry.now)) }
    ensures told { IfErr result (HasKind (fault_of vll (map string_bytes words.entry.now))) }
{
    let command = program(alloc)?;
    command.try_get_matches_from(words)
}

fn program<'a>(alloc: Global) -> Result<Command<'a>, AllocError>
    ensures { IfOk result (λ c. app_of c ≡ vll) }
{
    let command = Command::new(alloc, "vll")
        .about("Runs the calls of a scenario as transactions")
        .version(VERSION)
        .after_help(EXAMPLES)
        .subcommand_required(true);
    let command = command.subcommand(run_command(alloc)?)?;
    let command = command.subcommand(serve_command(alloc)?)?;
    let command = command.subcommand(replay_command(alloc)?)?;
    let command = command.subcommand(explain_command(alloc)?)?;
    let command = command.subcommand(draw_command(alloc)?)?;
    command.subcommand(trace_command(alloc)?)
}

fn run_command<'a>(alloc: Global) -> Result<Command<'a>, AllocError>
    ensures { IfOk result (IsMade run) }
{
    let command = Command::new(alloc, "run")
        .about("Runs a scenario and prints its outcome")
        .after_help(RUN_EXAMPLES);
    with_run_options(alloc, command)
}

fn trace_command<'a>(alloc: Global) -> Result<Command<'a>, AllocError>
    ensures { IfOk result (IsMade trace) }
{
    let command = Command::new(alloc, "trace")
        .about("Runs a scenario and prints it with the schedule of that run")
        .after_help(TRACE_EXAMPLES);
    with_run_options(alloc, command)
}

// The command with the file and the options of a run.
fn with_run_options<'a>(alloc: Global, command: Command<'a>) -> Result<Command<'a>, AllocError>
    ensures { (s : Shape) → IsMade s command.entry → IfOk result (IsMade (record s { rules = s.rules ++ run_rules })) }
{
    let workers = number(alloc, "workers", MOST_WORKERS, WORKERS).default_value("4");
    let command = command.arg(file_argument(alloc))?;
    let command = command.arg(workers)?;
    with_engine_options(alloc, command)
}

fn serve_command<'a>(alloc: Global) -> Result<Command<'a>, AllocError>
    ensures { IfOk result (IsMade serve) }
{
    let file = Arg::new(alloc, "FILE").required(true).help(SERVE_FILE);
    let command = Command::new(alloc, "serve")
        .about("Serves calls: one on each line of standard input, until it ends")
        .after_help(SERVE_EXAMPLES)
        .arg(file)?;
    with_engine_options(alloc, command)
}

// The argument `FILE`, which may be left out.
fn file_argument<'a>(alloc: Global) -> Arg<'a>
    ensures { IsOption file result }
{
    Arg::new(alloc, "FILE").required(false).help(FILE)
}

// The command with the options of an engine.
fn with_engine_options<'a>(alloc: Global, command: Command<'a>) -> Result<Command<'a>, AllocError>
    ensures { (s : Shape) → IsMade s command.entry → IfOk result (IsMade (record s { rules = s.rules ++ cap ∷ bits ∷ [] })) }
{
    let cap = number(alloc, "cap", MOST_WAITING, CAP);
    let bits = number(alloc, "bits", MOST_BITS, BITS);
    command.arg(cap)?.arg(bits)
}

fn replay_command<'a>(alloc: Global) -> Result<Command<'a>, AllocError>
    ensures { IfOk result (IsMade replay) }
{
    Command::new(alloc, "replay")
        .about("Takes the steps of a scenario's schedule, and prints the result of each")
        .after_help(REPLAY_EXAMPLE)
        .arg(file_argument(alloc))
}

fn explain_command<'a>(alloc: Global) -> Result<Command<'a>, AllocError>
    ensures { IfOk result (IsMade explain) }
{
    Command::new(alloc, "explain")
        .about("Explains why a scenario is refused, or summarizes it")
        .after_help(EXPLAIN_EXAMPLE)
        .arg(file_argument(alloc))
}

fn draw_command<'a>(alloc: Global) -> Result<Command<'a>, AllocError>
    ensures { IfOk result (IsMade draw) }
{
    let from = whole(alloc, "from", 0, MOST_EVENTS as u32, FROM).default_value("0");
    let count = number(alloc, "count", MOST_COLUMNS, COUNT).default_value("360");
    let command = Command::new(alloc, "draw")
        .about("Writes a page that draws the replay of a scenario's schedule")
        .after_help(DRAW_EXAMPLES)
        .arg(file_argument(alloc))?;
    command.arg(from)?.arg(count)
}

// The option `--NAME`, which takes a whole number from 1 to `most`.
fn number<'a>(alloc: Global, name: &'a str, most: u32, help: &'a str) -> Arg<'a>
    ensures { IsOption (option name.entry.now 1 most []) result }
{
    whole(alloc, name, 1, most, help)
}

// The option `--NAME`, which takes a whole number from `least` to `most`.
fn whole<'a>(alloc: Global, name: &'a str, least: u32, most: u32, help: &'a str) -> Arg<'a>
    ensures { IsOption (option name.entry.now least most []) result }
{
    Arg::new(alloc, name)
        .long(name)
        .value_name("N")
        .value_parser(value_parser!(u32).range(i64::from(least)..=i64::from(most)))
        .help(help)
}
