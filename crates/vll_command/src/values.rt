//! What `clap` has read for the file and the options.
ghost use Rattle.std.specs.Prelude.{◌≡◌, Some, IfOk, codes, string_bytes};
ghost use Rattle.clap.specs.Words.{first_value, found_of, one_text};
ghost use Rattle.vll_command.specs.Options.{Gives, GivesInput};

use crate::action::{Input, RunOptions, ServeOptions};
use crate::fault::CommandFault;
use clap::ArgMatches;
use std::alloc::Global;
use vll_scenario::{EngineOptions, EventRange, UpTo};

// The file that is given, or else standard input.
pub(crate) fn input_of(alloc: Global, matches: &ArgMatches<'_>) -> Result<Input, CommandFault>
    ensures { IfOk result (GivesInput (first_value (found_of matches.now) (codes "FILE"))) }
{
    let Some(path) = matches.get_str("FILE") else {
        return Ok(Input::Standard);
    };
    let path = String::from_str(alloc, path).map_err(|_| CommandFault::Failed)?;
    Ok(Input::File(path))
}

// The values of the options of `run`.
pub(crate) fn options_of(matches: &ArgMatches<'_>) -> Result<RunOptions, CommandFault>
    ensures workers { IfOk result (λ o. Gives (one_text (found_of matches.now) (codes "workers")) (Some o.workers)) }
    ensures cap { IfOk result (λ o. Gives (one_text (found_of matches.now) (codes "cap")) o.engine.cap) }
    ensures bits { IfOk result (λ o. Gives (one_text (found_of matches.now) (codes "bits")) o.engine.bits) }
{
    let workers = number_of(matches, "workers")?.ok_or(CommandFault::Failed)?;
    let engine = engine_options_of(matches)?;
    Ok(RunOptions { workers, engine })
}

// The file that is given to `serve`, and the values of its options.
pub(crate) fn serve_options_of(
    alloc: Global,
    matches: &ArgMatches<'_>,
) -> Result<ServeOptions, CommandFault>
    ensures file { IfOk result (λ o. first_value (found_of matches.now) (codes "FILE") ≡ Some (string_bytes o.file)) }
    ensures cap { IfOk result (λ o. Gives (one_text (found_of matches.now) (codes "cap")) o.engine.cap) }
    ensures bits { IfOk result (λ o. Gives (one_text (found_of matches.now) (codes "bits")) o.engine.bits) }
{
    let path = matches.get_str("FILE").ok_or(CommandFault::Failed)?;
    let file = String::from_str(alloc, path).map_err(|_| CommandFault::Failed)?;
    let engine = engine_options_of(matches)?;
    Ok(ServeOptions { file, engine })
}

// The values of the options of an engine.
fn engine_options_of(matches: &ArgMatches<'_>) -> Result<EngineOptions, CommandFault>
    ensures cap { IfOk result (λ o. Gives (one_text (found_of matches.now) (codes "cap")) o.cap) }
    ensures bits { IfOk result (λ o. Gives (one_text (found_of matches.now) (codes "bits")) o.bits) }
{
    let cap = number_of(matches, "cap")?;
    let bits = number_of(matches, "bits")?;
    Ok(EngineOptions { cap, bits })
}

// The values of the options of `draw`.
pub(crate) fn range_of(matches: &ArgMatches<'_>) -> Result<EventRange, CommandFault>
    ensures from { IfOk result (λ w. Gives (one_text (found_of matches.now) (codes "from")) (Some w.from)) }
    ensures count { IfOk result (λ w. Gives (one_text (found_of matches.now) (codes "count")) (Some w.count)) }
{
    let from = whole_of(matches, "from").ok_or(CommandFault::Failed)?;
    let count = number_of(matches, "count")?.ok_or(CommandFault::Failed)?;
    Ok(EventRange { from, count })
}

// The number of an option that may be 0, if the option is given.
fn whole_of(matches: &ArgMatches<'_>, name: &str) -> Option<u32>
    ensures { Gives (one_text (found_of matches.now) name.now) result }
{
    matches.get_one(name)
}

// The number of an option, if the option is given.
fn number_of<const MOST: u32>(
    matches: &ArgMatches<'_>,
    name: &str,
) -> Result<Option<UpTo<MOST>>, CommandFault>
    ensures { IfOk result (λ number. Gives (one_text (found_of matches.now) name.now) number) }
{
    let Some(number) = matches.get_one(name) else {
        return Ok(None);
    };
    match UpTo::new(number) {
        Some(number) => Ok(Some(number)),
        None => Err(CommandFault::Failed),
    }
}
