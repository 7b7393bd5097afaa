//! The machine and the engine on which bumps are timed, and those of a scenario that is given.
ghost use Rattle.std.specs.Prelude.{◌≡◌, ◌≤◌, ◌<◌, ◌^◌, All, IfOk, length};
ghost use Rattle.vll_check.specs.Calls.{Fits};
ghost use Rattle.vll_queue.specs.Shown.{library_of, name_of};
ghost use Rattle.vll_sca.specs.Placing.{placing};

use crate::fault::Fault;
use std::alloc::{AllocError, Global};
use vll_core::Core;
use vll_engine::Opening;
use vll_proc::Call;
use vll_sca::Placing;
use vll_server::{
    MOST_CLIENTS, Plain, Scenario, ScenarioFault, ScenarioParts, opening_of, read_scenario,
};

// A scenario up to its list of records: its procedure adds 1 to the record that the argument names, and replies the
// sum.
const BUMP: &str = r#"{"version":1,"cap":65536,
 "procs":[{"name":"bump","args":1,"keys":[["write","arg",0]],
   "body":[["set",0,["add",["key",0],1]],["reply",["key",0]]]}],
 "records":["#;

/// Reads a scenario, and returns its parts: the library makes each call of each script.
pub(crate) fn parts_of(alloc: Global, bytes: &[u8]) -> Result<ScenarioParts, ScenarioFault>
    ensures { IfOk result (λ parts. All (λ script. All (Fits parts.library) script.items) parts.scripts.items) }
{
    Ok(read_scenario(alloc, &mut Plain::new(bytes))?.into_parts())
}

/// Reads a scenario and opens an engine over it, whose clients are those of its scripts.
pub(crate) fn opened(
    alloc: Global,
    bytes: &[u8],
) -> Result<(Opening<Placing>, Vec<Vec<Call>>), Fault>
    ensures clients { IfOk result (λ made. made.0.clients ≡ length made.1.items) }
    ensures few { IfOk result (λ made. length made.1.items ≤ MOST_CLIENTS) }
    ensures short { IfOk result (λ made. All (λ script. length script.items < 2 ^ 32) made.1.items) }
    ensures fits { IfOk result (λ made. All (λ script. All (Fits (library_of (name_of placing made.0))) script.items) made.1.items) }
{
    let scenario = read_scenario(alloc, &mut Plain::new(bytes))?;
    Ok(opening_of(alloc, scenario)?)
}

/// Makes a machine over `records` records that hold 0, with one client whose script has `calls` calls, at least 1: the
/// first bumps record 0, the next one record 1, and so on, and all that are left the last record.
pub(crate) fn core(alloc: Global, records: u32, calls: u32) -> Result<Core<Placing>, Fault> {
    let ScenarioParts {
        records,
        library,
        scripts,
        config,
        placing,
        ..
    } = scenario(alloc, records, calls)?.into_parts();
    Ok(Core::open(alloc, records, library, scripts, config, placing)?)
}

/// Opens an engine over `records` records that hold 0, with one client, for `calls` bumps, at least 1.
pub(crate) fn opening(alloc: Global, records: u32, calls: u32) -> Result<Opening<Placing>, Fault> {
    let (opening, _) = opening_of(alloc, scenario(alloc, records, calls)?)?;
    Ok(opening)
}

// Makes `records` records that hold 0, and one client with `calls` bumps, of one record after the other, and then of
// the last.
fn scenario(alloc: Global, records: u32, calls: u32) -> Result<Scenario, ScenarioFault> {
    let mut text = String::from_str(alloc, BUMP)?;
    push_records(&mut text, records)?;
    text.push_str("],\"clients\":[[")?;
    push_bumps(&mut text, calls, records.saturating_sub(1))?;
    text.push_str("]]}")?;
    read_scenario(alloc, &mut Plain::new(text.as_bytes()))
}

// Adds `records` records, at least 1.
fn push_records(text: &mut String, records: u32) -> Result<(), AllocError> {
    text.push_str("0")?;
    for _ in 1..records {
        text.push_str(",0")?;
    }
    Ok(())
}

// Adds `calls` bumps, at least 1, none of which bumps a record after `last`.
fn push_bumps(text: &mut String, calls: u32, last: u32) -> Result<(), AllocError> {
    text.push_str(r#"{"proc":"bump","args":[0]}"#)?;
    for i in 1..calls {
        let record = i.min(last);
        write!(text, ",{{\"proc\":\"bump\",\"args\":[{record}]}}")?;
    }
    Ok(())
}
