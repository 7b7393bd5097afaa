//! Making a scenario from the parts of its tree.
ghost use Rattle.std.specs.Prelude.{◌≡◌, ◌≤◌, ◌⊎◌, ◌↔◌, ℕ, Some, None, length, map, sum_by, All, IfOk, IfErr, IsTrue};
ghost use Rattle.vll_scenario.specs.Private.Reading.{made_list, made_lists, GivesUnlessMemory};
ghost use Rattle.vll_scenario.specs.Scenario.{config_of, first_check, script_made, scripts_made, setup_of};
ghost use Rattle.vll_scenario.specs.Setup.{has_sizes};
ghost use Rattle.vll_scenario.specs.declared.fault.ScenarioFault.TheVariants as ScenarioFault;

use crate::fault::ScenarioFault;
use crate::limits::{MOST_CLIENTS, MOST_EVENTS, MOST_PROCS};
use crate::reading::asked::Asked;
use crate::reading::shape::Parts;
use crate::scenario::{Scenario, ScenarioParts};
use sqlite_items::Items;
use std::alloc::Global;
use vll_check::{Checked, Library, check};
use vll_core::{Config, MOST_CALLS, open_fault};
use vll_proc::{Call, Proc};
use vll_sca::Placing;

// The defaults for the cap and the number of bits.
const CAP: u32 = 1_024;

const BITS: u32 = 4_096;

// As docs/SCENARIO.md says.
const _: () = prove!(CAP == 1_024);

const _: () = prove!(BITS == 4_096);

// Makes a scenario from its parts: checks the sizes first, then the procedures, their names and the calls.
pub(crate) fn setup_of(alloc: Global, parts: Parts) -> Result<Scenario, ScenarioFault>
    ensures { GivesUnlessMemory result (setup_of parts) }
{
    if !has_sizes(&parts) {
        return Err(ScenarioFault::Size);
    }
    let config = config_of(&parts);
    if open_fault(parts.records.len(), config).is_some() {
        return Err(ScenarioFault::Size);
    }
    let Parts {
        records,
        procs,
        scripts,
        placing,
        schedule,
        ..
    } = parts;
    let count = records.len() as u32;
    let checked = checked_of(alloc, count, procs)?;
    let library = Library::new(count, checked)?;
    let scripts = scripts_of(alloc, &library, scripts.as_slice())?;
    let records = Vec::from_slice(alloc, records.as_slice())?;
    Ok(Scenario::from_parts(ScenarioParts {
        records,
        library,
        scripts,
        config,
        placing: placing.unwrap_or(Placing::Modulo),
        schedule,
    }))
}

// Whether the numbers of procedures, clients, calls and events are within a scenario's limits.
fn has_sizes(parts: &Parts) -> bool
    ensures { result ≡ has_sizes parts.now.procs parts.now.scripts parts.now.schedule }
{
    parts.procs.len() <= MOST_PROCS
        && parts.scripts.len() <= MOST_CLIENTS
        && has_few_calls(parts.scripts.as_slice())
        && parts.schedule.len() <= MOST_EVENTS
}

// The machine's settings, with the defaults for those that are not given.
fn config_of(parts: &Parts) -> Config
    requires few { sum_by length parts.now.scripts ≤ MOST_CALLS }
    ensures { result ≡ config_of parts.now }
{
    let calls = calls_in(parts.scripts.as_slice());
    Config {
        cap: parts.cap.unwrap_or(CAP),
        limit: parts.limit.unwrap_or(calls.max(1)),
        bits: parts.bits.unwrap_or(BITS),
    }
}

// The number of calls in all scripts together.
fn calls_in(scripts: &[Items<Asked>]) -> u32
    requires { sum_by length scripts.now ≤ MOST_CALLS }
    ensures { result ≡ sum_by length scripts.now }
{
    let mut count = 0;
    for script in scripts {
        count += script.len() as u32;
    }
    count
}

// Whether all scripts together have at most `MOST_CALLS` calls.
fn has_few_calls(scripts: &[Items<Asked>]) -> bool
    ensures { IsTrue result ↔ (sum_by length scripts.now ≤ MOST_CALLS) }
{
    let mut left = MOST_CALLS as usize;
    for script in scripts {
        if script.len() > left {
            return false;
        }
        left -= script.len();
    }
    true
}

// Checks the procedures, or returns the fault of the first that is not well-formed. A list gives up its items from the
// end, so all of them are checked, and the last fault found is that of the first faulty procedure.
fn checked_of(
    alloc: Global,
    records: u32,
    procs: Items<Proc>,
) -> Result<Vec<Checked>, ScenarioFault>
    requires { length procs ≤ MOST_PROCS }
    ensures passed { IfOk result (λ cs. first_check records procs ≡ None) }
    ensures procs { IfOk result (λ cs. map (λ c. c.procedure) cs.items ≡ procs) }
    ensures records { IfOk result (λ cs. All (λ c. c.records ≡ records) cs.items) }
    ensures fault { IfErr result (λ e. (e ≡ ScenarioFault.NoMemory)
        ⊎ (first_check records procs ≡ Some e)) }
{
    let mut procs = procs;
    let mut checked = Vec::new(alloc);
    let mut first = None;
    while let Some(procedure) = procs.pop() {
        match check(procedure, records) {
            Ok(passed) => checked.push(passed)?,
            Err(fault) => {
                first = Some(ScenarioFault::Check {
                    index: procs.len() as u32,
                    fault,
                });
            }
        }
    }
    if let Some(fault) = first {
        return Err(fault);
    }
    checked.reverse();
    Ok(checked)
}

// The calls of the scripts, client by client.
fn scripts_of(
    alloc: Global,
    library: &Library,
    scripts: &[Items<Asked>],
) -> Result<Vec<Vec<Call>>, ScenarioFault>
    requires clients { length scripts.now ≤ MOST_CLIENTS }
    requires calls { sum_by length scripts.now ≤ MOST_CALLS }
    ensures { GivesUnlessMemory (made_lists result) (scripts_made library.now scripts.now) }
{
    let mut made = Vec::new(alloc);
    for (client, script) in scripts.iter().enumerate() {
        made.push(script_of(alloc, library, client as u32, script.as_slice())?)?;
    }
    Ok(made)
}

// The calls of a client's script.
fn script_of(
    alloc: Global,
    library: &Library,
    client: u32,
    script: &[Asked],
) -> Result<Vec<Call>, ScenarioFault>
    requires { length script.now ≤ MOST_CALLS }
    ensures { GivesUnlessMemory (made_list result) (script_made library.now client script.now) }
{
    let mut calls = Vec::with_capacity(alloc, script.len())?;
    for (index, asked) in script.iter().enumerate() {
        match library.call(asked.name.as_str(), asked.args.as_slice()) {
            Ok(call) => calls.push(call)?,
            Err(fault) => {
                return Err(ScenarioFault::Call {
                    client,
                    index: index as u32,
                    fault,
                });
            }
        }
    }
    Ok(calls)
}
