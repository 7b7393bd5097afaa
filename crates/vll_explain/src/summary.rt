//! What a scenario has.
use crate::shown::Quoted;
use std::alloc::{AllocError, Global};
use vll_check::Library;
use vll_core::Config;
use vll_proc::{Call, KeyAt, KeyDecl, Proc};
use vll_record::Mode;
use vll_sca::Placing;
use vll_scenario::{Scenario, ScenarioParts};

// The number of procedures that are listed.
const MOST_TOLD: u32 = 16;

// The size of each part of a scenario, its settings, and its procedures with their keys.
pub(crate) fn summary_of(alloc: Global, scenario: Scenario) -> Result<String, AllocError> {
    let ScenarioParts {
        records,
        library,
        scripts,
        config,
        placing,
        schedule,
    } = scenario.into_parts();
    let counts = Counts {
        records: records.len(),
        clients: scripts.len(),
        calls: calls_in(scripts.as_slice()),
        events: schedule.len(),
    };
    summary(alloc, counts, config, placing, &library)
}

// The sizes of a scenario's parts.
#[derive(Clone, Copy)]
struct Counts {
    records: usize,
    clients: usize,
    calls: usize,
    events: usize,
}

fn calls_in(scripts: &[Vec<Call>]) -> usize {
    let mut calls = 0usize;
    for script in scripts {
        calls = calls.saturating_add(script.len());
    }
    calls
}

fn summary(
    alloc: Global,
    counts: Counts,
    config: Config,
    placing: Placing,
    library: &Library,
) -> Result<String, AllocError> {
    let mut text = String::new(alloc);
    push_counts(&mut text, counts)?;
    push_config(&mut text, config, placing)?;
    push_procedures(&mut text, library)?;
    Ok(text)
}

fn push_counts(text: &mut String, counts: Counts) -> Result<(), AllocError> {
    let Counts {
        records,
        clients,
        calls,
        events,
    } = counts;
    writeln!(
        text,
        "records: {records}\nclients: {clients}\ncalls: {calls}\nevents: {events}"
    )
}

fn push_config(text: &mut String, config: Config, placing: Placing) -> Result<(), AllocError> {
    let Config { cap, limit, bits } = config;
    let hash = match placing {
        Placing::Modulo => "modulo",
        Placing::Spread => "spread",
    };
    writeln!(
        text,
        "cap: {cap}\nlimit: {limit}\nbits: {bits}\nhash: {hash}"
    )
}

fn push_procedures(text: &mut String, library: &Library) -> Result<(), AllocError> {
    for number in 0..MOST_TOLD {
        if let Some(procedure) = library.proc(number) {
            push_procedure(text, number, procedure)?;
        }
    }
    if library.proc(MOST_TOLD).is_some() {
        text.push_str("and more procedures\n")?;
    }
    Ok(())
}

fn push_procedure(text: &mut String, number: u32, procedure: &Proc) -> Result<(), AllocError> {
    let name = Quoted(procedure.name.as_str());
    let args = procedure.args;
    write!(text, "procs {number} ({name}): args: {args}, keys:")?;
    if procedure.keys.is_empty() {
        text.push_str(" none")?;
    }
    for (i, key) in procedure.keys.as_slice().iter().enumerate() {
        let comma = if i == 0 { "" } else { "," };
        text.push_str(comma)?;
        push_key(text, key)?;
    }
    text.push_str("\n")
}

fn push_key(text: &mut String, key: &KeyDecl) -> Result<(), AllocError> {
    let mode = match key.mode {
        Mode::Read => "read",
        Mode::Write => "write",
    };
    match key.at {
        KeyAt::Arg(index) => write!(text, " {mode} arg {index}"),
        KeyAt::Fixed(record) => write!(text, " {mode} fixed {record}"),
        KeyAt::Through(index) => write!(text, " {mode} through {index}"),
    }
}
