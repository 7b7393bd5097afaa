//! A run that is traced: what the workers did, as a schedule that the machine of atomic steps has taken.
ghost use Rattle.std.specs.Prelude.{◌≡◌, ◌≤◌, ◌↔◌, All, IfErr, IfOk, IsOk, OnOk, Ok, Some, false, length, string_bytes, true};
ghost use Rattle.std.specs.Io.KnownBytes.{Appends};
ghost use Rattle.serde_json.specs.Data.{depth};
ghost use Rattle.serde_json.specs.Find.{get};
ghost use Rattle.serde_json.specs.Read.{max_depth};
ghost use Rattle.serde_json.specs.View.{view};
ghost use Rattle.vll_core.specs.Machine.{answers, opened, run};
ghost use Rattle.vll_core.specs.Shown.{opening_of};
ghost use Rattle.vll_sca.specs.Placing.{placing};
ghost use Rattle.vll_replay.specs.ReplayText.{state_text};
ghost use Rattle.vll_scenario.specs.Scenario.{IsTree, scenario_at};
ghost use Rattle.vll_scenario.specs.Headline.Setup.{Setup};
ghost use Rattle.vll_scenario.specs.Streams.{AppendsBeginning};
ghost use Rattle.vll_server.specs.Headline.Text.{closed_text};
ghost use Rattle.vll_trace.specs.Private.Repeated.{AreAlike};
ghost use Rattle.vll_trace.specs.Traced.{AreGranted, IsTrace, IsTreeOf, Traces};

use crate::fault::TraceFault;
use crate::ordering::Ordering;
use crate::recorder::{Happening, Recorder};
use crate::sources::Sources;
use crate::text::text_of;
use serde_json::Value;
use std::alloc::{AllocError, Global};
use std::sync::Wait;
use std::thread::Threads;
use vll_core::{Config, Core, Event, Line};
use vll_engine::Closed;
use vll_proc::Call;
use vll_replay::{core_of, push_state};
use vll_sca::Placing;
use vll_scenario::{
    MOST_BYTES, MOST_EVENTS, Reading, Scenario, ScenarioFault, Sink, reading_of, write_text,
};
use vll_server::{closed_text_of, run_scenario};
use vll_workers::MOST_WORKERS;

/// Runs a scenario's scripts with `workers` worker threads, 1 to `MOST_WORKERS` of `vll_workers`, as `run_scenario` of
/// `vll_server` does, and writes the scenario's text with a schedule: the atomic steps of the run, in an order in which
/// they can have happened. `tree` is the JSON tree that describes the scenario, but for its cap and bits; the text has its
/// version, records, procedures, clients and hash, the scenario's cap and bits, and the number of calls as its limit.
///
/// A replay of what is written takes each event of the schedule, and ends with the tickets, replies and records of the
/// run. Nothing is written before this was seen: the machine of atomic steps takes the events, and its outcome is
/// compared. `Events` is returned before the run if a schedule cannot have as many events as the calls have at least,
/// and after it if there are more; `Size` if the text would have more bytes than a scenario may have; `Run` has the
/// fault that `run_scenario` returned. `Refused` would be a mistake of this crate. `Write` is returned exactly if the
/// writer has failed; then a prefix of the text has been written. After any other fault nothing has been.
pub fn trace<R: Threads + Wait + Sync, W: Wait + Sync, S: Sink>(
    rt: &R,
    wait: &W,
    alloc: Global,
    tree: &Value,
    scenario: Scenario,
    workers: u32,
    writer: &mut S,
) -> Result<(), TraceFault>
    requires tree { IsTreeOf tree.now scenario }
    requires workers { (1 ≤ workers) × (workers ≤ MOST_WORKERS) }
    requires writer { S.failed writer.old ≡ false }
    ensures ok { OnOk result (Traces scenario (Appends (S.contents writer.old) (S.contents writer.new))) }
    ensures write { result ≡ Err TraceFault.Write
        → Traces scenario (AppendsBeginning (S.contents writer.old) (S.contents writer.new)) }
    ensures before { IfErr result (λ why. ¬ (why ≡ TraceFault.Write) → writer.new ≡ writer.old) }
    ensures failed { (result ≡ Err TraceFault.Write) ↔ (S.failed writer.new ≡ true) }
{
    let text = text_of_trace(rt, wait, alloc, tree, scenario, workers)?;
    match write_text(writer, text.as_bytes()) {
        Ok(()) => Ok(()),
        Err(_) => Err(TraceFault::Write),
    }
}

// Returns the text of a scenario with the schedule of a run.
fn text_of_trace<R: Threads + Wait + Sync, W: Wait + Sync>(
    rt: &R,
    wait: &W,
    alloc: Global,
    tree: &Value,
    scenario: Scenario,
    workers: u32,
) -> Result<String, TraceFault>
    requires tree { IsTreeOf tree.now scenario }
    requires workers { (1 ≤ workers) × (workers ≤ MOST_WORKERS) }
    ensures traced { IfOk result (λ text. Traces scenario (λ t. t ≡ string_bytes text)) }
    ensures write { ¬ (result ≡ Err TraceFault.Write) }
{
    let (scenario, config) = settled(scenario)?;
    let recorder = Recorder::new(alloc, wait, config.limit as usize)?;
    let closed = match run_scenario(rt, wait, alloc, scenario, workers, &recorder) {
        Ok(closed) => closed,
        Err(why) => return Err(TraceFault::Run(why)),
    };
    let happenings = recorder.into_happenings();
    let schedule = schedule_of(
        alloc,
        tree,
        config,
        happenings.as_slice(),
        closed.journal.as_slice(),
    )?;
    let text = text_of(alloc, tree, config, schedule.as_slice())?;
    if !is_taken(alloc, tree, text.as_str(), config, &closed)? {
        return Err(TraceFault::Refused);
    }
    Ok(text)
}

// Returns a scenario whose schedule can be long enough for its calls, with the settings of the machine that takes it:
// those of the scenario, and room for all calls.
fn settled(scenario: Scenario) -> Result<(Scenario, Config), TraceFault>
    ensures scenario { IfOk result (λ made. made.0 ≡ scenario) }
    ensures cap { IfOk result (λ made. made.1.cap ≡ scenario.config.cap) }
    ensures bits { IfOk result (λ made. made.1.bits ≡ scenario.config.bits) }
    ensures write { ¬ (result ≡ Err TraceFault.Write) }
{
    let parts = scenario.into_parts();
    let (calls, events) = least_of(parts.scripts.as_slice());
    if events > MOST_EVENTS as u64 {
        return Err(TraceFault::Events(events));
    }
    let config = Config {
        cap: parts.config.cap,
        limit: calls.max(1),
        bits: parts.config.bits,
    };
    Ok((Scenario::from_parts(parts), config))
}

// How many calls there are, and how many events they have at least: each enters, is admitted and finished, and requests,
// loads and releases its records.
fn least_of(scripts: &[Vec<Call>]) -> (u32, u64) {
    let mut calls = 0u32;
    let mut events = 0u64;
    for script in scripts {
        for call in script {
            calls = calls.saturating_add(1);
            events = events.saturating_add(3 + 3 * call.claims.len() as u64);
        }
    }
    (calls, events)
}

// Returns the scenario of a text, and the tree that describes it.
fn scenario_in(alloc: Global, text: &str) -> Result<(Value, Scenario), TraceFault>
    ensures few { IfOk result (λ made. length text.now ≤ MOST_BYTES) }
    ensures tree { IfOk result (λ made. IsTree text.now (Some (view made.0))) }
    ensures scenario { IfOk result (λ made. scenario_at (Some (view made.0)) ≡ Ok made.1) }
    ensures write { ¬ (result ≡ Err TraceFault.Write) }
{
    let bytes = text.as_bytes();
    if bytes.len() > MOST_BYTES {
        return Err(TraceFault::Size(bytes.len() as u64));
    }
    match reading_of(alloc, bytes) {
        Ok(Reading { tree, scenario }) => match scenario {
            Ok(scenario) => Ok((tree, scenario)),
            Err(why) => Err(unread(why)),
        },
        Err(why) => Err(unread(why)),
    }
}

// The fault to return for a text that is not read as a scenario.
fn unread(why: ScenarioFault) -> TraceFault
    ensures { ¬ (result ≡ TraceFault.Write) }
{
    match why {
        ScenarioFault::NoMemory => TraceFault::NoMemory,
        _ => TraceFault::Refused,
    }
}

// Returns the steps of a run, in an order in which they can have happened.
fn schedule_of(
    alloc: Global,
    tree: &Value,
    config: Config,
    happenings: &[Happening],
    journal: &[Line],
) -> Result<Vec<Event>, TraceFault>
    ensures { ¬ (result ≡ Err TraceFault.Write) }
{
    let untraced = text_of(alloc, tree, config, &[])?;
    let (_, scenario) = scenario_in(alloc, untraced.as_str())?;
    let parts = scenario.into_parts();
    let sources = Sources::new(alloc, &parts.library, parts.scripts.as_slice())?;
    let records = parts.records.len();
    let (core, _) = core_of(alloc, Scenario::from_parts(parts))?;
    let ordering = Ordering::new(alloc, core, sources, records)?;
    let schedule = ordering.of_all(happenings, journal)?;
    if schedule.len() > MOST_EVENTS {
        return Err(TraceFault::Events(schedule.len() as u64));
    }
    Ok(schedule)
}

// Whether a text is the scenario of a tree with these settings, the machine takes each event of its schedule, and ends
// as the run did.
fn is_taken(
    alloc: Global,
    tree: &Value,
    text: &str,
    config: Config,
    closed: &Closed,
) -> Result<bool, TraceFault>
    requires { depth (view tree.now) ≤ max_depth }
    ensures taken { result ≡ Ok true → (read : Setup) → scenario_at (Some (view tree.now)) ≡ Ok read
        → IsTrace (record read { config = config }) closed.now text.now }
    ensures write { ¬ (result ≡ Err TraceFault.Write) }
{
    let (again, scenario) = scenario_in(alloc, text)?;
    if !are_alike(alloc, tree, &again)? {
        return Ok(false);
    }
    let parts = scenario.into_parts();
    if parts.config.cap != config.cap || parts.config.bits != config.bits {
        return Ok(false);
    }
    let (core, schedule) = core_of(alloc, Scenario::from_parts(parts))?;
    let mut core = core;
    if !takes_all(&mut core, schedule.as_slice()) {
        return Ok(false);
    }
    ends_alike(alloc, &core, closed)
}

// Whether two trees have the same members, but for the engine's settings and the schedule.
fn are_alike(alloc: Global, one: &Value, other: &Value) -> Result<bool, AllocError>
    requires one { depth (view one.now) ≤ max_depth }
    requires other { depth (view other.now) ≤ max_depth }
    ensures { result ≡ Ok true → AreAlike (view one.now) (view other.now) }
{
    let version = is_alike(alloc, one, other, "version")?;
    let records = is_alike(alloc, one, other, "records")?;
    let procs = is_alike(alloc, one, other, "procs")?;
    let clients = is_alike(alloc, one, other, "clients")?;
    let hash = is_alike(alloc, one, other, "hash")?;
    Ok(version && records && procs && clients && hash)
}

// Whether two trees have the same member of this name, or none.
fn is_alike(alloc: Global, one: &Value, other: &Value, name: &str) -> Result<bool, AllocError>
    requires one { depth (view one.now) ≤ max_depth }
    requires other { depth (view other.now) ≤ max_depth }
    ensures { result ≡ Ok true → get name.now (view one.now) ≡ get name.now (view other.now) }
{
    match (one.get(name), other.get(name)) {
        (Some(one), Some(other)) => Ok(one.to_string(alloc)? == other.to_string(alloc)?),
        (None, None) => Ok(true),
        _ => Ok(false),
    }
}

// Whether the machine has the tickets, replies and records that a run has left.
fn ends_alike(alloc: Global, core: &Core<Placing>, closed: &Closed) -> Result<bool, TraceFault>
    ensures alike { result ≡ Ok true → state_text core.now.base core.now.state ≡ closed_text closed.now }
    ensures write { ¬ (result ≡ Err TraceFault.Write) }
{
    let mut end = String::new(alloc);
    push_state(&mut end, core)?;
    let outcome = closed_text_of(alloc, closed)?;
    Ok(end == outcome)
}

// Takes the events one after the other, and reports whether none was refused.
fn takes_all(core: &mut Core<Placing>, schedule: &[Event]) -> bool
    ensures granted { result ≡ true → AreGranted (answers (opening_of placing core.old) core.old.state schedule.now) }
    ensures state { result ≡ true → core.new ≡ record core.old { state = run (opening_of placing core.old) core.old.state schedule.now } }
{
    for event in schedule {
        if core.step(*event).is_err() {
            return false;
        }
    }
    true
}
