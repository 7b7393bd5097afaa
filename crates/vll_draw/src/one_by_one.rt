//! The schedule that is drawn of a scenario without one: each call of the scripts is made alone, one after the other.
ghost use Rattle.std.specs.Prelude.{◌≡◌, ◌≤◌, ◌++◌, false, IfOk, OnOk, filter, length, map, replicate, take};
ghost use Rattle.std.specs.Option.{option_map_or};
ghost use Rattle.vll_record.specs.Headline.Claim.{is_write as writes_record};
ghost use Rattle.vll_proc.specs.declared.call.Call.{Call};
ghost use Rattle.vll_proc.specs.Headline.Serial.{apply};
ghost use Rattle.vll_check.specs.Calls.{Fits, IsReady};
ghost use Rattle.vll_scenario.specs.Headline.Setup.{catalog_of};
ghost use Rattle.vll_scenario.specs.Setup.{IsSetup, lists_of, setup_with};
ghost use Rattle.vll_draw.specs.OneByOne.{alone, by_clients, entering, entry_of, finds, run_of, schedule_for, stores, with_schedule};

use sqlite_items::Items;
use std::alloc::{AllocError, Global};
use vll_check::Library;
use vll_core::{Event, Ticket};
use vll_proc::{Call, Reply};
use vll_record::{Claim, Claims, Mode};
use vll_scenario::{MOST_CLIENTS, MOST_EVENTS, Scenario, ScenarioParts};
use vll_serial::make;

/// Where the schedule that is drawn comes from.
#[derive(Clone, Copy, PartialEq, Eq, Debug)]
pub(crate) enum Origin {
    Scenario,
    /// The scenario has none: its calls are made one after the other.
    OneByOne,
}

/// Returns a scenario with its schedule, or, if that has no event, with the schedule that makes its calls one after the
/// other.
pub(crate) fn with_schedule(
    alloc: Global,
    scenario: Scenario,
) -> Result<(Scenario, Origin), AllocError>
    ensures { IfOk result (λ made. made.0 ≡ with_schedule scenario) }
{
    let mut parts = scenario.into_parts();
    if !parts.schedule.is_empty() {
        return Ok((Scenario::from_parts(parts), Origin::Scenario));
    }
    parts.schedule = schedule_for(alloc, &parts)?;
    Ok((Scenario::from_parts(parts), Origin::OneByOne))
}

// The schedule that makes the calls of the scripts one after the other.
fn schedule_for(alloc: Global, parts: &ScenarioParts) -> Result<Items<Event>, AllocError>
    requires library { parts.now.library ≡ catalog_of (setup_with parts.now) }
    requires kept { IsSetup (setup_with parts.now) }
    ensures { IfOk result (λ events. events ≡ schedule_for (setup_with parts.now)) }
{
    let mut calls = by_clients(alloc, parts.scripts.as_slice())?;
    calls.truncate(parts.config.limit as usize);
    let calls = calls.as_slice();
    let mut records = Vec::from_slice(alloc, parts.records.as_slice())?;
    let mut schedule = Items::new(alloc);
    for ticket in 0..calls.len() {
        push_call(
            &mut schedule,
            &parts.library,
            records.as_mut_slice(),
            ticket as u32,
            &calls[ticket],
        )?;
    }
    Ok(schedule)
}

// The calls of the scripts with their clients, client by client.
fn by_clients(alloc: Global, scripts: &[Vec<Call>]) -> Result<Vec<(u32, Call)>, AllocError>
    requires { length scripts.now ≤ MOST_CLIENTS }
    ensures { IfOk result (λ calls. calls.items ≡ by_clients 0 (lists_of scripts.now)) }
{
    let mut calls = Vec::new(alloc);
    for client in 0..scripts.len() {
        push_script(&mut calls, client as u32, scripts[client].as_slice())?;
    }
    Ok(calls)
}

// Appends the calls of a script with their client.
fn push_script(calls: &mut Vec<(u32, Call)>, client: u32, script: &[Call]) -> Result<(), AllocError>
    ensures { OnOk result (calls.new.items ≡ calls.old.items ++ map (λ (call : Call). (client, call)) script.now) }
{
    for call in script {
        calls.push((client, *call))?;
    }
    Ok(())
}

// Makes a client's call on the records, and appends its events.
fn push_call(
    schedule: &mut Items<Event>,
    library: &Library,
    records: &mut [u64],
    ticket: u32,
    made: &(u32, Call),
) -> Result<(), AllocError>
    requires few { length schedule.old ≤ MOST_EVENTS }
    requires fits { Fits library.now made.now.1 }
    requires records { library.now.records ≡ length records.old }
    ensures records { OnOk result (records.new ≡ (apply library.now.procs (entering library.now records.old made.now.1) records.old).records) }
    ensures number { length records.new ≡ length records.old }
    ensures schedule { OnOk result (let call = entering library.now records.old made.now.1 in
        schedule.new ≡ take MOST_EVENTS (schedule.old ++ alone made.now.0 (finds library.now made.now.1) ticket call (apply library.now.procs call records.old).reply)) }
{
    let (client, call) = made;
    let found = finds(library, call);
    let call = entering(library, records, call);
    let reply = make(library, records, &call);
    let claims = call.claims.len();
    push_entry(schedule, *client, found, claims)?;
    push_run(schedule, Ticket(ticket), claims, stores(&call, &reply))
}

// How often the source of a call is loaded.
fn finds(library: &Library, call: &Call) -> usize
    requires { Fits library.now call.now }
    ensures { result ≡ finds library.now call.now }
{
    match library.source(call) {
        Some(_) => 1,
        None => 0,
    }
}

// A call as it enters.
fn entering(library: &Library, records: &[u64], call: &Call) -> Call
    requires fits { Fits library.now call.now }
    requires records { library.now.records ≡ length records.now }
    ensures call { result ≡ entering library.now records.now call.now }
    ensures ready { IsReady library.now result }
{
    match library.source(call) {
        Some(source) => library.with_found(call, records[source.0 as usize]),
        None => *call,
    }
}

// How many stores a call makes.
fn stores(call: &Call, reply: &Reply) -> usize
    ensures { result ≡ stores call.now reply.now }
{
    match reply {
        Reply::Committed(_) => writes_in(&call.claims),
        Reply::Aborted(_) => 0,
    }
}

// The number of Write claims.
fn writes_in(claims: &Claims) -> usize
    ensures { result ≡ length (filter writes_record claims.now) }
{
    let mut count = 0;
    for i in 0..claims.len() {
        if is_write(claims.get(i)) {
            count += 1;
        }
    }
    count
}

// Whether there is a claim and it is Write.
fn is_write(claim: Option<Claim>) -> bool
    ensures { result ≡ option_map_or writes_record claim false }
{
    matches!(claim, Some(claim) if matches!(claim.mode, Mode::Write))
}

// Appends the events of a call until it has entered.
fn push_entry(
    schedule: &mut Items<Event>,
    client: u32,
    found: usize,
    claims: usize,
) -> Result<(), AllocError>
    requires { length schedule.old ≤ MOST_EVENTS }
    ensures { OnOk result (schedule.new ≡ take MOST_EVENTS (schedule.old ++ entry_of client found claims)) }
{
    push_times(schedule, &Event::Find(client), found)?;
    push_times(schedule, &Event::Enter(client), 1)?;
    push_times(schedule, &Event::Claim, claims)?;
    push_times(schedule, &Event::Admit, 1)
}

// Appends the events of a running call.
fn push_run(
    schedule: &mut Items<Event>,
    ticket: Ticket,
    claims: usize,
    stored: usize,
) -> Result<(), AllocError>
    requires { length schedule.old ≤ MOST_EVENTS }
    ensures { OnOk result (schedule.new ≡ take MOST_EVENTS (schedule.old ++ run_of ticket claims stored)) }
{
    push_times(schedule, &Event::Load(ticket), claims)?;
    push_times(schedule, &Event::Store(ticket), stored)?;
    push_times(schedule, &Event::Release(ticket), claims)?;
    push_times(schedule, &Event::Finish(ticket), 1)
}

// Appends an event so many times, as far as a schedule may have so many events.
fn push_times(schedule: &mut Items<Event>, event: &Event, times: usize) -> Result<(), AllocError>
    requires { length schedule.old ≤ MOST_EVENTS }
    ensures { OnOk result (schedule.new ≡ take MOST_EVENTS (schedule.old ++ replicate times event.now)) }
{
    let room = MOST_EVENTS - schedule.len();
    for _ in 0..times.min(room) {
        schedule.push(*event)?;
    }
    Ok(())
}
