//! What a scan of the queue costs that finds no call.
use crate::fault::Fault;
use std::alloc::Global;
use std::time::CpuClock;
use vll_core::{Config, MOST_CALLS, MOST_WAITING, Queue, Ticket};
use vll_proc::{Call, MOST_ARGS, Reason, Reply};
use vll_record::{Claim, Claims, MOST_CLAIMS, Mode, RecordId};
use vll_sca::{MOST_BITS, Placing, Status};

// How many calls wait behind the same number that run. This leaves tickets for the calls that come and go.
const WAITING: [u32; 4] = [1_000, 4_000, 16_000, 32_000];

// How many calls are gone between the front and the ten that wait.
const GONE: [u32; 3] = [0, 1_000, 60_000];

// The number of bits that the records share.
const BITS: [u32; 3] = [64, 4_096, MOST_BITS];

// How often each is measured. The fastest counts, since other work disturbs the others.
const REPEATS: u32 = 5;

// About how many entries are walked over in a measurement.
const ENTRIES: u32 = 4_000_000;

// The most scans of a measurement, since each takes a ticket.
const SCANS: u32 = 1_000;

// The record of the calls that come and go. No other call claims it.
const OTHER: u32 = 65_535;

/// Prints the cost of a scan of the queue that finds no call. Before each one a call comes and goes, since the queue
/// would otherwise answer from the previous scan; this is included in the time.
pub(crate) fn measure_scans(rt: &(impl CpuClock + Print + AllocGlobal)) -> Result<(), Fault> {
    for waiting in WAITING {
        let nanos = time_in_crowd(rt, waiting)?;
        println!(rt; "{waiting} waiting calls behind {waiting} running ones: {nanos} ns")?;
    }
    for gone in GONE {
        let nanos = time_behind_front(rt, gone, 4_096)?;
        println!(rt; "10 waiting calls behind the front, {gone} gone between: {nanos} ns")?;
    }
    for bits in BITS {
        let nanos = time_behind_front(rt, 0, bits)?;
        println!(rt; "10 waiting calls behind the front, {bits} bits: {nanos} ns")?;
    }
    Ok(())
}

// The time of a scan while `waiting` calls run, each on a record of its own, and as many wait for the last of these
// records.
fn time_in_crowd(rt: &(impl CpuClock + AllocGlobal), waiting: u32) -> Result<u128, Fault> {
    let mut queue = queue(rt.alloc(), 65_536)?;
    crowd(&mut queue, waiting)?;
    time_of_scan(rt, &mut queue, waiting.saturating_mul(2))
}

// The time of a scan while the front runs, `gone` calls after it are gone, and then ten wait for the front's record.
fn time_behind_front(
    rt: &(impl CpuClock + AllocGlobal),
    gone: u32,
    bits: u32,
) -> Result<u128, Fault> {
    let mut queue = queue(rt.alloc(), bits)?;
    wait_behind_front(&mut queue, gone)?;
    time_of_scan(rt, &mut queue, 11)
}

// Returns the nanoseconds of processor time of a scan that walks over `entries` entries and finds no call, and of the
// call that comes and goes before it.
fn time_of_scan(
    rt: &impl CpuClock,
    queue: &mut Queue<Placing>,
    entries: u32,
) -> Result<u128, Fault> {
    let scans = SCANS.min(ENTRIES / entries.max(1));
    let mut fastest = u128::MAX;
    for _ in 0..REPEATS {
        let start = rt.thread_cpu_time()?;
        for _ in 0..scans {
            let ticket = enter(queue, OTHER, true)?;
            finish(queue, ticket)?;
            if queue.scan().is_some() {
                return Err(Fault::Found);
            }
        }
        let end = rt.thread_cpu_time()?;
        fastest = fastest.min(end.saturating_sub(start).as_nanos());
    }
    Ok(fastest / u128::from(scans.max(1)))
}

// Enters the calls of a crowd.
fn crowd(queue: &mut Queue<Placing>, waiting: u32) -> Result<(), Fault> {
    for record in 0..waiting {
        enter(queue, record, true)?;
    }
    for _ in 0..waiting {
        enter(queue, waiting.saturating_sub(1), false)?;
    }
    Ok(())
}

// Enters the front, the calls that are gone, and the ten that wait.
fn wait_behind_front(queue: &mut Queue<Placing>, gone: u32) -> Result<(), Fault> {
    enter(queue, 0, true)?;
    for _ in 0..gone {
        let ticket = enter(queue, 1, true)?;
        finish(queue, ticket)?;
    }
    for _ in 0..10 {
        enter(queue, 0, false)?;
    }
    Ok(())
}

fn queue(alloc: Global, bits: u32) -> Result<Queue<Placing>, Fault> {
    let config = Config {
        cap: MOST_WAITING,
        limit: MOST_CALLS,
        bits,
    };
    Ok(Queue::open(alloc, config, Placing::Modulo)?)
}

// Enters a call that writes one record.
fn enter(queue: &mut Queue<Placing>, record: u32, free: bool) -> Result<Ticket, Fault> {
    if queue.is_spent() || queue.is_busy() {
        return Err(Fault::Refused);
    }
    let mut claims = Claims::new();
    claims.add(Claim {
        id: RecordId(record),
        mode: Mode::Write,
    });
    let call = Call {
        number: 0,
        arg_count: 0,
        args: [0; MOST_ARGS],
        found: None,
        claims,
        cells: [0; MOST_CLAIMS],
    };
    Ok(queue.admit(0, &call, free))
}

// Removes a running call.
fn finish(queue: &mut Queue<Placing>, ticket: Ticket) -> Result<(), Fault> {
    match queue.status(ticket) {
        Some(Status::Running) => {
            queue.remove(ticket, &Reply::Aborted(Reason::Code(0)));
            Ok(())
        }
        _ => Err(Fault::Refused),
    }
}
