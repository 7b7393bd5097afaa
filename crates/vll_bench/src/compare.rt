//! The calls of one scenario, made in several ways in turn, with the engine and without it.
use crate::fault::Fault;
use crate::timed::{Count, Timed};
use crate::ways::Way;
use std::alloc::{AllocError, Global};
use std::io::Read;
use std::sync::Wait;
use std::thread::Threads;
use std::time::Clock;
use vll_server::{Plain, ScenarioParts, read_scenario};

// The ways, and the numbers of threads that each is measured with.
const TEAMS: [(Way, &[u32]); 6] = [
    (Way::Serial, &[1]),
    (Way::Mutex, &[1, 2, 4]),
    (Way::Locks, &[1, 2, 4]),
    (Way::Table, &[1, 2, 4]),
    (Way::Call, &[1, 2, 4]),
    (Way::Engine, &[1, 2, 4]),
];

// How often the calls are made in each way.
const ROUNDS: u32 = 7;

// A way with its number of threads, and the times of its rounds.
#[derive(Drop)]
struct Row {
    way: Way,
    threads: u32,
    rounds: Vec<Timed>,
}

/// Makes the calls of the scenario on standard input in each way in turn, repeatedly, and prints a line for each way:
/// its threads, the nanoseconds per call of the median round, how many calls a round makes, and the fewest and the most
/// that committed in a round. Reading the scenario, opening the engine and closing it are not timed. It fails if the
/// numbers of calls made differ, or, if the calls have one order, the numbers that committed.
pub(crate) fn compare_ways<R: Threads + Wait + Clock + Input + Print + AllocGlobal + Sync>(
    rt: &R,
) -> Result<(), Fault> {
    let mut bytes = Vec::new(rt.alloc());
    rt.reader().read_to_end(&mut bytes)?;
    let rows = timed_rows(rt, bytes.as_slice())?;
    println!(rt; "way,threads,nanoseconds,calls,fewest,most")?;
    for row in rows {
        print_row(rt, row)?;
    }
    Ok(())
}

// The times of each way.
fn timed_rows<R: Threads + Wait + Clock + AllocGlobal + Sync>(
    rt: &R,
    bytes: &[u8],
) -> Result<Vec<Row>, Fault> {
    let ordered = has_one_order(rt.alloc(), bytes)?;
    let mut rows = rows(rt.alloc())?;
    for _ in 0..ROUNDS {
        time_each(rt, bytes, rows.as_mut_slice())?;
    }
    if agree(rows.as_slice(), ordered) {
        Ok(rows)
    } else {
        Err(Fault::Counts)
    }
}

// Whether the calls can be made in only one order, since one client has them all.
fn has_one_order(alloc: Global, bytes: &[u8]) -> Result<bool, Fault> {
    let ScenarioParts { scripts, .. } = read_scenario(alloc, &mut Plain::new(bytes))?.into_parts();
    let busy = scripts.iter().filter(|script| !script.is_empty()).count();
    Ok(busy <= 1)
}

// Makes a row for each number of threads of each way.
fn rows(alloc: Global) -> Result<Vec<Row>, AllocError> {
    let mut rows = Vec::new(alloc);
    for (way, counts) in TEAMS {
        for threads in counts {
            rows.push(Row {
                way,
                threads: *threads,
                rounds: Vec::new(alloc),
            })?;
        }
    }
    Ok(rows)
}

// Makes the calls once in each way.
fn time_each<R: Threads + Wait + Clock + AllocGlobal + Sync>(
    rt: &R,
    bytes: &[u8],
    rows: &mut [Row],
) -> Result<(), Fault> {
    for row in rows {
        let timed = row.way.time(rt, bytes, row.threads)?;
        row.rounds.push(timed)?;
    }
    Ok(())
}

// Whether each round of each row made the same number of calls, and committed the same number if they have one order.
fn agree(rows: &[Row], ordered: bool) -> bool {
    let Some(expected) = first_count(rows) else {
        return true;
    };
    rows.iter().all(|row| {
        row.rounds.iter().all(|timed| {
            timed.count.calls == expected.calls
                && (!ordered || timed.count.committed == expected.committed)
        })
    })
}

// The count of the first round of the first row.
fn first_count(rows: &[Row]) -> Option<Count> {
    Some(rows.first()?.rounds.first()?.count)
}

// Prints the line of a row.
fn print_row(rt: &impl Print, row: Row) -> Result<(), Fault> {
    let Row {
        way,
        threads,
        mut rounds,
    } = row;
    rounds.sort_unstable_by_key(|timed| timed.nanos_a_call());
    let rounds = rounds.as_slice();
    let Some(median) = rounds.get(rounds.len() / 2) else {
        return Ok(());
    };
    let fewest = rounds.iter().map(|timed| timed.count.committed).min();
    let most = rounds.iter().map(|timed| timed.count.committed).max();
    println!(rt;
        "{},{threads},{},{},{},{}",
        way.name(),
        median.nanos_a_call(),
        median.count.calls,
        fewest.unwrap_or(0),
        most.unwrap_or(0)
    )?;
    Ok(())
}
