//! Which limit of a scenario a part of it exceeds, in words.
use crate::asked::items_of;
use serde_json::Value;
use std::alloc::{AllocError, Global};
use vll_core::{MOST_CALLS, MOST_RECORDS, MOST_WAITING};
use vll_fault_path::{Found, Step};
use vll_sca::MOST_BITS;
use vll_scenario::{MOST_CLIENTS, MOST_EVENTS, MOST_PROCS};

// The size of a part, and the limits on it.
pub(crate) fn size_why(alloc: Global, piece: Option<Found<'_>>) -> Result<String, AllocError> {
    let Some(Found { step, value, .. }) = piece else {
        return format!(in alloc; "it is not within its limits");
    };
    let count = items_of(Some(value)).len() as u64;
    let number = value.as_u64().unwrap_or(0);
    let (what, size, least, most) = match step {
        Step::Procs => (" for the number of procedures", count, 0, MOST_PROCS as u64),
        Step::Clients if count > MOST_CLIENTS as u64 => {
            (" for the number of clients", count, 0, MOST_CLIENTS as u64)
        }
        Step::Clients => (
            " for the number of all calls",
            calls_in(value),
            0,
            MOST_CALLS as u64,
        ),
        Step::Schedule => (" for the number of events", count, 0, MOST_EVENTS as u64),
        Step::Records => (" for the number of records", count, 1, MOST_RECORDS as u64),
        Step::Cap => ("", number, 1, MOST_WAITING as u64),
        Step::Bits => ("", number, 1, MOST_BITS as u64),
        _ => ("", number, 1, MOST_CALLS as u64),
    };
    format!(in alloc; "{size} is not in the range {least} to {most}{what}")
}

// The number of calls of all clients together.
fn calls_in(scripts: &Value) -> u64 {
    let mut calls = 0u64;
    for script in items_of(Some(scripts)) {
        calls = calls.saturating_add(items_of(Some(script)).len() as u64);
    }
    calls
}
