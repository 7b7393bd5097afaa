//! Which calls and records have a lane in a band.
use crate::picture::column::Column;
use crate::picture::drawing::{Phase, Standing, id_of, number_of};
use std::alloc::{AllocError, Global};

/// The most lanes of one kind in a band. A band has fewer columns, so those of its events always have one.
pub(crate) const MOST_LANES: usize = 40;

/// The numbers of the calls or records that have a lane, in rising order, and how many more would have one.
#[derive(Drop)]
pub(crate) struct Lanes {
    pub(crate) shown: Vec<usize>,
    pub(crate) left_out: usize,
}

// The part that a call or a record has in a band.
#[derive(Clone, Copy, PartialEq, Eq)]
enum Part {
    None,
    // The call runs or waits, or the record has open claims.
    Open,
    // An event concerns it.
    Event,
}

/// Returns the tickets that have a lane: those of the events, and, while lanes are left, those of calls that run or
/// wait.
pub(crate) fn tickets(
    alloc: Global,
    standing: &Standing,
    columns: &[Column],
) -> Result<Lanes, AllocError> {
    let mut parts = Vec::new(alloc);
    for phase in &standing.phases {
        parts.push(match *phase {
            Phase::Outside | Phase::Gone => Part::None,
            Phase::Turn | Phase::Waiting | Phase::Running => Part::Open,
        })?;
    }
    for column in columns {
        if let Some(ticket) = column.ticket {
            set_event(&mut parts, ticket);
        }
    }
    choose(alloc, parts.as_slice())
}

/// Returns the records that have a lane: those of the events, and, while lanes are left, those with open claims.
pub(crate) fn records(
    alloc: Global,
    standing: &Standing,
    columns: &[Column],
) -> Result<Lanes, AllocError> {
    let mut parts = Vec::new(alloc);
    for record in 0..standing.words.len() / 2 {
        let is_open = standing.record(id_of(record)).pair != 0;
        parts.push(if is_open { Part::Open } else { Part::None })?;
    }
    for column in columns {
        if let Some(claim) = column.claim {
            set_event(&mut parts, number_of(claim.id));
        }
    }
    choose(alloc, parts.as_slice())
}

fn set_event(parts: &mut Vec<Part>, number: usize) {
    if let Some(part) = parts.get_mut(number) {
        *part = Part::Event;
    }
}

// Those with an event, and the open ones while lanes are left.
fn choose(alloc: Global, parts: &[Part]) -> Result<Lanes, AllocError> {
    let mut room = room_beside_events(parts);
    let mut shown = Vec::new(alloc);
    let mut left_out: usize = 0;
    for (number, part) in parts.iter().enumerate() {
        match *part {
            Part::None => {}
            Part::Event => shown.push(number)?,
            Part::Open if room > 0 => {
                room -= 1;
                shown.push(number)?;
            }
            Part::Open => left_out = left_out.saturating_add(1),
        }
    }
    Ok(Lanes { shown, left_out })
}

// How many lanes are left for those without an event.
fn room_beside_events(parts: &[Part]) -> usize {
    let mut room = MOST_LANES;
    for part in parts {
        if *part == Part::Event {
            room = room.saturating_sub(1);
        }
    }
    room
}
