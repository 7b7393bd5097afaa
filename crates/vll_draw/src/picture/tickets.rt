//! The lane of a call: its turn, when it waits and when it runs, and each of its steps.
use crate::picture::band::Band;
use crate::picture::column::Column;
use crate::picture::drawing::{Drawing, Phase, Standing, phase_after};
use crate::picture::markup::{
    Area, STEP, close_mark, left_of, open_mark, push_area, push_escaped, push_words,
};
use std::alloc::{AllocError, Global};
use vll_core::{Event, Seen};
use vll_proc::Reply;
use vll_record::{Claim, Mode};

// The height of the lane, and of the bar in it.
const LANE: usize = 38;

const BAR: usize = 20;

/// Appends the lane of a call, and returns where the next lane begins.
pub(crate) fn push_ticket(
    body: &mut String,
    drawing: &Drawing<'_>,
    standing: &Standing,
    band: Band<'_>,
    ticket: usize,
    top: usize,
) -> Result<usize, AllocError> {
    push_name(body, drawing, ticket, top)?;
    push_bars(body, standing, band, ticket, top)?;
    for (index, column) in band.columns.iter().enumerate() {
        if column.ticket == Some(ticket) {
            push_step(body, drawing, band, index, column, top)?;
        }
    }
    Ok(top.saturating_add(LANE))
}

// Appends the ticket, the client and the procedure.
fn push_name(
    body: &mut String,
    drawing: &Drawing<'_>,
    ticket: usize,
    top: usize,
) -> Result<(), AllocError> {
    let base = top.saturating_add(14);
    write!(
        body,
        "<text class=\"name\" x=\"4\" y=\"{base}\">ticket {ticket}</text>"
    )?;
    let Some(line) = drawing.journal.get(ticket) else {
        return Ok(());
    };
    let client = line.client;
    let base = top.saturating_add(28);
    write!(
        body,
        "<text class=\"soft\" x=\"4\" y=\"{base}\">client {client} "
    )?;
    if let Some(procedure) = drawing.library.proc(line.call.number) {
        push_escaped(body, procedure.name.as_str(), 12)?;
    }
    body.push_str("</text>\n")
}

// Appends a bar for each period in which the call had its turn, waited or ran.
fn push_bars(
    body: &mut String,
    standing: &Standing,
    band: Band<'_>,
    ticket: usize,
    top: usize,
) -> Result<(), AllocError> {
    let mut phase = standing.phase(ticket);
    let mut since = 0;
    for (index, column) in band.columns.iter().enumerate() {
        if column.ticket == Some(ticket) {
            if let Some(after) = phase_after(column) {
                // The last step still belongs to the call.
                let end = if after == Phase::Gone {
                    index.saturating_add(1)
                } else {
                    index
                };
                push_bar(body, phase, since, end, top)?;
                phase = after;
                since = end;
            }
        }
    }
    push_bar(body, phase, since, band.len(), top)
}

fn push_bar(
    body: &mut String,
    phase: Phase,
    since: usize,
    end: usize,
    top: usize,
) -> Result<(), AllocError> {
    let class = match phase {
        Phase::Turn => "turn",
        Phase::Waiting => "wait",
        Phase::Running => "run",
        Phase::Outside | Phase::Gone => return Ok(()),
    };
    let area = Area {
        left: left_of(since),
        top: top.saturating_add(2),
        width: end.saturating_sub(since).saturating_mul(STEP),
        height: BAR,
    };
    push_area(body, class, area)
}

// Appends the mark of a step.
fn push_step(
    body: &mut String,
    drawing: &Drawing<'_>,
    band: Band<'_>,
    index: usize,
    column: &Column,
    top: usize,
) -> Result<(), AllocError> {
    let at = band.start.saturating_add(index);
    let left = left_of(index);
    let cell = Area {
        left,
        top,
        width: STEP,
        height: LANE,
    };
    open_mark(body, drawing.number(at), column)?;
    push_claim_shape(body, column, left, top)?;
    push_sign(
        body,
        column,
        left.saturating_add(STEP / 2),
        top.saturating_add(16),
    )?;
    if let Ok(Seen::Replied(reply)) = &column.answer {
        push_reply(drawing.alloc, body, index, reply, top)?;
    }
    push_area(body, "cell", cell)?;
    close_mark(body)
}

// Appends the frame around the sign of a claim.
fn push_claim_shape(
    body: &mut String,
    column: &Column,
    left: usize,
    top: usize,
) -> Result<(), AllocError> {
    let Ok(Seen::Claimed { granted, .. }) = &column.answer else {
        return Ok(());
    };
    let area = Area {
        left: left.saturating_add(2),
        top: top.saturating_add(4),
        width: STEP - 4,
        height: BAR - 4,
    };
    push_area(body, if *granted { "granted" } else { "denied" }, area)
}

// Appends the sign of a step: its record if it concerns one, else a word.
fn push_sign(
    body: &mut String,
    column: &Column,
    middle: usize,
    base: usize,
) -> Result<(), AllocError> {
    write!(body, "<text class=\"mark\" x=\"{middle}\" y=\"{base}\">")?;
    match column.claim {
        Some(claim) => push_claim(body, column, claim)?,
        None => body.push_str(word_of(column))?,
    }
    body.push_str("</text>")
}

// Appends what is done with a claim, and its record.
fn push_claim(body: &mut String, column: &Column, claim: Claim) -> Result<(), AllocError> {
    let sign = match column.event {
        Event::Claim if claim.mode == Mode::Write => "W",
        Event::Claim => "R",
        Event::Load(_) => "L",
        Event::Store(_) => "S",
        _ => "−",
    };
    let record = claim.id.0;
    write!(body, "{sign}{record}")
}

// The word for a step that concerns no record.
fn word_of(column: &Column) -> &'static str {
    match (column.event, &column.answer) {
        (Event::Enter(_), _) => "turn",
        (_, Ok(Seen::Free(_))) => "free",
        (_, Ok(Seen::Blocked(_))) => "wait",
        (Event::Front, _) => "front",
        (Event::Scan, _) => "scan",
        _ => "end",
    }
}

// Appends a call's reply, below its last step, on the side that has room.
fn push_reply(
    alloc: Global,
    body: &mut String,
    index: usize,
    reply: &Reply,
    top: usize,
) -> Result<(), AllocError> {
    let base = top.saturating_add(33);
    let is_late = index > 24;
    let left = left_of(if is_late {
        index.saturating_add(1)
    } else {
        index
    });
    let words = format!(in alloc; "{reply}")?;
    let class = match (matches!(reply, Reply::Committed(_)), is_late) {
        (true, false) => "good",
        (true, true) => "good end",
        (false, false) => "bad",
        (false, true) => "bad end",
    };
    push_words(body, class, left, base, words.as_str())
}
