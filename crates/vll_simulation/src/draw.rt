//! What a seed gives: numbers, one after the other, and a scenario made of them.
ghost use Rattle.std.specs.Prelude.{◌<◌, ◌≤◌};

use rand_core::Rng;
use rand_pcg::Pcg32;
use std::alloc::{AllocError, Global};
use vll_engine::{Knob, Pacing};

// The generator of a seed.
pub(crate) fn generator(seed: u64) -> Pcg32 {
    Pcg32::new(seed, 0)
}

// A number below `count`, which is at least 1.
pub(crate) fn below(draw: &mut Pcg32, count: u32) -> u32
    requires { 0 < count }
    ensures { result < count }
{
    draw.next_u32() % count
}

// A number from 0 to `most`.
pub(crate) fn at_most(draw: &mut Pcg32, most: usize) -> usize
    ensures { result ≤ most }
{
    match most.checked_add(1) {
        Some(count) => draw.next_u32() as usize % count,
        None => 0,
    }
}

// A number from `least` to `most`.
fn between(draw: &mut Pcg32, least: u32, most: u32) -> u32 {
    least.saturating_add(below(draw, most.saturating_sub(least).saturating_add(1).max(1)))
}

// Whether one of `count` came out.
pub(crate) fn one_of(draw: &mut Pcg32, count: u32) -> bool {
    below(draw, count.max(1)) == 0
}

// A pacing with which scans are put off where few calls wait.
pub(crate) fn pacing(draw: &mut Pcg32) -> Pacing {
    Pacing::usual()
        .with(Knob::PaidByACall, below(draw, 4))
        .with(Knob::PaidByARest, below(draw, 4))
        .with(Knob::LeastOwed, below(draw, 8))
        .with(Knob::LeastWaiting, below(draw, 4))
}

// The members of a scenario: up to 6 records, up to 5 clients with up to 12 calls each, and small settings, so that
// calls are often blocked, refused and out of place.
pub(crate) fn members(alloc: Global, draw: &mut Pcg32) -> Result<String, AllocError> {
    let records = between(draw, 1, 6);
    let bits = between(draw, 1, 64);
    let cap = between(draw, 1, 4);
    let limit = between(draw, 1, 40);
    let hash = if one_of(draw, 2) { "modulo" } else { "spread" };
    let mut text = format!(in alloc;
        "\"bits\":{bits},\"cap\":{cap},\"limit\":{limit},\"hash\":\"{hash}\",\"records\":["
    )?;
    push_records(&mut text, draw, records)?;
    text.push_str("],\"clients\":[")?;
    push_clients(&mut text, draw, records)?;
    text.push_str("]")?;
    Ok(text)
}

// A record that is full lets a transfer abort after it has set the other one.
fn push_records(text: &mut String, draw: &mut Pcg32, records: u32) -> Result<(), AllocError> {
    for record in 0..records {
        let value = if one_of(draw, 8) {
            u64::MAX
        } else {
            below(draw, 8).into()
        };
        let comma = if record == 0 { "" } else { "," };
        write!(text, "{comma}{value}")?;
    }
    Ok(())
}

fn push_clients(text: &mut String, draw: &mut Pcg32, records: u32) -> Result<(), AllocError> {
    for client in 0..between(draw, 1, 5) {
        text.push_str(if client == 0 { "[" } else { ",[" })?;
        for call in 0..below(draw, 13) {
            text.push_str(if call == 0 { "" } else { "," })?;
            push_call(text, draw, records.max(1))?;
        }
        text.push_str("]")?;
    }
    Ok(())
}

fn push_call(text: &mut String, draw: &mut Pcg32, records: u32) -> Result<(), AllocError>
    requires { 0 < records }
{
    let (one, other, number) = (below(draw, records), below(draw, records), below(draw, 4));
    match below(draw, 9) {
        0 | 1 => write!(
            text,
            "{{\"proc\":\"transfer\",\"args\":[{one},{other},{number}]}}"
        ),
        2 => write!(text, "{{\"proc\":\"bump\",\"args\":[{one}]}}"),
        3 => write!(text, "{{\"proc\":\"sum2\",\"args\":[{one},{other}]}}"),
        4 => write!(text, "{{\"proc\":\"read\",\"args\":[{one}]}}"),
        5 => write!(text, "{{\"proc\":\"take\",\"args\":[{one},{number}]}}"),
        6 => write!(text, "{{\"proc\":\"seven\",\"args\":[]}}"),
        7 => write!(text, "{{\"proc\":\"grow\",\"args\":[{one},{number}]}}"),
        _ => write!(text, "{{\"proc\":\"via\",\"args\":[{one}]}}"),
    }
}
