//! The text of a scenario with another schedule.
use serde_json::Value;
use std::alloc::{AllocError, Global};
use vll_core::{Config, Event, Ticket};

/// Returns the text of a scenario with the members of its tree, but for the engine's settings and the schedule, which
/// are these.
pub(crate) fn text_of(
    alloc: Global,
    tree: &Value,
    config: Config,
    schedule: &[Event],
) -> Result<String, AllocError> {
    let mut text = String::new(alloc);
    text.push_str("{")?;
    for name in ["version", "records", "procs", "clients", "hash"] {
        if let Some(member) = tree.get(name) {
            let member = member.to_string(alloc)?;
            write!(text, "\"{name}\":{member},\n")?;
        }
    }
    let Config { cap, limit, bits } = config;
    write!(
        text,
        "\"cap\":{cap},\"bits\":{bits},\"limit\":{limit},\n\"schedule\":["
    )?;
    push_schedule(&mut text, schedule)?;
    text.push_str("]}\n")?;
    Ok(text)
}

// Appends the events, with the first of each call that enters on a line of its own.
fn push_schedule(text: &mut String, schedule: &[Event]) -> Result<(), AllocError> {
    for (index, event) in schedule.iter().enumerate() {
        if index > 0 {
            text.push_str(",")?;
        }
        push_event(text, *event)?;
    }
    Ok(())
}

fn push_event(text: &mut String, event: Event) -> Result<(), AllocError> {
    match event {
        Event::Find(client) => write!(text, "\n[\"find\",{client}]"),
        Event::Enter(client) => write!(text, "\n[\"enter\",{client}]"),
        Event::Claim => text.push_str("[\"claim\"]"),
        Event::Admit => text.push_str("[\"admit\"]"),
        Event::Front => text.push_str("\n[\"front\"]"),
        Event::Scan => text.push_str("\n[\"scan\"]"),
        Event::Load(ticket) => push_step(text, "load", ticket),
        Event::Store(ticket) => push_step(text, "store", ticket),
        Event::Release(ticket) => push_step(text, "release", ticket),
        Event::Finish(ticket) => push_step(text, "finish", ticket),
    }
}

fn push_step(text: &mut String, step: &str, ticket: Ticket) -> Result<(), AllocError> {
    let ticket = ticket.0;
    write!(text, "[\"{step}\",{ticket}]")
}
