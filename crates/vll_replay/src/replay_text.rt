//! The outcome in a replay's text, appended part by part. After an error a prefix of a part may have been appended.
ghost use Rattle.std.specs.Prelude.{◌≡◌, ◌+◌, ◌*◌, ◌++◌, ℕ, OnOk, length, map, string_bytes};
ghost use Rattle.std.specs.List.{enumerate_from, flat_map};
ghost use Rattle.vll_sca.specs.Placing.{placing};
ghost use Rattle.vll_core.specs.State.{counter, value};
ghost use Rattle.vll_replay.specs.ReplayText.{call_words, state_text};
ghost use Rattle.vll_replay.specs.Private.ReplayText.{standing_text};
ghost use Rattle.vll_replay.specs.Headline.Text.{call_line, record_line};

use crate::record_text::push_record_line;
use std::alloc::AllocError;
use vll_core::{Core, Line, Ticket};
use vll_sca::{Placing, Status};

/// Appends the outcome of the machine's current state: a line for each entered call, with its reply, or whether it runs
/// or waits, and one for each record. After `AllocError` a prefix of it may have been appended.
pub fn push_state(text: &mut String, core: &Core<Placing>) -> Result<(), AllocError>
    ensures { OnOk result (string_bytes text.new ≡ string_bytes text.old ++ state_text core.now.base core.now.state) }
{
    push_calls(text, core)?;
    push_records(text, core)
}

// Appends a line for each entered call, with its reply, or whether it runs or waits.
fn push_calls(text: &mut String, core: &Core<Placing>) -> Result<(), AllocError>
    ensures { OnOk result (string_bytes text.new ≡ string_bytes text.old
        ++ flat_map call_line (enumerate_from 0 (map (call_words core.now.base core.now.state) (enumerate_from 0 core.now.state.entries)))) }
{
    let journal = core.journal();
    for (ticket, line) in journal.iter().enumerate() {
        let status = core.state(Ticket(ticket as u32));
        push_call(text, ticket, line, status)?;
    }
    Ok(())
}

// Appends the line of a call.
fn push_call(
    text: &mut String,
    ticket: usize,
    line: &Line,
    status: Option<Status>,
) -> Result<(), AllocError>
    ensures { OnOk result (string_bytes text.new
        ≡ string_bytes text.old ++ call_line (ticket, (line.now.client, standing_text line.now.reply status))) }
{
    let client = line.client;
    write!(text, "call {ticket} client {client} ")?;
    match (&line.reply, status) {
        (Some(reply), _) => write!(text, "{reply}")?,
        (None, Some(Status::Waiting)) => text.push_str("waiting")?,
        (None, _) => text.push_str("running")?,
    }
    text.push_str("\n")
}

// Appends a line for each record, with its value and its pair word. Word 0 is the turn word.
fn push_records(text: &mut String, core: &Core<Placing>) -> Result<(), AllocError>
    ensures { OnOk result (string_bytes text.new ≡ string_bytes text.old ++ flat_map record_line (enumerate_from 0
        (map (λ (p : ℕ × ℕ). (value core.now.base core.now.state p.0, counter core.now.state p.0)) (enumerate_from 0 core.now.base.records)))) }
{
    let words = core.words();
    for record in 0..words.len() / 2 {
        push_record_line(text, record, words[2 * record + 1], words[2 * record + 2])?;
    }
    Ok(())
}
