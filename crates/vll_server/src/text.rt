//! The text of what a run leaves: a line for each call, and then one for each record.
ghost use Rattle.std.specs.Prelude.{◌≡◌, ◌++◌, ◌∷◌, [], IfOk, OnOk, map, string_bytes};
ghost use Rattle.std.specs.List.{enumerate_from, flat_map, zip};
ghost use Rattle.vll_replay.specs.Headline.Text.{call_line, record_line};
ghost use Rattle.vll_server.specs.Headline.Text.{closed_text, line_words};

pub(crate) mod outcome;

use std::alloc::{AllocError, Global};
use vll_core::Line;
use vll_engine::Closed;
use vll_replay::push_record_line;

// Each of these appends one part of the outcome. After an error, a prefix of that part may have been appended.

fn push_call_line(text: &mut String, ticket: usize, line: &Line) -> Result<(), AllocError>
    ensures { OnOk result (string_bytes text.new
        ≡ string_bytes text.old ++ call_line (ticket, line_words line.now)) }
{
    let client = line.client;
    write!(text, "call {ticket} client {client} ")?;
    if let Some(reply) = &line.reply {
        write!(text, "{reply}")?;
    }
    text.push_str("\n")
}

fn push_call_lines(text: &mut String, journal: &[Line]) -> Result<(), AllocError>
    ensures { OnOk result (string_bytes text.new ≡ string_bytes text.old
        ++ flat_map call_line (enumerate_from 0 (map line_words journal.now))) }
{
    for (ticket, line) in journal.iter().enumerate() {
        push_call_line(text, ticket, line)?;
    }
    Ok(())
}

fn push_record_lines(text: &mut String, records: &[u64], pairs: &[u64]) -> Result<(), AllocError>
    ensures { OnOk result (string_bytes text.new ≡ string_bytes text.old
        ++ flat_map record_line (enumerate_from 0 (zip records.now pairs.now))) }
{
    for (index, (value, pair)) in records.iter().zip(pairs).enumerate() {
        push_record_line(text, index, *value, *pair)?;
    }
    Ok(())
}

/// Returns the text of what a run leaves: a line for each call, and then one for each record, with its value and its
/// pair word. It fails only if memory runs out.
pub fn closed_text_of(alloc: Global, closed: &Closed) -> Result<String, AllocError>
    ensures { IfOk result (λ text. string_bytes text ≡ closed_text closed.now) }
{
    let mut text = String::new(alloc);
    push_call_lines(&mut text, &closed.journal)?;
    push_record_lines(&mut text, &closed.records, &closed.pairs)?;
    Ok(text)
}
