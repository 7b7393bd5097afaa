//! The line of an event in a replay's text: what the machine answered, or why it refused the event.
ghost use Rattle.std.specs.Prelude.{◌≡◌, ◌++◌, ◌∷◌, OnOk, codes, string_bytes};
ghost use Rattle.std.specs.Fmt.{decimal};
ghost use Rattle.vll_replay.specs.ReplayText.{event_line, event_text, grant_text, refusal_text, seen_text};

use std::alloc::AllocError;
use vll_core::{Refusal, Seen, Ticket};

// Each of these appends one part of the text of a replay. After an error a prefix of that part may have been appended.

fn push_claimed(text: &mut String, old: u64, granted: bool) -> Result<(), AllocError>
    ensures { OnOk result (string_bytes text.new ≡ string_bytes text.old ++ (codes "claimed " ++ decimal old ++ grant_text granted)) }
{
    write!(text, "claimed {old}")?;
    text.push_str(if granted { " granted" } else { " denied" })
}

fn push_ticket(text: &mut String, word: &str, ticket: Ticket) -> Result<(), AllocError>
    ensures { OnOk result (string_bytes text.new ≡ string_bytes text.old ++ (word.now ++ (32 ∷ decimal ticket))) }
{
    let number = ticket.0;
    write!(text, "{word} {number}")
}

fn push_seen(text: &mut String, seen: &Seen) -> Result<(), AllocError>
    ensures { OnOk result (string_bytes text.new ≡ string_bytes text.old ++ seen_text seen.now) }
{
    match seen {
        Seen::Found(value) => write!(text, "found {value}"),
        Seen::Opened => text.push_str("opened"),
        Seen::Claimed { old, granted } => push_claimed(text, *old, *granted),
        Seen::Free(ticket) => push_ticket(text, "free", *ticket),
        Seen::Blocked(ticket) => push_ticket(text, "blocked", *ticket),
        Seen::Run(ticket) => push_ticket(text, "run", *ticket),
        Seen::Loaded(value) => write!(text, "loaded {value}"),
        Seen::Stored => text.push_str("stored"),
        Seen::Released(old) => write!(text, "released {old}"),
        Seen::Replied(reply) => write!(text, "replied {reply}"),
    }
}

/// Returns the words of a refusal.
pub fn refusal_words(why: Refusal) -> &'static str
    ensures { result.now ≡ refusal_text why }
{
    match why {
        Refusal::TurnOpen => "turn open",
        Refusal::NoTurn => "no turn",
        Refusal::NoCall => "no call",
        Refusal::Spent => "spent",
        Refusal::Busy => "busy",
        Refusal::NotRunning => "not running",
        Refusal::OutOfStep => "out of step",
        Refusal::Idle => "idle",
    }
}

/// Appends the answer to an event, or why the event was refused. After `AllocError` a prefix may have been appended.
pub fn push_answer(text: &mut String, answer: &Result<Seen, Refusal>) -> Result<(), AllocError>
    ensures { OnOk result (string_bytes text.new ≡ string_bytes text.old ++ event_text answer.now) }
{
    match answer {
        Ok(seen) => push_seen(text, seen),
        Err(why) => {
            text.push_str("refused ")?;
            text.push_str(refusal_words(*why))
        }
    }
}

/// Appends the line of an event of a replay, with its number: its answer, or why it was refused. After `AllocError` a
/// prefix of the line may have been appended.
pub fn push_event_line(
    text: &mut String,
    index: usize,
    answer: &Result<Seen, Refusal>,
) -> Result<(), AllocError>
    ensures { OnOk result (string_bytes text.new ≡ string_bytes text.old ++ event_line (index, answer.now)) }
{
    write!(text, "{index} ")?;
    push_answer(text, answer)?;
    text.push_str("\n")
}
