//! Transcripts: what happens to a machine, with the answers that it must give, as
//! `enter 0: opened; claim: claimed 0 granted`. Events of one line are separated by semicolons. `playing.rt` tests that
//! `play` tells what does not fit.
use std::alloc::{AllocError, Global};

// An event: its name, and its numbers, 0 where the text has none.
#[derive(Clone, Copy)]
pub(crate) struct Event<'a> {
    pub(crate) name: &'a str,
    pub(crate) numbers: [u32; 3],
}

// What a transcript is about.
pub(crate) trait Subject {
    // Makes an event, and returns its answer in words, or nothing if there is no such event.
    fn answer(&mut self, alloc: Global, event: &Event) -> Result<Option<String>, AllocError>;

    // Its content in words, which an event that is refused leaves as it was.
    fn content(&self, alloc: Global) -> Result<String, AllocError>;
}

// What does not fit at an event of a transcript.
#[derive(Clone, Copy, PartialEq, Eq, Debug)]
pub(crate) enum Misfit {
    // It is none that the subject has, or its numbers are none.
    NoEvent,
    // The transcript has no answer for it.
    NoAnswer,
    // It was answered in other words.
    OtherAnswer,
    // It was refused, and the content is another than before.
    Changed,
}

// Why a play has failed.
#[derive(Debug, Drop)]
pub(crate) enum PlayFault {
    NoMemory,
    // An event, counted from 0, and what was found there in place of what the transcript has.
    At {
        step: usize,
        misfit: Misfit,
        found: String,
    },
}

impl From<AllocError> for PlayFault {
    fn from(_why: AllocError) -> PlayFault {
        PlayFault::NoMemory
    }
}

// Makes all events of a transcript. Fails at the first that is not answered by its words. An event that is to be refused,
// or to be answered by `none`, has to change nothing.
pub(crate) fn play<S: Subject>(
    alloc: Global,
    subject: &mut S,
    transcript: &str,
) -> Result<(), PlayFault> {
    let mut step = 0;
    for line in transcript.lines() {
        step = play_line(alloc, subject, line.trim(), step)?;
    }
    Ok(())
}

// Makes the events of a line, of which the first is event `first`. Returns the number of the event that comes next.
fn play_line<S: Subject>(
    alloc: Global,
    subject: &mut S,
    line: &str,
    first: usize,
) -> Result<usize, PlayFault> {
    let mut rest = line;
    let mut step = first;
    for _ in 0..line.len() {
        let (piece, others) = rest.split_once("; ").unwrap_or((rest, ""));
        if let Some((misfit, found)) = misfit_of(alloc, subject, piece)? {
            return Err(PlayFault::At {
                step,
                misfit,
                found,
            });
        }
        step = step.saturating_add(1);
        if others.is_empty() {
            break;
        }
        rest = others;
    }
    Ok(step)
}

// Makes an event with its answer. Returns what does not fit, if something does not, with what was found.
fn misfit_of<S: Subject>(
    alloc: Global,
    subject: &mut S,
    piece: &str,
) -> Result<Option<(Misfit, String)>, AllocError> {
    let Some((text, words)) = piece.split_once(": ") else {
        return found(alloc, Misfit::NoAnswer, piece);
    };
    let Some(event) = event_of(text) else {
        return found(alloc, Misfit::NoEvent, text);
    };
    if words == "none" || words.starts_with("refused") {
        refused_misfit(alloc, subject, &event, words)
    } else {
        answer_misfit(alloc, subject, &event, words)
    }
}

fn refused_misfit<S: Subject>(
    alloc: Global,
    subject: &mut S,
    event: &Event,
    words: &str,
) -> Result<Option<(Misfit, String)>, AllocError> {
    let before = subject.content(alloc)?;
    let answered = answer_misfit(alloc, subject, event, words)?;
    let after = subject.content(alloc)?;
    if answered.is_none() && before != after {
        return Ok(Some((Misfit::Changed, after)));
    }
    Ok(answered)
}

fn answer_misfit<S: Subject>(
    alloc: Global,
    subject: &mut S,
    event: &Event,
    words: &str,
) -> Result<Option<(Misfit, String)>, AllocError> {
    match subject.answer(alloc, event)? {
        None => found(alloc, Misfit::NoEvent, event.name),
        Some(said) if said.as_str() == words => Ok(None),
        Some(said) => Ok(Some((Misfit::OtherAnswer, said))),
    }
}

fn found(
    alloc: Global,
    misfit: Misfit,
    found: &str,
) -> Result<Option<(Misfit, String)>, AllocError> {
    let found = String::from_str(alloc, found)?;
    Ok(Some((misfit, found)))
}

// Reads an event, if there is nothing but a name and up to three numbers.
fn event_of(text: &str) -> Option<Event<'_>> {
    let mut words = text.split_whitespace();
    let name = words.next()?;
    let first = number(words.next())?;
    let second = number(words.next())?;
    let third = number(words.next())?;
    if words.next().is_some() {
        return None;
    }
    let numbers = [first, second, third];
    Some(Event { name, numbers })
}

fn number(word: Option<&str>) -> Option<u32> {
    match word {
        Some(word) => word.parse::<u32>().ok(),
        None => Some(0),
    }
}
