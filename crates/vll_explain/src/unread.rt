//! What is wrong with bytes that are not read to their end, or are not a JSON text.
use crate::origin::Origin;
use json::{Reader, Scratch, Token};
use serde_json::Value;
use std::alloc::{AllocError, Global};
use std::str;
use vll_scenario::{MOST_BYTES, ScenarioFault};

// How deeply lists and objects may be nested.
const MOST_DEEP: usize = 127;

// Where the mistake is, and what is wrong there. If the source was not read to its end, `bytes` may be empty.
pub(crate) fn unread_explanation(
    alloc: Global,
    origin: Origin,
    why: ScenarioFault,
    bytes: &[u8],
) -> Result<String, AllocError> {
    let name = origin.name();
    match why {
        ScenarioFault::Read => {
            let failure = origin.failure();
            format!(in alloc; "{name}\nwhy: {failure}\n")
        }
        ScenarioFault::Json => json_explanation(alloc, bytes),
        ScenarioFault::Size => {
            format!(in alloc; "{name}\nwhy: there are more than {MOST_BYTES} bytes\n")
        }
        _ => {
            format!(in alloc;
                "{name}\nwhy: there is not enough memory to read it; allow more, or make the scenario smaller\n"
            )
        }
    }
}

// The place at which bytes stop being a JSON text, and what is wrong there: what the kit's reader says, but for a text
// that is nested too deep, which that does not tell from one that is no JSON.
fn json_explanation(alloc: Global, bytes: &[u8]) -> Result<String, AllocError> {
    match Value::from_slice(alloc, bytes) {
        Ok(_) => format!(in alloc; "the scenario\nwhy: a second look found valid JSON\n"),
        Err(error) if error.is_memory() => Err(AllocError),
        Err(error) => {
            let message = format!(in alloc; "{error}")?;
            let (why, _) = message.as_str().split_once(" at line ").unwrap_or(("", ""));
            if why == "invalid JSON"
                && let Some(place) = too_deep_at(alloc, bytes)?
            {
                return too_deep(alloc, bytes, place);
            }
            let line = error.line();
            // a text that ends too early may end before the first byte of a line
            let column = error.column().max(1);
            format!(in alloc; "line {line}, column {column}\nwhy: {why}\n")
        }
    }
}

// The explanation for a text that opens one list or object too many at a place.
fn too_deep(alloc: Global, bytes: &[u8], place: usize) -> Result<String, AllocError> {
    let before = bytes.get(..place).unwrap_or(bytes);
    let line = before
        .iter()
        .filter(|byte| **byte == b'\n')
        .count()
        .saturating_add(1);
    let column = before
        .iter()
        .rev()
        .take_while(|byte| **byte != b'\n')
        .count()
        .saturating_add(1);
    format!(in alloc;
        "line {line}, column {column}\nwhy: lists and objects are nested more than {MOST_DEEP} deep\n"
    )
}

// Where a text opens a list or an object inside as many others as there may be, if it is JSON up to there.
fn too_deep_at(alloc: Global, bytes: &[u8]) -> Result<Option<usize>, AllocError> {
    let Ok(text) = str::from_utf8(bytes) else {
        return Ok(None);
    };
    let mut scratch = Scratch::new(alloc);
    let mut reader = Reader::new(text, &mut scratch)?;
    let mut depth = 0usize;
    for _ in 0..bytes.len() {
        let place = reader.offset();
        match reader.next() {
            Some(Token::BeginArray | Token::BeginObject) if depth == MOST_DEEP => {
                return Ok(Some(place));
            }
            Some(Token::BeginArray | Token::BeginObject) => depth = depth.saturating_add(1),
            Some(Token::EndArray | Token::EndObject) => depth = depth.saturating_sub(1),
            Some(Token::Bad) | None => return Ok(None),
            Some(_) => {}
        }
    }
    Ok(None)
}
