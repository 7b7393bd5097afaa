//! What is wrong with a piece whose shape is at fault.
use crate::forms::form_why;
use crate::members::member_why;
use crate::shown::Refused;
use serde_json::Value;
use std::alloc::{AllocError, Global};
use vll_fault_path::{Found, Kind};
use vll_scenario::{MAY_NAMES, MUST_NAMES};

// What is wrong with the piece found in a scenario that is refused, or with the scenario itself.
pub(crate) fn shape_why(
    alloc: Global,
    refused: &Refused<'_>,
    found: Option<Found<'_>>,
) -> Result<String, AllocError> {
    let Some(Found { kind, value, .. }) = found else {
        // those that it must have come first
        return member_why(
            alloc,
            refused,
            refused.tree,
            &MUST_NAMES,
            &MAY_NAMES[MUST_NAMES.len()..],
        );
    };
    match (kind, value) {
        (Kind::Procedure, _) => member_why(
            alloc,
            refused,
            value,
            &["name", "args", "keys", "body"],
            &[],
        ),
        (Kind::Call, _) => member_why(alloc, refused, value, &["proc", "args"], &[]),
        (Kind::Expression, Value::Number(_)) => unlike(alloc, refused, value, NUMBER),
        (Kind::Key | Kind::Statement | Kind::Expression | Kind::Event, _) => {
            form_why(alloc, refused, kind, value)
        }
        _ => unlike(alloc, refused, value, wanted(kind)),
    }
}

fn unlike(
    alloc: Global,
    refused: &Refused<'_>,
    value: &Value,
    wanted: &str,
) -> Result<String, AllocError> {
    let shown = refused.shown(alloc, value)?;
    format!(in alloc; "{shown} is not {wanted}")
}

// What a piece of this kind has to be.
fn wanted(kind: Kind) -> &'static str {
    match kind {
        Kind::Version => "a version; the versions are 1 and 2",
        Kind::Number => NUMBER,
        Kind::Whole => "a whole number from 0 to 4294967295, written in digits alone",
        Kind::Index => "a whole number from 0 to 255, written in digits alone",
        Kind::Code => "a whole number from 0 to 65535, written in digits alone",
        Kind::Text => "a string in double quotation marks",
        Kind::Hash => "a hash; the hashes are \"modulo\" and \"spread\"",
        Kind::Keys => "a list of keys",
        Kind::Statements => "a list of statements",
        Kind::Script => "a list of calls",
        Kind::Arguments => "a list of numbers",
        _ => "a list",
    }
}

const NUMBER: &str = "a whole number from 0 to 18446744073709551615, written in digits alone";
