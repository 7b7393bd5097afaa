//! What is wrong with what must have the form of a key, a statement, an expression or an event.
use crate::shown::{Quoted, Refused};
use serde_json::Value;
use std::alloc::{AllocError, Global};
use std::fmt;
use vll_fault_path::{Form, Kind, Step, form_with, forms_of};
use vll_proc::Edition;

// How what has a form is named.
#[derive(Clone, Copy)]
struct Naming {
    one: &'static str,
    // What an unknown word is said not to be.
    word: &'static str,
    // What comes before the list of all forms.
    all: &'static str,
}

fn naming_of(kind: Kind) -> Naming {
    match kind {
        Kind::Statement => Naming {
            one: "a statement",
            word: "statement",
            all: "a statement is",
        },
        Kind::Event => Naming {
            one: "an event",
            word: "event",
            all: "an event is",
        },
        Kind::Key => Naming {
            one: "a key",
            word: "mode",
            all: "a key is",
        },
        _ => Naming {
            one: "an expression",
            word: "operation",
            all: "an expression is a number,",
        },
    }
}

// The forms that a piece of a kind may have.
#[derive(Clone, Copy)]
struct Valid(Kind);

impl fmt::Display for Valid {
    fn fmt<W: fmt::Write>(&self, f: &mut fmt::Formatter<W>) -> fmt::Result {
        let kind = self.0;
        let forms = forms_of(kind);
        let last = forms.len().saturating_sub(1);
        f.write_str(naming_of(kind).all)?;
        for (i, form) in forms.iter().enumerate() {
            f.write_str(match i {
                0 => " ",
                _ if i == last => " or ",
                _ => ", ",
            })?;
            show_form(f, kind, form)?;
        }
        if kind == Kind::Key {
            f.write_str(", or the same with \"write\"")?;
        }
        Ok(())
    }
}

// A form as docs/SCENARIO.md writes it.
fn show_form<W: fmt::Write>(f: &mut fmt::Formatter<W>, kind: Kind, form: &Form) -> fmt::Result {
    if form.since == Edition::Two {
        f.write_str("in version 2 ")?;
    }
    f.write_str(if kind == Kind::Key {
        "[\"read\",\""
    } else {
        "[\""
    })?;
    f.write_str(form.word)?;
    f.write_str("\"")?;
    for slot in form.slots {
        f.write_str(",")?;
        f.write_str(sign_of(slot.step))?;
    }
    f.write_str("]")
}

// What stands for a piece in the text of a form.
fn sign_of(step: Step) -> &'static str {
    match step {
        Step::Index => "i",
        Step::Record => "r",
        Step::Code => "code",
        Step::Count => "n",
        Step::Client => "client",
        Step::Ticket => "ticket",
        Step::FirstList | Step::SecondList | Step::List => "[..]",
        _ => "e",
    }
}

// Why the piece at fault, which is this value, does not have the form of `kind`.
pub(crate) fn form_why(
    alloc: Global,
    refused: &Refused<'_>,
    kind: Kind,
    value: &Value,
) -> Result<String, AllocError> {
    let valid = Valid(kind);
    match value {
        Value::Array(list) if kind == Kind::Key => key_why(alloc, refused, list.as_slice(), valid),
        Value::Array(list) => list_why(alloc, refused, kind, list.as_slice()),
        _ => {
            let shown = refused.shown(alloc, value)?;
            let one = naming_of(kind).one;
            format!(in alloc; "{shown} is not {one}; {valid}")
        }
    }
}

fn list_why(
    alloc: Global,
    refused: &Refused<'_>,
    kind: Kind,
    list: &[Value],
) -> Result<String, AllocError> {
    let valid = Valid(kind);
    let Naming {
        one,
        word: unknown,
        ..
    } = naming_of(kind);
    let [first, others @ ..] = list else {
        return format!(in alloc; "an empty list is not {one}; {valid}");
    };
    let Some(word) = first.as_str() else {
        let shown = refused.shown_item(alloc, first, 0)?;
        return format!(in alloc; "{one} begins with a word, not with {shown}; {valid}");
    };
    let shown = Quoted(word);
    match form_with(forms_of(kind), word) {
        None => format!(in alloc; "{shown} is not a valid {unknown}; {valid}"),
        Some(form) if form.since == Edition::Two && is_first(refused.tree) => {
            format!(in alloc; "version 1 has no {shown}; use \"version\":2")
        }
        Some(form) => {
            let wanted = form.slots.len();
            let count = others.len();
            format!(in alloc;
                "the number of items after {shown} must be {wanted}, not {count}; {valid}"
            )
        }
    }
}

// Whether a scenario is written in version 1.
fn is_first(tree: &Value) -> bool {
    tree.get("version").and_then(Value::as_u64) == Some(1)
}

fn key_why(
    alloc: Global,
    refused: &Refused<'_>,
    list: &[Value],
    valid: Valid,
) -> Result<String, AllocError> {
    let [mode, place, _] = list else {
        let count = list.len();
        return format!(in alloc; "the number of items of a key must be 3, not {count}; {valid}");
    };
    match mode.as_str() {
        Some("read" | "write") => {
            let shown = refused.shown_item(alloc, place, 1)?;
            format!(in alloc; "{shown} does not say which record it is; {valid}")
        }
        _ => {
            let shown = refused.shown_item(alloc, mode, 0)?;
            format!(in alloc; "a key begins with \"read\" or \"write\", not with {shown}; {valid}")
        }
    }
}
