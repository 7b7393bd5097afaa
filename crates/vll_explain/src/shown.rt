//! Pieces of a scenario as shown to a person: in printable ASCII, and cut if they are long.
use crate::inner::{Inner, inner_way};
use crate::written::written_number;
use serde_json::Value;
use std::alloc::{AllocError, Global};
use std::fmt;
use vll_fault_path::Step;
use vll_scenario::Shortened;

// A text in quotation marks.
#[derive(Clone, Copy)]
pub(crate) struct Quoted<'a>(pub &'a str);

impl fmt::Display for Quoted<'_> {
    fn fmt<W: fmt::Write>(&self, f: &mut fmt::Formatter<W>) -> fmt::Result {
        let shown = Shortened::new(self.0);
        f.write_str("\"")?;
        for c in shown.beginning.chars() {
            show_char(f, c)?;
        }
        f.write_str(shown.dots)?;
        f.write_str("\"")
    }
}

// A character as JSON writes it, if it is printable ASCII, else by its number.
fn show_char<W: fmt::Write>(f: &mut fmt::Formatter<W>, c: char) -> fmt::Result {
    let number = c as u32;
    match c {
        '"' => f.write_str("\\\""),
        '\\' => f.write_str("\\\\"),
        ' '..='~' => write!(f, "{c}"),
        _ => write!(f, "\\u{{{number:x}}}"),
    }
}

// A scenario that is refused: its bytes, their tree, and the steps to the piece at fault.
#[derive(Clone, Copy)]
pub(crate) struct Refused<'a> {
    pub bytes: &'a [u8],
    pub tree: &'a Value,
    pub steps: &'a [Step],
}

impl Refused<'_> {
    // The piece at fault, which is this value: a number as it is written, a text in quotation marks, anything else by
    // its kind.
    pub(crate) fn shown(&self, alloc: Global, value: &Value) -> Result<String, AllocError> {
        self.shown_at(alloc, value, None)
    }

    // The same for an item of the list at fault.
    pub(crate) fn shown_item(
        &self,
        alloc: Global,
        value: &Value,
        index: usize,
    ) -> Result<String, AllocError> {
        self.shown_at(alloc, value, Some(index))
    }

    fn shown_at(
        &self,
        alloc: Global,
        value: &Value,
        item: Option<usize>,
    ) -> Result<String, AllocError> {
        if value.is_number()
            && let Some(number) = self.number_at(alloc, item)?
        {
            return Ok(number);
        }
        let shown = Shown(value);
        format!(in alloc; "{shown}")
    }

    // The number at fault as it is written.
    fn number_at(&self, alloc: Global, item: Option<usize>) -> Result<Option<String>, AllocError> {
        let Some(mut way) = inner_way(alloc, self.tree, self.steps)? else {
            return Ok(None);
        };
        if let Some(index) = item {
            way.push(Inner::Item(index))?;
        }
        written_number(alloc, self.bytes, way.as_slice())
    }
}

// A JSON value that is no number: a text as it is, anything else by its kind.
#[derive(Clone, Copy)]
struct Shown<'a>(&'a Value);

impl fmt::Display for Shown<'_> {
    fn fmt<W: fmt::Write>(&self, f: &mut fmt::Formatter<W>) -> fmt::Result {
        match self.0 {
            Value::Null => f.write_str("null"),
            Value::Bool(true) => f.write_str("true"),
            Value::Bool(false) => f.write_str("false"),
            Value::Number(_) => f.write_str("a number"),
            Value::String(text) => {
                let text = Quoted(text.as_str());
                write!(f, "{text}")
            }
            Value::Array(list) if list.is_empty() => f.write_str("an empty list"),
            Value::Array(_) => f.write_str("a list"),
            Value::Object(_) => f.write_str("an object"),
        }
    }
}
