//! The names of procedures.
use crate::asked::items_of;
use crate::shown::Quoted;
use serde_json::Value;
use std::alloc::{AllocError, Global};

// The name of the procedure at an index of a scenario's tree, in quotation marks; `None` if it has no name, or there is
// no such procedure.
pub(crate) fn procedure_name(
    alloc: Global,
    tree: &Value,
    index: usize,
) -> Result<Option<String>, AllocError> {
    let Some(name) = name_in(items_of(tree.get("procs")).get(index)) else {
        return Ok(None);
    };
    let name = Quoted(name);
    let shown = format!(in alloc; "{name}")?;
    Ok(Some(shown))
}

// Which procedures have the same name.
pub(crate) fn name_twice_why(alloc: Global, procs: &[Value]) -> Result<String, AllocError> {
    let Some((first, second)) = name_twice(alloc, procs)? else {
        return format!(in alloc; "two procedures have the same name; rename one");
    };
    let name = Quoted(name_at(procs.get(second)));
    format!(in alloc; "procs {first} and procs {second} both have the name {name}; rename one")
}

fn name_at(procedure: Option<&Value>) -> &str {
    name_in(procedure).unwrap_or("")
}

fn name_in(procedure: Option<&Value>) -> Option<&str> {
    procedure
        .and_then(|procedure| procedure.get("name"))
        .and_then(Value::as_str)
}

// The lowest procedure with the name of an earlier one: the index of the first with this name, and its own.
fn name_twice(alloc: Global, procs: &[Value]) -> Result<Option<(usize, usize)>, AllocError> {
    let mut names = Vec::new(alloc);
    for (i, procedure) in procs.iter().enumerate() {
        names.push((name_at(Some(procedure)), i))?;
    }
    names.sort()?;
    let mut lowest: Option<(usize, usize)> = None;
    let mut before: Option<(&str, usize)> = None;
    for (name, i) in names.iter() {
        match before {
            Some((same, first)) if same == *name => {
                if lowest.is_none_or(|(_, second)| *i < second) {
                    lowest = Some((first, *i));
                }
            }
            _ => before = Some((*name, *i)),
        }
    }
    Ok(lowest)
}
