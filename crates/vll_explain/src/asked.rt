//! Why a call cannot be made.
use crate::shown::Quoted;
use serde_json::Value;
use std::alloc::{AllocError, Global};
use vll_scenario::CallFault;

// The number of names that are listed.
const MOST_NAMES: usize = 8;

// Why a call is refused with this fault.
pub(crate) fn call_why(
    alloc: Global,
    tree: &Value,
    client: u32,
    index: u32,
    fault: CallFault,
) -> Result<String, AllocError> {
    let script = items_of(items_of(tree.get("clients")).get(client as usize));
    let asked = script.get(index as usize);
    let name = asked
        .and_then(|asked| asked.get("proc"))
        .and_then(Value::as_str)
        .unwrap_or("");
    let args = items_of(asked.and_then(|asked| asked.get("args")));
    let procs = items_of(tree.get("procs"));
    let Some(procedure) = procs.iter().find(|procedure| name_of(procedure) == name) else {
        return unknown_name(alloc, procs, name);
    };
    match fault {
        CallFault::RecordRange => {
            let records = items_of(tree.get("records")).len();
            record_why(alloc, name, items_of(procedure.get("keys")), args, records)
        }
        _ => {
            let name = Quoted(name);
            let wanted = procedure.get("args").and_then(Value::as_u64).unwrap_or(0);
            let given = args.len();
            format!(in alloc; "the number of arguments of {name} must be {wanted}, not {given}")
        }
    }
}

// The items of a list, none if there is no list.
pub(crate) fn items_of(value: Option<&Value>) -> &[Value] {
    match value.and_then(Value::as_array) {
        Some(list) => list.as_slice(),
        None => &[],
    }
}

fn name_of(procedure: &Value) -> &str {
    procedure.get("name").and_then(Value::as_str).unwrap_or("")
}

// The names that there are, for a name that is not among them.
fn unknown_name(alloc: Global, procs: &[Value], name: &str) -> Result<String, AllocError> {
    let name = Quoted(name);
    let mut why = format!(in alloc; "no procedure has the name {name}; ")?;
    if procs.is_empty() {
        why.push_str("there are no procedures")?;
        return Ok(why);
    }
    why.push_str("the names are ")?;
    for (i, procedure) in procs.iter().enumerate() {
        if i == MOST_NAMES {
            why.push_str(", and others")?;
            break;
        }
        let comma = if i == 0 { "" } else { ", " };
        let known = Quoted(name_of(procedure));
        write!(why, "{comma}{known}")?;
    }
    Ok(why)
}

// Which argument is taken as a record that is not there.
fn record_why(
    alloc: Global,
    name: &str,
    keys: &[Value],
    args: &[Value],
    records: usize,
) -> Result<String, AllocError> {
    for (i, key) in keys.iter().enumerate() {
        if key.get(1).and_then(Value::as_str) != Some("arg") {
            continue;
        }
        let index = key.get(2).and_then(Value::as_u64).unwrap_or(0) as usize;
        let Some(record) = args.get(index).and_then(Value::as_u64) else {
            continue;
        };
        if record >= records as u64 {
            let name = Quoted(name);
            return format!(in alloc;
                "there is no record {record}, which key {i} of {name} takes from argument {index}; the number of records is {records}, and they are numbered from 0"
            );
        }
    }
    format!(in alloc; "there is no record that a key takes from an argument")
}
