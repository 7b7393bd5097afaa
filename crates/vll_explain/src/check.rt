//! Why a procedure is not well-formed, in words.
use crate::asked::items_of;
use serde_json::Value;
use std::alloc::{AllocError, Global};
use vll_fault_path::{Step, Way};
use vll_proc::{
    FIRST_MOST_KEYS, MOST_ARGS, MOST_DEPTH, MOST_LOCALS, MOST_NODES, MOST_OUTPUTS, MOST_TURNS,
    MOST_WEIGHT,
};
use vll_record::MOST_CLAIMS;
use vll_scenario::CheckFault;

// What is wrong with the procedure at an index, in the piece to which a way leads.
pub(crate) fn check_why(
    alloc: Global,
    tree: &Value,
    index: u32,
    fault: CheckFault,
    way: &Way<'_>,
) -> Result<String, AllocError> {
    let procedure = items_of(tree.get("procs")).get(index as usize);
    let args = number_at(procedure.and_then(|procedure| procedure.get("args")));
    let keys = items_of(procedure.and_then(|procedure| procedure.get("keys")));
    let number = way.number;
    match fault {
        CheckFault::TooManyArgs => {
            format!(in alloc; "there are {args} arguments, but at most {MOST_ARGS} are allowed")
        }
        CheckFault::TooManyKeys => {
            let version = number_at(tree.get("version"));
            too_many_keys(alloc, keys.len(), version)
        }
        CheckFault::KeyArg | CheckFault::UnknownArg => format!(in alloc;
            "argument {number} is not declared; the number of arguments is {args}, and they are numbered from 0"
        ),
        CheckFault::FixedRecord => {
            let records = items_of(tree.get("records")).len();
            format!(in alloc;
                "there is no record {number}; the number of records is {records}, and they are numbered from 0"
            )
        }
        CheckFault::ThroughKey => through_why(alloc, way),
        CheckFault::TwoThrough => {
            let before = keys.iter().position(is_through).unwrap_or(0);
            format!(in alloc;
                "it is a \"through\" key, and so is key {before}; a procedure has at most one"
            )
        }
        CheckFault::UnknownKey => {
            let keys = keys.len();
            format!(in alloc;
                "key {number} is not declared; the number of keys is {keys}, and they are numbered from 0"
            )
        }
        CheckFault::NotWritable => format!(in alloc;
            "key {number} is set, but is a \"read\" key: make it a \"write\" key"
        ),
        CheckFault::UnknownLocal => format!(in alloc;
            "there is no local {number}; there are {MOST_LOCALS}, from 0 to 7"
        ),
        CheckFault::UnsetLocal => format!(in alloc;
            "local {number} is read before it is surely set: set it earlier, and in both lists of an if"
        ),
        CheckFault::Turns => format!(in alloc;
            "it has {number} turns, but at most {MOST_TURNS} are allowed: put one repeat inside another"
        ),
        CheckFault::TooManyReplies
        | CheckFault::TooDeep
        | CheckFault::TooLong
        | CheckFault::TooMuchWork => measure_why(alloc, fault),
    }
}

// Why a body is too much of something.
fn measure_why(alloc: Global, fault: CheckFault) -> Result<String, AllocError> {
    match fault {
        CheckFault::TooManyReplies => {
            format!(in alloc; "it has more than {MOST_OUTPUTS} replies, which is the most allowed")
        }
        CheckFault::TooDeep => format!(in alloc;
            "it is more than {MOST_DEPTH} deep, which is the most allowed: keep values in locals"
        ),
        CheckFault::TooLong => {
            format!(in alloc; "it has more than {MOST_NODES} nodes, which is the most allowed")
        }
        _ => format!(in alloc;
            "it weighs more than {MOST_WEIGHT}, which is the most allowed: a repeat weighs as much as all its turns"
        ),
    }
}

fn too_many_keys(alloc: Global, count: usize, version: u64) -> Result<String, AllocError> {
    if version == 1 {
        format!(in alloc;
            "there are {count} keys, but version 1 allows at most {FIRST_MOST_KEYS}; version 2 allows more"
        )
    } else {
        format!(in alloc;
            "there are {count} keys, but version {version} allows at most {MOST_CLAIMS}"
        )
    }
}

// Why the key to which a way leads cannot find its record through another one.
fn through_why(alloc: Global, way: &Way<'_>) -> Result<String, AllocError> {
    let number = way.number;
    match way.steps.last() {
        Some(Step::Key(place)) if number < *place as u64 => format!(in alloc;
            "its source is key {number}, which is a \"through\" key itself"
        ),
        _ => format!(in alloc;
            "its source is key {number}, which does not come before it: put the source first"
        ),
    }
}

fn is_through(key: &Value) -> bool {
    key.get(1).and_then(Value::as_str) == Some("through")
}

fn number_at(value: Option<&Value>) -> u64 {
    value.and_then(Value::as_u64).unwrap_or(0)
}
