//! What is wrong with a value that must be an object with certain members.
use crate::shown::{Quoted, Refused};
use serde_json::Value;
use std::alloc::{AllocError, Global};

// The number of unknown members that are listed.
const MOST_TOLD: usize = 4;

// What is wrong with the piece at fault, which is this value and must be an object with all members in `must`, and
// others only from `may`.
pub(crate) fn member_why(
    alloc: Global,
    refused: &Refused<'_>,
    value: &Value,
    must: &[&str],
    may: &[&str],
) -> Result<String, AllocError> {
    let mut why = String::new(alloc);
    if !value.is_object() {
        let shown = refused.shown(alloc, value)?;
        write!(
            why,
            "{shown} is not an object; it has to be one with the members "
        )?;
        push_names(&mut why, must)?;
        return Ok(why);
    }
    push_missing(&mut why, value, must)?;
    push_unknown(&mut why, value, must, may)?;
    why.push_str("; the members are ")?;
    push_names(&mut why, must)?;
    if !may.is_empty() {
        why.push_str(", and optionally ")?;
        push_names(&mut why, may)?;
    }
    Ok(why)
}

// Appends names, separated by commas.
fn push_names(text: &mut String, names: &[&str]) -> Result<(), AllocError> {
    for (i, name) in names.iter().enumerate() {
        let comma = if i == 0 { "" } else { ", " };
        write!(text, "{comma}{name}")?;
    }
    Ok(())
}

fn push_missing(why: &mut String, value: &Value, must: &[&str]) -> Result<(), AllocError> {
    for name in must {
        if value.get(*name).is_none() {
            let comma = comma_behind(why);
            write!(why, "{comma}the member \"{name}\" is missing")?;
        }
    }
    Ok(())
}

fn push_unknown(
    why: &mut String,
    value: &Value,
    must: &[&str],
    may: &[&str],
) -> Result<(), AllocError> {
    let Some(members) = value.as_object() else {
        return Ok(());
    };
    let mut told = 0usize;
    for name in members.keys() {
        if !has(must, name.as_str()) && !has(may, name.as_str()) {
            if told == MOST_TOLD {
                return why.push_str(", nor are others");
            }
            told = told.saturating_add(1);
            let comma = comma_behind(why);
            let name = Quoted(name.as_str());
            write!(why, "{comma}the member {name} is not known here")?;
        }
    }
    Ok(())
}

fn comma_behind(text: &String) -> &'static str {
    if text.is_empty() { "" } else { ", " }
}

fn has(names: &[&str], name: &str) -> bool {
    names.iter().any(|other| name == *other)
}
