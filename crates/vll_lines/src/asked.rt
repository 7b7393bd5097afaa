//! Reading what a line asks for besides a call: counts or records.
ghost use Rattle.std.specs.Prelude.{◌≡◌};
ghost use Rattle.std.specs.List.{list_any};
ghost use Rattle.std.specs.Str.{bytes_eq};
ghost use Rattle.serde_json.specs.View.{items_view, members_view, view};
ghost use Rattle.vll_scenario.specs.Syntax.{has_only};
ghost use Rattle.vll_lines.specs.Request.{counts_in, counts_names, has_no_other, range_in, records_by, records_in, records_names, records_within};

use crate::limits::MOST_READ;
use crate::request::{Asked, LineFault, RecordRange};
use serde_json::{Map, Value};

/// Whether it is an object with no other members than a line that asks for counts may have.
pub(crate) fn has_counts_alone(tree: &Value) -> bool
    ensures { result ≡ has_no_other counts_names (view tree.now) }
{
    match tree {
        Value::Object(members) => are_of_counts(members),
        _ => false,
    }
}

fn are_of_counts(members: &Map<String, Value>) -> bool
    ensures { result ≡ has_only counts_names (members_view members.now.entries) }
{
    members.keys().all(|key| is_of_counts(key.as_str()))
}

fn is_of_counts(name: &str) -> bool
    ensures { result ≡ list_any (bytes_eq name.now) counts_names }
{
    matches!(name, "id" | "counts")
}

/// The counts that a line asks for by this member: only true asks for them.
pub(crate) fn counts_in(member: &Value) -> Result<Asked, LineFault>
    ensures { result ≡ counts_in (view member.now) }
{
    match member.as_bool() {
        Some(true) => Ok(Asked::Counts),
        _ => Err(LineFault::Counts),
    }
}

/// Whether it is an object with no other members than a line that asks for records may have.
pub(crate) fn has_records_alone(tree: &Value) -> bool
    ensures { result ≡ has_no_other records_names (view tree.now) }
{
    match tree {
        Value::Object(members) => are_of_records(members),
        _ => false,
    }
}

fn are_of_records(members: &Map<String, Value>) -> bool
    ensures { result ≡ has_only records_names (members_view members.now.entries) }
{
    members.keys().all(|key| is_of_records(key.as_str()))
}

fn is_of_records(name: &str) -> bool
    ensures { result ≡ list_any (bytes_eq name.now) records_names }
{
    matches!(name, "id" | "records")
}

/// The records, out of so many, that a line asks for by this member.
pub(crate) fn records_in(member: &Value, records: u32) -> Result<Asked, LineFault>
    ensures { result ≡ records_in records (view member.now) }
{
    match member.as_array() {
        Some(list) => records_within(range_in(list.as_slice()), records),
        None => Err(LineFault::Records),
    }
}

// The first record and how many, in a list of these two numbers.
fn range_in(list: &[Value]) -> Option<(u64, u64)>
    ensures { result ≡ range_in (items_view list.now) }
{
    if list.len() != 2 {
        return None;
    }
    Some((list[0].as_u64()?, list[1].as_u64()?))
}

// These records, out of so many.
fn records_within(range: Option<(u64, u64)>, records: u32) -> Result<Asked, LineFault>
    ensures { result ≡ records_within records range }
{
    let Some((first, count)) = range else {
        return Err(LineFault::Records);
    };
    let records = u64::from(records);
    if count > MOST_READ as u64 || count > records || first > records - count {
        return Err(LineFault::Range);
    }
    Ok(Asked::Records(RecordRange {
        first: first as u32,
        count: count as u32,
    }))
}
