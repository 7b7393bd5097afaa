//! The tests that find the piece at fault.
ghost use Rattle.std.specs.Prelude.{◌≡◌, Option, IfOk, is_some, nat_le, option_map, true, unwrap_or};
ghost use Rattle.serde_json.specs.Find.{as_array};
ghost use Rattle.serde_json.specs.View.{items_view, view};
ghost use Rattle.vll_core.specs.declared.config.TheConstants.{MOST_CALLS};
ghost use Rattle.vll_fault_path.specs.PieceTests.{calls_in, count_in, has_size, option_has_size};
ghost use Rattle.vll_core.specs.Faults.{is_up_to};
ghost use Rattle.vll_fault_path.specs.Pieces.{is_read};
ghost use Rattle.vll_scenario.specs.Tree.{Gives, u32_at};

use crate::piece::{Kind, Step};
use serde_json::Value;
use sqlite_items::Items;
use std::alloc::{AllocError, Global};
use vll_core::{Event, MOST_CALLS, MOST_RECORDS, MOST_WAITING};
use vll_proc::{Edition, KeyDecl, Proc};
use vll_sca::{MOST_BITS, Placing};
use vll_scenario::{
    Asked, MOST_CLIENTS, MOST_EVENTS, MOST_PROCS, Misread, Reads, code_of, expr_of, index_of,
    stmt_of, stmts_of, u32_of,
};

// Whether a part is within its limits.
pub(crate) fn has_size(step: Step, kind: Kind, value: &Value) -> Result<bool, AllocError>
    ensures { IfOk result (λ has. has ≡ has_size step kind (view value.now)) }
{
    let count = count_in(value);
    match kind {
        Kind::Records => Ok(1 <= count && count <= MOST_RECORDS as usize),
        Kind::Procedures => Ok(count <= MOST_PROCS),
        Kind::Scripts => Ok(count <= MOST_CLIENTS && calls_are_few(value)),
        Kind::Schedule => Ok(count <= MOST_EVENTS),
        Kind::Whole => option_has_size(step, value),
        _ => Ok(true),
    }
}

// The number of items of a value that is a list.
pub(crate) fn count_in(value: &Value) -> usize
    ensures { result ≡ count_in (view value.now) }
{
    match value.as_array() {
        Some(list) => list.len(),
        None => 0,
    }
}

// Whether the scripts of all clients together have no more calls than a number.
fn have_at_most(scripts: &[Value], most: usize) -> bool
    ensures { result ≡ nat_le (calls_in (items_view scripts.now)) most }
{
    match scripts {
        [] => true,
        [script, others @ ..] => {
            let count = count_in(script);
            count <= most && have_at_most(others, most - count)
        }
    }
}

fn calls_are_few(scripts: &Value) -> bool
    ensures { result ≡ nat_le (unwrap_or (option_map calls_in (as_array (view scripts.now))) 0) MOST_CALLS }
{
    match scripts.as_array() {
        Some(list) => have_at_most(list.as_slice(), MOST_CALLS as usize),
        None => true,
    }
}

// Whether the option to which a step leads is within its limits.
fn option_has_size(step: Step, value: &Value) -> Result<bool, AllocError>
    ensures { IfOk result (λ has. has ≡ unwrap_or (option_map (option_has_size step) (u32_at (view value.now))) true) }
{
    Ok(match if_read(u32_of(value))? {
        Some(number) => match step {
            Step::Cap => is_up_to(MOST_WAITING, number),
            Step::Bits => is_up_to(MOST_BITS, number),
            Step::Limit => is_up_to(MOST_CALLS, number),
            _ => true,
        },
        None => true,
    })
}

fn is_up_to(most: u32, number: u32) -> bool
    ensures { result ≡ is_up_to most number }
{
    1 <= number && number <= most
}

// Whether a value is what it has to be.
pub(crate) fn is_read(
    alloc: Global,
    edition: Edition,
    kind: Kind,
    value: &Value,
) -> Result<bool, AllocError>
    ensures { IfOk result (λ is. is ≡ is_read edition kind (view value.now)) }
{
    match kind {
        Kind::Version => Ok(matches!(value.as_u64(), Some(1) | Some(2))),
        Kind::Number => is_some(u64::read(alloc, edition, value)),
        Kind::Whole => is_some(u32::read(alloc, edition, value)),
        Kind::Index => is_some(index_of(value)),
        Kind::Code => is_some(code_of(value)),
        Kind::Text => Ok(value.as_str().is_some()),
        Kind::Hash => is_some(Placing::read(alloc, edition, value)),
        Kind::Records | Kind::Arguments => is_some(Items::<u64>::read(alloc, edition, value)),
        Kind::Procedures => is_some(Items::<Proc>::read(alloc, edition, value)),
        Kind::Procedure => is_some(Proc::read(alloc, edition, value)),
        Kind::Keys => is_some(Items::<KeyDecl>::read(alloc, edition, value)),
        Kind::Key => is_some(KeyDecl::read(alloc, edition, value)),
        Kind::Statements => is_some(stmts_of(alloc, edition, value)),
        Kind::Statement => is_some(stmt_of(alloc, edition, value)),
        Kind::Expression => is_some(expr_of(alloc, value)),
        Kind::Scripts => is_some(Items::<Items<Asked>>::read(alloc, edition, value)),
        Kind::Script => is_some(Items::<Asked>::read(alloc, edition, value)),
        Kind::Call => is_some(Asked::read(alloc, edition, value)),
        Kind::Schedule => is_some(Items::<Event>::read(alloc, edition, value)),
        Kind::Event => is_some(Event::read(alloc, edition, value)),
    }
}

// Whether a value was read, unless memory ran out.
pub(crate) fn is_some<T: Drop>(read: Result<T, Misread>) -> Result<bool, AllocError>
    ensures { IfOk result (λ is. (reading : Option T) → Gives read reading → is ≡ is_some reading) }
{
    Ok(if_read(read)?.is_some())
}

// What was read, if it was, unless memory ran out.
pub(crate) fn if_read<T: Drop>(read: Result<T, Misread>) -> Result<Option<T>, AllocError>
    ensures { IfOk result (λ found. (reading : Option T) → Gives read reading → found ≡ reading) }
{
    match read {
        Ok(value) => Ok(Some(value)),
        Err(Misread::Faulty) => Ok(None),
        Err(Misread::NoMemory) => Err(AllocError),
    }
}
