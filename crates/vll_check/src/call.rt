//! Calls of one procedure: making one or reporting why not, its source, adding the value found, and recognizing one.
ghost use Rattle.std.specs.Prelude.{◌≡◌, ◌↔◌, ◌<◌, ℕ, List, Some, None, Ok, IsTrue, IfSome};
ghost use Rattle.std.specs.List.{list_all};
ghost use Rattle.vll_proc.specs.declared.call.Call.{Call};
ghost use Rattle.vll_proc.specs.Headline.Meaning.{source_of};
ghost use Rattle.vll_check.specs.Headline.Calls.{found_by, source_by};
ghost use Rattle.vll_check.specs.Calls.{call_to, place_is_there};
ghost use Rattle.vll_check.specs.Faults.{check_fault};
ghost use Rattle.vll_check.specs.Private.Making.{IsMadeFor};

use crate::fault::CallFault;
use crate::making::{Naming, call_of, record_of};
use vll_proc::{Call, KeyAt, KeyDecl, Proc};
use vll_record::RecordId;

// The call of a procedure, or the lowest fault that applies.
pub(crate) fn call_to(
    records: u32,
    number: u32,
    procedure: &Proc,
    args: &[u64],
) -> Result<Call, CallFault>
    requires { check_fault records procedure.now ≡ None }
    ensures { result ≡ call_to records number (Some procedure.now) args.now }
{
    if args.len() != procedure.args as usize {
        return Err(CallFault::ArgCount);
    }
    if !places_are_there(procedure, args, records) {
        return Err(CallFault::RecordRange);
    }
    let naming = Naming {
        records,
        args,
        found: None,
    };
    Ok(call_of(number, procedure, naming))
}

// Whether each argument that names a key's record is below the number of records.
fn places_are_there(procedure: &Proc, args: &[u64], records: u32) -> bool
    ensures { result ≡ list_all (place_is_there records args.now) procedure.now.keys }
{
    let keys = procedure.keys.as_slice();
    keys.iter().all(|key| place_is_there(key, args, records))
}

// Whether the argument that names a key's record, if one does, is below the number of records.
fn place_is_there(key: &KeyDecl, args: &[u64], records: u32) -> bool
    ensures { result ≡ place_is_there records args.now key.now }
{
    match key.at {
        KeyAt::Fixed(_) | KeyAt::Through(_) => true,
        KeyAt::Arg(i) => args.get(i as usize).copied().unwrap_or(0) < records as u64,
    }
}

// Whether a call is the one that is made from its own arguments for this procedure.
pub(crate) fn is_made_for(records: u32, procedure: &Proc, call: &Call) -> bool
    requires { check_fault records procedure.now ≡ None }
    ensures { IsTrue result ↔ IsMadeFor records procedure.now call.now }
{
    let Some(args) = call.args.get(..call.arg_count as usize) else {
        return false;
    };
    match call_to(records, call.number, procedure, args) {
        Ok(made) => made == *call,
        Err(_) => false,
    }
}

// The record by whose value a call of this procedure finds the record of its indirect key. `place` is the index of the
// key position that names it.
pub(crate) fn source_for(records: u32, procedure: &Proc, place: u8, call: &Call) -> Option<RecordId>
    requires place { source_of procedure.now.keys ≡ Some place }
    requires checked { check_fault records procedure.now ≡ None }
    requires made { IsMadeFor records procedure.now call.now }
    ensures source { result ≡ source_by records (Some procedure.now) call.now }
    ensures within { IfSome result (λ r. r < records) }
{
    let key = procedure.keys.get(place as usize)?;
    let naming = Naming {
        records,
        args: &call.args[..call.arg_count as usize],
        found: None,
    };
    Some(RecordId(record_of(key, naming)?))
}

// A call of this procedure with a value found if it has an indirect key, or else unchanged.
pub(crate) fn found_for(records: u32, procedure: &Proc, call: &Call, value: u64) -> Call
    requires checked { check_fault records procedure.now ≡ None }
    requires made { IsMadeFor records procedure.now call.now }
    ensures { result ≡ found_by records (Some procedure.now) call.now value }
{
    if procedure.source().is_none() {
        return *call;
    }
    let naming = Naming {
        records,
        args: &call.args[..call.arg_count as usize],
        found: Some(value),
    };
    call_of(call.number, procedure, naming)
}

// Whether a call is one that is made for this procedure, with a value found if it has an indirect key.
pub(crate) fn is_ready_for(records: u32, procedure: &Proc, call: &Call) -> bool
    requires { check_fault records procedure.now ≡ None }
    ensures { IsTrue result ↔ ((made : Call) × (v : ℕ) × (IsMadeFor records procedure.now made × (call.now ≡ found_by records (Some procedure.now) made v))) }
{
    let Some(args) = call.args.get(..call.arg_count as usize) else {
        return false;
    };
    match call_to(records, call.number, procedure, args) {
        Ok(made) => found_for(records, procedure, &made, call.found.unwrap_or(0)) == *call,
        Err(_) => false,
    }
}
