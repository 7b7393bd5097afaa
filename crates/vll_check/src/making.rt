//! Calls of a procedure, made from their arguments.
ghost use Rattle.std.specs.Prelude.{◌≡◌, ◌≤◌, ◌<◌, ◌^◌, length, map, true, All, IfSome, Some};
ghost use Rattle.vll_record.specs.Headline.Canon.{laid};
ghost use Rattle.vll_record.specs.Headline.Claim.{claims_of};
ghost use Rattle.vll_proc.specs.Headline.Made.{asked_by, call_of, place_for, place_of};
ghost use Rattle.vll_proc.specs.Headline.Meaning.{record_named};
ghost use Rattle.vll_proc.specs.WellFormed.{argument_is_declared};
ghost use Rattle.vll_check.specs.Private.Making.{cell_of, IsPlaced};

use vll_proc::{Call, KeyAt, KeyDecl, MOST_ARGS, Proc};
use vll_record::{Claim, Claims, MOST_CLAIMS, RecordId};

// What determines the records that key positions name.
#[derive(Clone, Copy)]
pub(crate) struct Naming<'a> {
    // The number of records.
    pub(crate) records: u32,
    pub(crate) args: &'a [u64],
    // The value found for an indirect key position.
    pub(crate) found: Option<u64>,
}

// The call of the procedure with this number.
pub(crate) fn call_of(number: u32, procedure: &Proc, naming: Naming) -> Call
    requires few { length naming.args.now ≤ MOST_ARGS }
    requires keys { length procedure.now.keys ≤ MOST_CLAIMS }
    requires some { IfSome naming.found (λ _. 0 < naming.records) }
    requires placed { All (IsPlaced naming.records naming.args.now naming.found (length naming.args.now)) procedure.now.keys }
    ensures { result ≡ call_of naming.entry.records number procedure.now naming.entry.args.now naming.entry.found }
{
    let keys = procedure.keys.as_slice();
    let claims = claims_of(keys, naming);
    Call {
        number,
        arg_count: naming.args.len() as u8,
        args: args_of(naming.args),
        found: naming.found,
        cells: cells_of(keys, naming, &claims),
        claims,
    }
}

// The record that a key position names.
pub(crate) fn record_of(key: &KeyDecl, naming: Naming) -> Option<u32>
    requires placed { IsPlaced naming.records naming.args.now naming.found (length naming.args.now) key.now }
    requires some { IfSome naming.found (λ _. 0 < naming.records) }
    ensures { result ≡ record_named naming.entry.records naming.entry.args.now naming.entry.found key.now.at }
{
    match key.at {
        KeyAt::Fixed(r) => Some(r),
        KeyAt::Arg(i) => Some(naming.args[i as usize] as u32),
        KeyAt::Through(_) => match naming.found {
            Some(value) => Some((value % naming.records as u64) as u32),
            None => None,
        },
    }
}

// The claims that key positions ask for.
fn claims_of(keys: &[KeyDecl], naming: Naming) -> Claims
    requires keys { length keys.now ≤ MOST_CLAIMS }
    requires some { IfSome naming.found (λ _. 0 < naming.records) }
    requires placed { All (IsPlaced naming.records naming.args.now naming.found (length naming.args.now)) keys.now }
    ensures { result ≡ claims_of (asked_by naming.entry.records naming.entry.args.now naming.entry.found keys.now) }
{
    match keys {
        [] => Claims::new(),
        [key, others @ ..] => {
            let mut claims = claims_of(others, naming);
            if let Some(id) = record_of(key, naming) {
                claims.add(Claim {
                    id: RecordId(id),
                    mode: key.mode,
                });
            }
            claims
        }
    }
}

// The arguments, padded with zeros.
fn args_of(args: &[u64]) -> [u64; MOST_ARGS]
    requires { length args.now ≤ MOST_ARGS }
    ensures { result ≡ laid MOST_ARGS 0 args.now }
{
    let mut places = [0; MOST_ARGS];
    for (i, arg) in args.iter().enumerate() {
        places[i] = *arg;
    }
    places
}

// For each key position the index of its claim, or 0 if it names no record; padded with zeros.
fn cells_of(keys: &[KeyDecl], naming: Naming, claims: &Claims) -> [u8; MOST_CLAIMS]
    requires keys { length keys.now ≤ MOST_CLAIMS }
    requires some { IfSome naming.found (λ _. 0 < naming.records) }
    requires placed { All (IsPlaced naming.records naming.args.now naming.found (length naming.args.now)) keys.now }
    ensures { result ≡ laid MOST_CLAIMS 0 (map (cell_of naming.entry.records claims.now naming.entry.args.now naming.entry.found) keys.now) }
{
    let mut cells = [0; MOST_CLAIMS];
    for (i, key) in keys.iter().enumerate() {
        cells[i] = place_for(claims, record_of(key, naming));
    }
    cells
}

// The index of the claim on the record that a key position names, or 0 if it names none.
fn place_for(claims: &Claims, id: Option<u32>) -> u8
    ensures { result ≡ place_for claims.now id }
{
    match id {
        Some(id) => place_of(claims, id),
        None => 0,
    }
}

// The index of a record's claim, or the number of claims if there is none.
fn place_of(claims: &Claims, id: u32) -> u8
    ensures { result ≡ place_of claims.now id }
{
    let none = claims.len();
    claims
        .iter()
        .position(|claim| claim.id.0 == id)
        .unwrap_or(none) as u8
}
