//! The tests of a procedure, in the order of their numbers.
ghost use Rattle.std.specs.Prelude.{◌≡◌, ◌≤◌, ◌+◌, IfOk, None, length, option_map, sum_by};
ghost use Rattle.vll_proc.specs.WellFormed as formed;
ghost use Rattle.vll_check.specs.Faults.{check_fault, declared_fault, fault_in, form_fault, name_fault, size_fault};

use crate::checked::Checked;
use crate::fault::CheckFault;
use crate::locals::{Locals, list_set_behind};
use crate::measure::{is_within, nodes_left, replies_left, weight_left};
use crate::places::{KnownArgs, KnownKeys, KnownLocals, WritableKeys};
use crate::turns::list_turns_are_few;
use crate::walk::list_throughout;
use vll_proc::{
    Edition, FIRST_MOST_KEYS, KeyAt, KeyDecl, MOST_ARGS, MOST_DEPTH, MOST_NODES, MOST_OUTPUTS,
    MOST_WEIGHT, Proc,
};
use vll_record::MOST_CLAIMS;

/// Tests whether a procedure is well-formed for a number of records.
///
/// It consumes the procedure: an `Ok` returns it, checked, and an `Err` drops it. The tests run in the
/// order of their numbers, so an `Err` is the lowest number whose test fails. It allocates no memory.
pub fn check(procedure: Proc, records: u32) -> Result<Checked, CheckFault>
    ensures ok { IfOk result (λ c. (c.procedure ≡ procedure) × (c.records ≡ records)) }
    ensures answer { check_fault records procedure ≡ fault_in result }
{
    match fault_of(&procedure, records) {
        Some(fault) => Err(fault),
        None => {
            let source = procedure.source();
            Ok(Checked {
                procedure,
                records,
                number: 0,
                place: 0,
                source,
            })
        }
    }
}

// The first test that the procedure fails.
fn fault_of(procedure: &Proc, records: u32) -> Option<CheckFault>
    ensures { result ≡ check_fault records procedure.now }
{
    if let Some(fault) = fault_of_declared(procedure, records) {
        return Some(fault);
    }
    if let Some(fault) = fault_of_names(procedure) {
        return Some(fault);
    }
    if let Some(fault) = fault_of_size(procedure) {
        return Some(fault);
    }
    fault_of_forms(procedure)
}

// The first failed test of what the procedure declares.
fn fault_of_declared(procedure: &Proc, records: u32) -> Option<CheckFault>
    ensures fault { result ≡ declared_fault records procedure.now }
    ensures few { result ≡ None → length procedure.now.keys ≤ MOST_CLAIMS }
{
    if procedure.args as usize > MOST_ARGS {
        return Some(CheckFault::TooManyArgs);
    }
    if procedure.keys.len() > most_keys(procedure.edition) {
        return Some(CheckFault::TooManyKeys);
    }
    if !has_declared_key_args(procedure) {
        return Some(CheckFault::KeyArg);
    }
    if !has_records(procedure, records) {
        return Some(CheckFault::FixedRecord);
    }
    None
}

// The first failed test of what the procedure's body names.
fn fault_of_names(procedure: &Proc) -> Option<CheckFault>
    ensures { result ≡ name_fault procedure.now }
{
    if !has_known_keys(procedure) {
        return Some(CheckFault::UnknownKey);
    }
    if !has_writable_keys(procedure) {
        return Some(CheckFault::NotWritable);
    }
    if !has_known_args(procedure) {
        return Some(CheckFault::UnknownArg);
    }
    if !has_known_locals(procedure) {
        return Some(CheckFault::UnknownLocal);
    }
    if !reads_set_locals(procedure) {
        return Some(CheckFault::UnsetLocal);
    }
    None
}

// The first failed test of the length and depth of the procedure's body.
fn fault_of_size(procedure: &Proc) -> Option<CheckFault>
    ensures { result ≡ size_fault procedure.now }
{
    if !has_few_replies(procedure) {
        return Some(CheckFault::TooManyReplies);
    }
    if !is_shallow(procedure) {
        return Some(CheckFault::TooDeep);
    }
    if !is_short(procedure) {
        return Some(CheckFault::TooLong);
    }
    None
}

// The first failed test of the procedure's indirect keys and of what its body repeats.
fn fault_of_forms(procedure: &Proc) -> Option<CheckFault>
    requires { length procedure.now.keys ≤ MOST_CLAIMS }
    ensures { result ≡ form_fault procedure.now }
{
    if !has_earlier_sources(procedure) {
        return Some(CheckFault::ThroughKey);
    }
    if !has_one_indirect_key(procedure) {
        return Some(CheckFault::TwoThrough);
    }
    if !has_few_turns(procedure) {
        return Some(CheckFault::Turns);
    }
    if !is_light(procedure) {
        return Some(CheckFault::TooMuchWork);
    }
    None
}

// The greatest number of key positions that a procedure of this edition declares.
pub(crate) fn most_keys(edition: Edition) -> usize
    ensures value { result ≡ formed.most_keys edition }
    ensures few { result ≤ MOST_CLAIMS }
{
    match edition {
        Edition::One => FIRST_MOST_KEYS,
        Edition::Two => MOST_CLAIMS,
    }
}

pub(crate) fn has_declared_key_args(procedure: &Proc) -> bool
    ensures { result ≡ formed.has_declared_key_args procedure.now }
{
    let args = procedure.args;
    let keys = procedure.keys.as_slice();
    keys.iter().all(|key| argument_is_declared(key, args))
}

pub(crate) fn argument_is_declared(key: &KeyDecl, args: u8) -> bool
    ensures { result ≡ formed.argument_is_declared args key.now }
{
    match key.at {
        KeyAt::Fixed(_) | KeyAt::Through(_) => true,
        KeyAt::Arg(i) => i < args,
    }
}

pub(crate) fn has_records(procedure: &Proc, records: u32) -> bool
    ensures { result ≡ formed.has_records records procedure.now }
{
    let keys = procedure.keys.as_slice();
    keys.iter().all(|key| record_is_there(key, records))
}

pub(crate) fn record_is_there(key: &KeyDecl, records: u32) -> bool
    ensures { result ≡ formed.record_is_there records key.now }
{
    match key.at {
        KeyAt::Fixed(r) => r < records,
        KeyAt::Arg(_) | KeyAt::Through(_) => true,
    }
}

fn has_known_keys(procedure: &Proc) -> bool
    ensures { result ≡ formed.has_known_keys procedure.now }
{
    let count = procedure.keys.len();
    list_throughout(&KnownKeys { count }, procedure.body.as_slice())
}

fn has_writable_keys(procedure: &Proc) -> bool
    ensures { result ≡ formed.has_writable_keys procedure.now }
{
    let keys = procedure.keys.as_slice();
    list_throughout(&WritableKeys { keys }, procedure.body.as_slice())
}

fn has_known_args(procedure: &Proc) -> bool
    ensures { result ≡ formed.has_known_args procedure.now }
{
    let count = procedure.args;
    list_throughout(&KnownArgs { count }, procedure.body.as_slice())
}

fn has_known_locals(procedure: &Proc) -> bool
    ensures { result ≡ formed.has_known_locals procedure.now }
{
    list_throughout(&KnownLocals, procedure.body.as_slice())
}

fn reads_set_locals(procedure: &Proc) -> bool
    ensures { result ≡ formed.reads_set_locals procedure.now }
{
    list_set_behind(procedure.body.as_slice(), Locals::new()).is_some()
}

fn has_few_replies(procedure: &Proc) -> bool
    ensures { result ≡ formed.has_few_replies procedure.now }
{
    replies_left(procedure.body.as_slice(), MOST_OUTPUTS as u32).is_some()
}

fn is_shallow(procedure: &Proc) -> bool
    ensures { result ≡ formed.is_shallow procedure.now }
{
    is_within(procedure.body.as_slice(), MOST_DEPTH)
}

fn is_short(procedure: &Proc) -> bool
    ensures { result ≡ formed.is_short procedure.now }
{
    nodes_left(procedure.body.as_slice(), MOST_NODES).is_some()
}

pub(crate) fn has_earlier_sources(procedure: &Proc) -> bool
    requires { length procedure.now.keys ≤ MOST_CLAIMS }
    ensures { result ≡ formed.has_earlier_sources procedure.now }
{
    let keys = procedure.keys.as_slice();
    have_sources(keys, 0, keys)
}

// As `has_earlier_sources`, for the key positions from index `place` on.
fn have_sources(all: &[KeyDecl], place: usize, keys: &[KeyDecl]) -> bool
    requires { place + length keys.now ≤ MOST_CLAIMS }
    ensures { result ≡ formed.have_sources all.now place keys.now }
{
    match keys {
        [] => true,
        [key, others @ ..] => has_source(all, place, key) && have_sources(all, place + 1, others),
    }
}

pub(crate) fn has_source(all: &[KeyDecl], place: usize, key: &KeyDecl) -> bool
    ensures { result ≡ formed.has_source all.now place key.now }
{
    match key.at.source() {
        Some(i) => (i as usize) < place && is_direct(all.get(i as usize)),
        None => true,
    }
}

pub(crate) fn is_direct(key: Option<&KeyDecl>) -> bool
    ensures { result ≡ formed.is_direct (option_map (λ k. k.now) key.entry) }
{
    match key {
        Some(key) => key.at.source().is_none(),
        None => false,
    }
}

pub(crate) fn has_one_indirect_key(procedure: &Proc) -> bool
    requires { length procedure.now.keys ≤ MOST_CLAIMS }
    ensures { result ≡ formed.has_one_indirect_key procedure.now }
{
    indirect_keys(procedure.keys.as_slice()) <= 1
}

// The number of indirect key positions.
fn indirect_keys(keys: &[KeyDecl]) -> usize
    requires { length keys.now ≤ MOST_CLAIMS }
    ensures value { result ≡ sum_by formed.indirect keys.now }
    ensures few { result ≤ length keys.now }
{
    match keys {
        [] => 0,
        [key, others @ ..] => match key.at.source() {
            Some(_) => 1 + indirect_keys(others),
            None => indirect_keys(others),
        },
    }
}

fn has_few_turns(procedure: &Proc) -> bool
    ensures { result ≡ formed.has_few_turns procedure.now }
{
    list_turns_are_few(procedure.body.as_slice(), procedure.edition)
}

fn is_light(procedure: &Proc) -> bool
    ensures { result ≡ formed.is_light procedure.now }
{
    weight_left(procedure.body.as_slice(), MOST_WEIGHT).is_some()
}
