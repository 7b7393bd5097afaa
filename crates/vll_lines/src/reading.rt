//! Reading a line as a JSON tree: what it asks for, or why it asks for nothing.
ghost use Rattle.std.specs.Prelude.{◌≡◌, IfOk, codes, option_map};
ghost use Rattle.std.specs.List.{list_any};
ghost use Rattle.std.specs.Str.{bytes_eq};
ghost use Rattle.serde_json.specs.Find.{get};
ghost use Rattle.serde_json.specs.View.{items_view, members_view, view};
ghost use Rattle.vll_scenario.specs.Syntax.{has_only};
ghost use Rattle.vll_scenario.specs.Tree.{each, number_at};
ghost use Rattle.vll_lines.specs.Request.{IsRequest, args_by, args_of, request_of, asked_of, call_asked, client_of, has_no_other, id_in, id_of, may_names, name_of, no_record, no_text, records_or_call, declared_args, declared_keys, proc_named, refusal};
ghost use Rattle.vll_lines.specs.Private.Reading.{Gives, GivesArgs, Names, Settles};

use crate::asked::{counts_in, has_counts_alone, has_records_alone, records_in};
use crate::limits::MOST_ID;
use crate::read_fault::ReadFault;
use crate::request::{Asked, ClientCall, Id, LineFault, Request};
use serde_json::{Map, Value};
use std::alloc::{AllocError, Global};
use vll_check::{CallFault, Library};
use vll_proc::{KeyAt, KeyDecl, Proc, Text};

/// Reads what a line asks for as a JSON tree. Fails only for want of memory.
pub(crate) fn read_tree(
    alloc: Global,
    library: &Library,
    clients: u32,
    line: &[u8],
) -> Result<Request, AllocError>
    ensures { IfOk result (IsRequest library.now clients line.now) }
{
    match Value::from_slice(alloc, line) {
        Ok(tree) => request_of(alloc, library, clients, &tree),
        Err(error) if error.is_memory() => Err(AllocError),
        Err(error) => Ok(Request {
            id: None,
            asked: Err(no_text(line, error.column() as u64)),
        }),
    }
}

// What is told of a line that is no JSON text.
fn no_text(line: &[u8], column: u64) -> LineFault
    ensures { result ≡ no_text line.now column }
{
    if line.is_empty() {
        LineFault::Empty
    } else {
        LineFault::Json(column)
    }
}

// The id of a JSON tree, and what it asks for.
fn request_of(
    alloc: Global,
    library: &Library,
    clients: u32,
    tree: &Value,
) -> Result<Request, AllocError>
    ensures { IfOk result (λ request. request ≡ request_of library.now clients (view tree.now)) }
{
    match settled(id_of(alloc, tree))? {
        Ok(id) => Ok(Request {
            id,
            asked: settled(asked_of(alloc, library, clients, tree))?,
        }),
        Err(why) => Ok(Request {
            id: None,
            asked: Err(why),
        }),
    }
}

// What was read or the fault, unless memory ran out.
fn settled<T: Drop>(read: Result<T, ReadFault>) -> Result<Result<T, LineFault>, AllocError>
    ensures { Settles read result }
{
    match read {
        Ok(it) => Ok(Ok(it)),
        Err(ReadFault::Faulty(why)) => Ok(Err(why)),
        Err(ReadFault::NoMemory) => Err(AllocError),
    }
}

// The id of a line, if it has one.
fn id_of(alloc: Global, tree: &Value) -> Result<Option<Id>, ReadFault>
    ensures { Gives result (id_of (view tree.now)) }
{
    match tree.get("id") {
        Some(value) => Ok(Some(id_in(alloc, value)?)),
        None => Ok(None),
    }
}

fn id_in(alloc: Global, value: &Value) -> Result<Id, ReadFault>
    ensures { Gives result (id_in (view value.now)) }
{
    if let Some(number) = value.as_u64() {
        return Ok(Id::Number(number));
    }
    match value.as_str() {
        Some(text) if text.len() <= MOST_ID => {
            Ok(Id::Text(Text::new(String::from_str(alloc, text)?)))
        }
        _ => Err(ReadFault::Faulty(LineFault::Id)),
    }
}

// What a JSON tree asks for.
fn asked_of(
    alloc: Global,
    library: &Library,
    clients: u32,
    tree: &Value,
) -> Result<Asked, ReadFault>
    ensures { Gives result (asked_of library.now clients (view tree.now)) }
{
    let Some(member) = tree.get("counts") else {
        return records_or_call(alloc, library, clients, tree);
    };
    if !has_counts_alone(tree) {
        return Err(ReadFault::Faulty(LineFault::Object));
    }
    Ok(counts_in(member)?)
}

// The records that a JSON tree asks for, or the call.
fn records_or_call(
    alloc: Global,
    library: &Library,
    clients: u32,
    tree: &Value,
) -> Result<Asked, ReadFault>
    ensures { Gives result (records_or_call library.now clients (view tree.now) (get (codes "records") (view tree.now))) }
{
    let Some(member) = tree.get("records") else {
        return call_asked(alloc, library, clients, tree);
    };
    if !has_records_alone(tree) {
        return Err(ReadFault::Faulty(LineFault::Object));
    }
    Ok(records_in(member, library.records())?)
}

// The call that a JSON tree asks for.
fn call_asked(
    alloc: Global,
    library: &Library,
    clients: u32,
    tree: &Value,
) -> Result<Asked, ReadFault>
    ensures { Gives result (call_asked library.now clients (view tree.now)) }
{
    if !has_no_other(tree) {
        return Err(ReadFault::Faulty(LineFault::Object));
    }
    let client = client_of(tree)?;
    let name = name_of(tree)?;
    let args = args_of(alloc, tree)?;
    if client >= clients {
        return Err(ReadFault::Faulty(LineFault::NoClient(client)));
    }
    match library.call(name, args.as_slice()) {
        Ok(call) => Ok(Asked::Call(ClientCall { client, call })),
        Err(why) => {
            let why = refusal(alloc, library, name, args.as_slice(), why)?;
            Err(ReadFault::Faulty(why))
        }
    }
}

// What is told if the library does not make a call with this name and these arguments.
fn refusal(
    alloc: Global,
    library: &Library,
    name: &str,
    args: &[u64],
    why: CallFault,
) -> Result<LineFault, AllocError>
    ensures { IfOk result (λ told. told ≡ refusal library.now name.now args.now why) }
{
    match why {
        CallFault::UnknownProc => {
            let name = Text::new(String::from_str(alloc, name)?);
            Ok(LineFault::NoProc(name))
        }
        CallFault::ArgCount => Ok(LineFault::ArgCount(args_of_proc(library, name))),
        CallFault::RecordRange => Ok(LineFault::NoRecord(faulty_arg(library, name, args))),
    }
}

// The number of arguments of the procedure with a name.
fn args_of_proc(library: &Library, name: &str) -> u8
    ensures { result ≡ declared_args (proc_named name.now library.now.procs) }
{
    match proc_named(library, name) {
        Some(procedure) => procedure.args,
        None => 0,
    }
}

// Which argument names a record that is not there.
fn faulty_arg(library: &Library, name: &str, args: &[u64]) -> u8
    ensures { result ≡ no_record library.now.records args.now (declared_keys (proc_named name.now library.now.procs)) }
{
    match proc_named(library, name) {
        Some(procedure) => no_record(library.records(), args, procedure.keys.as_slice()),
        None => 0,
    }
}

// The procedure with a name.
fn proc_named<'l>(library: &'l Library, name: &str) -> Option<&'l Proc>
    ensures { option_map (λ p. p.now) result ≡ proc_named name.now library.now.procs }
{
    let (_, procedure) = library.named(name)?;
    Some(procedure)
}

// The argument by which the first of these keys names no record.
fn no_record(records: u32, args: &[u64], keys: &[KeyDecl]) -> u8
    ensures { result ≡ no_record records args.now keys.now }
{
    for key in keys {
        if let KeyAt::Arg(index) = key.at
            && args.get(index as usize).copied().unwrap_or(0) >= u64::from(records)
        {
            return index;
        }
    }
    0
}

// Whether it is an object with no other members than a line that asks for a call may have.
fn has_no_other(tree: &Value) -> bool
    ensures { result ≡ has_no_other may_names (view tree.now) }
{
    match tree {
        Value::Object(members) => are_known(members),
        _ => false,
    }
}

fn are_known(members: &Map<String, Value>) -> bool
    ensures { result ≡ has_only may_names (members_view members.now.entries) }
{
    members.keys().all(|key| is_known(key.as_str()))
}

fn is_known(name: &str) -> bool
    ensures { result ≡ list_any (bytes_eq name.now) may_names }
{
    matches!(name, "id" | "client" | "proc" | "args")
}

// The number of a client: 0 if it is left out.
fn client_of(tree: &Value) -> Result<u32, LineFault>
    ensures { result ≡ client_of (view tree.now) }
{
    let Some(member) = tree.get("client") else {
        return Ok(0);
    };
    match member.as_u64() {
        Some(number) if number < 4_294_967_296 => Ok(number as u32),
        _ => Err(LineFault::Client),
    }
}

fn name_of(tree: &Value) -> Result<&str, LineFault>
    ensures { Names result (name_of (view tree.now)) }
{
    tree.get("proc")
        .and_then(Value::as_str)
        .ok_or(LineFault::Proc)
}

fn args_of(alloc: Global, tree: &Value) -> Result<Vec<u64>, ReadFault>
    ensures { GivesArgs result (args_of (view tree.now)) }
{
    match tree.get("args").and_then(Value::as_array) {
        Some(list) => numbers_in(alloc, list.as_slice()),
        None => Err(ReadFault::Faulty(LineFault::Args)),
    }
}

// The numbers of a list of arguments.
fn numbers_in(alloc: Global, list: &[Value]) -> Result<Vec<u64>, ReadFault>
    ensures { GivesArgs result (args_by (each number_at (items_view list.now))) }
{
    let mut numbers = Vec::with_capacity(alloc, list.len())?;
    for value in list {
        match value.as_u64() {
            Some(number) => numbers.push(number)?,
            None => return Err(ReadFault::Faulty(LineFault::Arg(numbers.len() as u64))),
        }
    }
    Ok(numbers)
}
