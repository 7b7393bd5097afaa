//! Reading a line token by token, of which no tree is made. A line that does not ask for a call is then read as a tree,
//! which tells why.
ghost use Rattle.std.specs.Prelude.{◌≡◌, ◌<◌, IfOk, IfSome, OnSome, Ok, Some, length, true};
ghost use Rattle.json.specs.Json.{items, value};
ghost use Rattle.serde_json.specs.Data.{Data, Members, array, number, object, put, string, unsigned};
ghost use Rattle.serde_json.specs.Read.{converted, number_of, of_items};
ghost use Rattle.vll_scenario.specs.Scenario.{IsTree};
ghost use Rattle.vll_lines.specs.Request.{IsRequest, request_of, id_in};
ghost use Rattle.vll_lines.specs.Private.Tokens.{AreRead, IsRead, Says, numbers_in};

use crate::limits::MOST_ID;
use crate::reading::read_tree;
use crate::request::{Asked, ClientCall, Id, Request};
use fast_float::Numeral;
use json::{Reader, Scratch, Token};
use std::alloc::{AllocError, Global};
use std::str;
use vll_check::Library;
use vll_proc::Text;

/// Reads lines one after the other, and uses the same memory for all of them.
#[derive(Drop)]
pub struct LineReader {
    alloc: Global,
    scratch: Scratch,
    // The arguments of a call.
    args: Vec<u64>,
}

impl LineReader {
    /// Makes a reader of lines. It allocates nothing yet.
    pub fn new(alloc: Global) -> LineReader {
        LineReader {
            alloc,
            scratch: Scratch::new(alloc),
            args: Vec::new(alloc),
        }
    }

    /// Reads what a line asks for, without its line feed, and a call only of a client below `clients`. A line of more
    /// than `MOST_LINE` bytes is not to be read: it is `LineFault::Long`. Fails only for want of memory.
    pub fn read(
        &mut self,
        library: &Library,
        clients: u32,
        line: &[u8],
    ) -> Result<Request, AllocError>
        ensures { IfOk result (IsRequest library.now clients line.now) }
    {
        match self.read_call(library, clients, line) {
            Some(request) => Ok(request),
            None => read_tree(self.alloc, library, clients, line),
        }
    }

    // Reads the call that a line asks for, unless it asks for none or memory ran out.
    fn read_call(&mut self, library: &Library, clients: u32, line: &[u8]) -> Option<Request>
        ensures { IfSome result (λ request. (tree : Data) × IsTree line.now (Some tree) × (request ≡ request_of library.now clients tree)) }
    {
        let Ok(text) = str::from_utf8(line) else {
            return None;
        };
        let mut reader = Reader::new(text, &mut self.scratch).ok()?;
        let Some(Token::BeginObject) = reader.next() else {
            return None;
        };
        let told = read_members(self.alloc, &mut reader, &mut self.args)?;
        if reader.next().is_some() {
            return None;
        }
        told.request(library, clients, self.args.as_slice())
    }
}

// What the members of a line have told.
#[derive(Drop)]
pub(crate) struct Told<'a> {
    id: Option<Id>,
    // 0 if it is left out.
    client: u32,
    // The name of a procedure.
    name: Option<&'a str>,
    // Whether there are arguments, which stand in a list of their own.
    has_args: bool,
}

impl<'a> Told<'a> {
    // The line with these members and arguments, if it asks for a call.
    fn request(self, library: &Library, clients: u32, args: &[u64]) -> Option<Request>
        ensures { IfSome result (λ request. (found : Members) → Says self.entry args.now found → request ≡ request_of library.now clients (object found)) }
    {
        let name = self.name?;
        if !self.has_args || self.client >= clients {
            return None;
        }
        let call = library.call(name, args).ok()?;
        Some(Request {
            id: self.id,
            asked: Ok(Asked::Call(ClientCall {
                client: self.client,
                call,
            })),
        })
    }
}

// Reads the members of an object after its brace, unless one of them is not what a call has.
fn read_members<'a>(alloc: Global, reader: &mut Reader<'a>, args: &mut Vec<u64>) -> Option<Told<'a>>
    ensures { IfSome result (λ told. (found : Members) × AreRead reader.old found reader.new × Says told args.new.items found) }
{
    let mut told = Told {
        id: None,
        client: 0,
        name: None,
        has_args: false,
    };
    'members: while let Some(key) = reader.next_key().ok()? {
        read_member(alloc, reader, key, &mut told, args)?;
    }
    Some(told)
}

// Reads the member with this key. The last of several members with one key counts.
fn read_member<'a>(
    alloc: Global,
    reader: &mut Reader<'a>,
    key: &str,
    told: &mut Told<'a>,
    args: &mut Vec<u64>,
) -> Option<()>
    ensures read { OnSome result ((d : Data) × IsRead 126 reader.old d reader.new
        × ((found : Members) → Says told.old args.old.items found → Says told.new args.new.items (put key.now d found))) }
    ensures shorter { OnSome result (length reader.new < length reader.old) }
{
    match key {
        "id" => told.id = Some(read_id(alloc, reader)?),
        "client" => {
            let number = read_client(reader)?;
            told.client = number;
        }
        "proc" => told.name = Some(read_text(reader)?),
        "args" => {
            read_args(reader, args)?;
            told.has_args = true;
        }
        _ => return None,
    }
    Some(())
}

fn read_id(alloc: Global, reader: &mut Reader<'_>) -> Option<Id>
    ensures read { IfSome result (λ it. (d : Data) × IsRead 126 reader.old d reader.new × (id_in d ≡ Ok it)) }
    ensures shorter { OnSome result (length reader.new < length reader.old) }
{
    match reader.next()? {
        Token::Number(text) => Some(Id::Number(unsigned(text)?)),
        Token::String(text) if text.len() <= MOST_ID => {
            Some(Id::Text(Text::new(String::from_str(alloc, text).ok()?)))
        }
        _ => None,
    }
}

fn read_client(reader: &mut Reader<'_>) -> Option<u32>
    ensures read { IfSome result (λ n. IsRead 126 reader.old (number (unsigned n)) reader.new) }
    ensures shorter { OnSome result (length reader.new < length reader.old) }
{
    let number = read_number(reader)?;
    if number > u64::from(u32::MAX) {
        return None;
    }
    Some(number as u32)
}

fn read_text<'a>(reader: &mut Reader<'a>) -> Option<&'a str>
    ensures read { IfSome result (λ s. IsRead 126 reader.old (string s.now) reader.new) }
    ensures shorter { OnSome result (length reader.new < length reader.old) }
{
    match reader.next()? {
        Token::String(text) => Some(text),
        _ => None,
    }
}

// Reads a list of numbers, in place of those that were read before.
fn read_args(reader: &mut Reader<'_>, args: &mut Vec<u64>) -> Option<()>
    ensures read { OnSome result (IsRead 126 reader.old (array (numbers_in args.new.items)) reader.new) }
    ensures shorter { OnSome result (length reader.new < length reader.old) }
{
    match reader.next()? {
        Token::BeginArray => read_numbers(reader, args),
        _ => None,
    }
}

// As `read_args`, after the bracket.
fn read_numbers(reader: &mut Reader<'_>, args: &mut Vec<u64>) -> Option<()>
    ensures read { OnSome result (converted of_items (items (value 125) (length reader.old) reader.old) ≡ Some (numbers_in args.new.items, reader.new)) }
    ensures shorter { OnSome result (length reader.new < length reader.old) }
{
    args.clear();
    'items: while !reader.take_end_array() {
        args.push(read_number(reader)?).ok()?;
    }
    Some(())
}

// Reads a whole number of 64 bits without a sign.
fn read_number(reader: &mut Reader<'_>) -> Option<u64>
    ensures read { IfSome result (λ n. (depth : _) → IsRead depth reader.old (number (unsigned n)) reader.new) }
    ensures shorter { OnSome result (length reader.new < length reader.old) }
{
    match reader.next()? {
        Token::Number(text) => unsigned(text),
        _ => None,
    }
}

// The number that a token writes, if it is whole, has 64 bits and no sign.
fn unsigned(text: &str) -> Option<u64>
    ensures { IfSome result (λ n. number_of text.now ≡ Some (unsigned n)) }
{
    let bytes = text.as_bytes();
    if bytes.first() == Some(&b'-') {
        return None;
    }
    Numeral::scan(bytes).to_u64()
}
