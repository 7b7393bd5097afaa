//! A line as it was read: what it asks for, or why it asks for nothing.
use std::fmt;
use vll_proc::{Call, Text};
use vll_scenario::Shortened;

/// What a client names a line by. It comes back with the answer.
#[derive(Drop)]
pub enum Id {
    Number(u64),
    /// At most `MOST_ID` bytes.
    Text(Text),
}

/// A call, and the client that makes it.
#[derive(Clone, Copy)]
pub struct ClientCall {
    pub client: u32,
    pub call: Call,
}

/// Some of the records, one after the other: the first one's number, and how many.
#[derive(Clone, Copy, PartialEq, Eq, Debug)]
pub struct RecordRange {
    pub first: u32,
    pub count: u32,
}

/// What a line asks for.
#[derive(Clone, Copy)]
pub enum Asked {
    /// That a client makes a call.
    Call(ClientCall),
    /// What the service has done so far.
    Counts,
    /// The values of at most `MOST_READ` records, all of which there are.
    Records(RecordRange),
}

/// Why a line asks for nothing. Of several reasons the first in this order is told.
#[derive(Drop)]
pub enum LineFault {
    /// The line has more than `MOST_LINE` bytes.
    Long,
    /// The line has no bytes.
    Empty,
    /// The line is not a JSON text. The number is the column, from 1, up to which it was read.
    Json(u64),
    /// The member `id` is neither a whole number of 64 bits without a sign nor a text of at most `MOST_ID` bytes.
    Id,
    /// The JSON text is not an object, or has other members than `id`, `client`, `proc` and `args`, or than `id` and
    /// `counts` if it has `counts`, or else than `id` and `records` if it has `records`.
    Object,
    /// The member `counts` is not true.
    Counts,
    /// The member `records` is not a list of two whole numbers of 64 bits without a sign.
    Records,
    /// The member `records` asks for more than `MOST_READ` records, or for some that there are not.
    Range,
    /// The member `client` is no whole number of 32 bits without a sign.
    Client,
    /// The member `proc` is missing, or not a text.
    Proc,
    /// The member `args` is missing, or not a list.
    Args,
    /// The first argument, by its index, that is not a whole number of 64 bits without a sign.
    Arg(u64),
    /// There is no client with this number.
    NoClient(u32),
    /// No procedure has this name.
    NoProc(Text),
    /// Not the number of arguments that the procedure declares, which is this one.
    ArgCount(u8),
    /// The argument at this index names a key's record, and is not below the number of records. Of several it is that
    /// of the first key.
    NoRecord(u8),
}

/// The words that are told of it.
impl fmt::Display for LineFault {
    ghost use Rattle.std.specs.Prelude.{Some};
    ghost use Rattle.vll_lines.specs.Answers.{fault_words};

    ghost output = { λ why. Some (fault_words why) };

    fn fmt<W: fmt::Write>(&self, f: &mut fmt::Formatter<W>) -> fmt::Result {
        match self {
            LineFault::Long => f.write_str("the line has more than 65536 bytes"),
            LineFault::Empty => f.write_str("the line is empty"),
            LineFault::Json(column) => write!(f, "no JSON text: column {column}"),
            LineFault::Id => {
                f.write_str("id has to be a whole number or a text of at most 64 bytes")
            }
            LineFault::Object => {
                f.write_str(
                    "the line has to be an object with proc, args and perhaps client and id",
                )
            }
            LineFault::Counts => f.write_str("counts has to be true"),
            LineFault::Records => f.write_str(
                "records has to be a list of two whole numbers, the first record and how many",
            ),
            LineFault::Range => {
                f.write_str("records has to ask for at most 1024 records, all of which there are")
            }
            LineFault::Client => f.write_str("client has to be the number of a client"),
            LineFault::Proc => f.write_str("proc has to be the name of a procedure"),
            LineFault::Args => f.write_str("args has to be a list of whole numbers"),
            LineFault::Arg(index) => write!(
                f,
                "argument {index} has to be a whole number of 64 bits without a sign"
            ),
            LineFault::NoClient(client) => write!(f, "there is no client {client}"),
            LineFault::NoProc(name) => {
                let shown = Shortened::new(name.as_str());
                f.write_str("no procedure has the name ")?;
                f.write_str(shown.beginning)?;
                f.write_str(shown.dots)
            }
            LineFault::ArgCount(count) => write!(f, "the number of arguments has to be {count}"),
            LineFault::NoRecord(index) => write!(
                f,
                "argument {index} has to be the number of a record"
            ),
        }
    }
}

/// A line as it was read: its id, if it has one, and what it asks for or why it asks for nothing.
#[derive(Drop)]
pub struct Request {
    pub id: Option<Id>,
    pub asked: Result<Asked, LineFault>,
}
