//! The pieces of a scenario, and how they nest.
ghost use Rattle.std.specs.Prelude.{◌≡◌, ◌++◌, ◌∷◌, [], List};
ghost use Rattle.vll_fault_path.specs.Pieces.{item_kind, item_step};

use std::fmt;

/// What a piece of a scenario has to be.
#[derive(Clone, Copy, PartialEq, Eq, Debug)]
pub enum Kind {
    Version,
    /// Any whole number of 64 bits.
    Number,
    /// A whole number of 32 bits.
    Whole,
    /// An index or a count, of 8 bits.
    Index,
    /// The code of an abort.
    Code,
    Text,
    Hash,
    /// The list of the records' first values.
    Records,
    Procedures,
    Procedure,
    Keys,
    Key,
    Statements,
    Statement,
    Expression,
    /// The list of the clients' scripts.
    Scripts,
    Script,
    Call,
    /// The list of a call's arguments.
    Arguments,
    Schedule,
    Event,
}

/// A step from a piece of a scenario to a piece inside it. Its text is what an explanation prints for it.
#[derive(Clone, Copy, PartialEq, Eq, Debug)]
pub enum Step {
    Version,
    Records,
    Procs,
    Clients,
    Cap,
    Bits,
    Limit,
    Hash,
    Schedule,
    /// An item of a list that is a member of the scenario.
    Item(usize),
    Name,
    Args,
    Keys,
    Key(usize),
    Body,
    Statement(usize),
    Call(usize),
    Proc,
    Argument(usize),
    Index,
    Record,
    Code,
    Value,
    Test,
    FirstList,
    SecondList,
    Count,
    List,
    Operand,
    LeftOperand,
    RightOperand,
    Client,
    Ticket,
}

impl fmt::Display for Step {
    ghost use Rattle.std.specs.Prelude.{Some};
    ghost use Rattle.vll_fault_path.specs.Ways.{step_words};

    ghost output = { λ step. Some (step_words step) };

    fn fmt<W: fmt::Write>(&self, f: &mut fmt::Formatter<W>) -> fmt::Result {
        f.write_str(match *self {
            Step::Item(index) => return write!(f, " {index}"),
            Step::Key(index) => return write!(f, ", key {index}"),
            Step::Statement(index) => return write!(f, ", statement {index}"),
            Step::Call(index) => return write!(f, ", call {index}"),
            Step::Argument(index) => return write!(f, ", argument {index}"),
            Step::Version => "version",
            Step::Records => "records",
            Step::Procs => "procs",
            Step::Clients => "clients",
            Step::Cap => "cap",
            Step::Bits => "bits",
            Step::Limit => "limit",
            Step::Hash => "hash",
            Step::Schedule => "schedule",
            Step::Name => ", name",
            Step::Args => ", args",
            Step::Keys => ", keys",
            Step::Body => ", body",
            Step::Proc => ", proc",
            Step::Index => ", index",
            Step::Record => ", record",
            Step::Code => ", code",
            Step::Value => ", value",
            Step::Test => ", test",
            Step::FirstList => ", first list",
            Step::SecondList => ", second list",
            Step::Count => ", count",
            Step::List => ", list",
            Step::Operand => ", operand",
            Step::LeftOperand => ", left operand",
            Step::RightOperand => ", right operand",
            Step::Client => ", client",
            Step::Ticket => ", ticket",
        })
    }
}

// Takes the last step of a way back.
pub(crate) fn step_back(steps: &mut Vec<Step>)
    ensures { (others : List Step) (last : Step) → steps.old.items ≡ others ++ last ∷ [] → steps.new.items ≡ others }
{
    steps.pop();
}

// What the items of a piece have to be, if it is a list of any length.
pub(crate) fn item_kind(list: Kind) -> Option<Kind>
    ensures { result ≡ item_kind list }
{
    match list {
        Kind::Records | Kind::Arguments => Some(Kind::Number),
        Kind::Procedures => Some(Kind::Procedure),
        Kind::Scripts => Some(Kind::Script),
        Kind::Schedule => Some(Kind::Event),
        Kind::Script => Some(Kind::Call),
        Kind::Keys => Some(Kind::Key),
        Kind::Statements => Some(Kind::Statement),
        _ => None,
    }
}

// The step to an item of such a list.
pub(crate) fn item_step(list: Kind, index: usize) -> Step
    ensures { result ≡ item_step list index }
{
    match list {
        Kind::Script => Step::Call(index),
        Kind::Arguments => Step::Argument(index),
        Kind::Keys => Step::Key(index),
        Kind::Statements => Step::Statement(index),
        _ => Step::Item(index),
    }
}
