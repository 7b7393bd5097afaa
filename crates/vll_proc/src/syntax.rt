//! The syntax of stored procedures: expressions, statements, key positions, editions, and procedures with their names.
ghost use Rattle.std.specs.Prelude.{◌≡◌, string_bytes};
ghost use Rattle.vll_proc.specs.Headline.Meaning.{source_at, source_of};

use sqlite_items::{Boxed, Items};
use std::marker::Model;
use vll_record::Mode;

/// An expression over numbers of 64 bits. Operands are evaluated from left to right.
#[derive(Drop)]
pub enum Expr {
    /// A number.
    Num(u64),
    /// An argument of the call, by its index from 0.
    Arg(u8),
    /// The current value of the record that a key position names.
    Key(u8),
    /// A local, by its index from 0, below `MOST_LOCALS`.
    Local(u8),
    /// The sum. Above 18446744073709551615 the call is aborted with `Overflow`.
    Add(Boxed<Expr>, Boxed<Expr>),
    /// Left minus right. If right is greater, the call is aborted with `Underflow`.
    Sub(Boxed<Expr>, Boxed<Expr>),
    /// The product. Above 18446744073709551615 the call is aborted with `Overflow`.
    Mul(Boxed<Expr>, Boxed<Expr>),
    /// The quotient, rounded down. If right is 0, the call is aborted with `ZeroDivisor`.
    Div(Boxed<Expr>, Boxed<Expr>),
    /// The remainder. If right is 0, the call is aborted with `ZeroDivisor`.
    Rem(Boxed<Expr>, Boxed<Expr>),
    /// The lesser operand.
    Min(Boxed<Expr>, Boxed<Expr>),
    /// The greater operand.
    Max(Boxed<Expr>, Boxed<Expr>),
    /// 1 if the operands are equal, else 0.
    Equal(Boxed<Expr>, Boxed<Expr>),
    /// 1 if left is less than right, else 0.
    Less(Boxed<Expr>, Boxed<Expr>),
    /// 1 if the operand is 0, else 0.
    Not(Boxed<Expr>),
}

/// A statement of a procedure's body.
#[derive(Drop)]
pub enum Stmt {
    /// Sets a local, by its index from 0, to a value.
    Let(u8, Expr),
    /// Sets the record that a key position names to a new value.
    Set(u8, Expr),
    /// Runs its first list if the expression is not 0, else its second.
    If(Expr, Items<Stmt>, Items<Stmt>),
    /// Aborts the call with the procedure's own code.
    Abort(u16),
    /// Appends an output.
    Reply(Expr),
    /// Runs its list this many times, each turn from where the one before ended. An abort ends the call.
    Repeat(u8, Items<Stmt>),
}

/// How a key position names its record.
#[derive(Clone, Copy, PartialEq, Eq, Debug)]
pub enum KeyAt {
    /// Always this record.
    Fixed(u32),
    /// The record whose number is this argument, by its index from 0.
    Arg(u8),
    /// The record found by the value of another key position's record: that value modulo the number of records. The
    /// other position, by its index from 0, comes before this one and names its record directly.
    Through(u8),
}

impl KeyAt {
    /// Returns the index, from 0, of the key position by whose record's value this one's record is found, or `None`
    /// if this one names its record directly.
    pub fn source(&self) -> Option<u8>
        ensures { result ≡ source_at self.now }
    {
        match *self {
            KeyAt::Fixed(_) | KeyAt::Arg(_) => None,
            KeyAt::Through(i) => Some(i),
        }
    }
}

/// A key position: the record it names, and how a call claims that record.
#[derive(Clone, Copy, PartialEq, Eq, Debug)]
pub struct KeyDecl {
    pub mode: Mode,
    pub at: KeyAt,
}

/// The edition of the format in which a procedure is written. It determines which statements and
/// how many key positions the procedure may have.
#[derive(Clone, Copy, PartialEq, Eq, Debug)]
pub enum Edition {
    /// No `Repeat`, and at most `FIRST_MOST_KEYS` key positions.
    One,
    /// A `Repeat` of at most `MOST_TURNS` turns, and at most `MOST_CLAIMS` key positions.
    Two,
}

/// A stored procedure: its edition, its name, the number of its arguments, the keys it declares, and its body.
#[derive(Drop)]
pub struct Proc {
    pub edition: Edition,
    pub name: Text,
    pub args: u8,
    pub keys: Items<KeyDecl>,
    pub body: Items<Stmt>,
}

impl Proc {
    /// Returns the index, from 0, of the key position by whose record's value another one's record is found, if there
    /// is one.
    pub fn source(&self) -> Option<u8>
        ensures { result ≡ source_of self.now.keys }
    {
        source_of(self.keys.as_slice())
    }
}

// As `Proc::source`, for a list of key positions.
fn source_of(keys: &[KeyDecl]) -> Option<u8>
    ensures { result ≡ source_of keys.now }
{
    match keys {
        [] => None,
        [key, others @ ..] => match key.at.source() {
            Some(place) => Some(place),
            None => source_of(others),
        },
    }
}

/// A `String` that contracts see as its bytes.
#[derive(Drop)]
pub struct Text {
    inner: String,
}

impl Model for Text {
    ghost use Rattle.std.specs.Prelude.{ℕ, List, string_bytes};
    ghost use Rattle.std.specs.Coded.{coded_list, coded_ℕ};

    ghost Value = { List ℕ };

    ghost coded = { coded_list coded_ℕ };

    ghost view = { λ t. string_bytes t.inner };
}

impl Text {
    /// Wraps a `String`. It allocates no memory.
    pub fn new(text: String) -> Text
        ensures { result ≡ string_bytes text }
    {
        Text { inner: text }
    }

    /// Returns the `String`.
    pub fn into_string(self) -> String
        ensures { string_bytes result ≡ self }
    {
        self.inner
    }

    /// Returns the text as a `str`.
    pub fn as_str(&self) -> &str
        ensures { result.now ≡ self.now }
    {
        self.inner.as_str()
    }
}
