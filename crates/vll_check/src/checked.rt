//! A checked procedure, with the number of records it was checked for and what a library notes about it.
ghost use Rattle.std.specs.Prelude.{◌≡◌, None};
ghost use Rattle.vll_check.specs.Faults.{check_fault};
ghost use Rattle.vll_proc.specs.Headline.Meaning.{source_of};

use std::marker::Model;
use vll_proc::Proc;

/// A procedure that passed every test of `check`, for a number of records. Only `check` makes one.
#[derive(Drop)]
pub struct Checked {
    pub(crate) procedure: Proc,
    pub(crate) records: u32,
    // A library keeps its list sorted by name. Each entry also has its procedure's number, and the index
    // of the procedure whose number is this entry's index.
    pub(crate) number: u32,
    pub(crate) place: u32,
    // The key position by whose record's value another one's record is found, so that no call has to look for it.
    pub(crate) source: Option<u8>,
}

impl Model for Checked {
    ghost use Rattle.vll_proc.specs.contracts.syntax.Expr as expr;
    ghost use Rattle.vll_proc.specs.contracts.syntax.Stmt as stmt;
    ghost use Rattle.std.specs.Coded.{codes};
    ghost use Rattle.vll_check.specs.Entry.{Entry};

    ghost Value = { Entry };

    ghost coded = { Prim.hlevel (codes, expr.the_row.coded, stmt.the_row.coded) };

    ghost use Rattle.vll_check.specs.Private.Kept.{entry_of, HasPassed};

    ghost view = { entry_of };

    ghost invariant = { HasPassed };
}

impl Checked {
    /// Returns the procedure that was checked. It passes every test for `records`.
    pub fn proc(&self) -> &Proc
        ensures procedure { result.now ≡ self.now.procedure }
        ensures passed { check_fault self.now.records self.now.procedure ≡ None }
    {
        &self.procedure
    }

    /// The key position by whose record's value another one's record is found, if there is one.
    pub(crate) fn source(&self) -> Option<u8>
        ensures { result ≡ source_of self.now.procedure.keys }
    {
        self.source
    }

    /// Returns the number of records for which it was checked.
    pub fn records(&self) -> u32
        ensures { result ≡ self.now.records }
    {
        self.records
    }

    /// The procedure's name.
    pub(crate) fn name(&self) -> &str
        ensures { result.now ≡ self.now.procedure.name }
    {
        self.procedure.name.as_str()
    }

    /// The procedure's number in its library.
    pub(crate) fn number(&self) -> u32
        ensures { result ≡ self.now.number }
    {
        self.number
    }

    /// The index of the procedure whose number is this entry's index.
    pub(crate) fn place(&self) -> u32
        ensures { result ≡ self.now.place }
    {
        self.place
    }

    /// Sets the procedure's number. Nothing else changes.
    pub(crate) fn set_number(&mut self, number: u32)
        ensures set { self.new ≡ record self.old { number = number } }
        ensures passed { check_fault self.old.records self.old.procedure ≡ None }
    {
        self.number = number;
    }

    /// Sets the index of the procedure whose number is this entry's index. Nothing else changes.
    pub(crate) fn set_place(&mut self, place: u32)
        ensures { self.new ≡ record self.old { place = place } }
    {
        self.place = place;
    }
}
