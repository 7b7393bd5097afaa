//! The library of a server's checked procedures, which finds them by name or number and makes their calls.
ghost use Rattle.std.specs.Prelude.{◌≡◌, ◌<◌, ◌^◌, All, length, map, slice_get, IfOk, is_err, option_map, IfNone, IfSome, IsTrue, Some, ◌↔◌};
ghost use Rattle.vll_check.specs.Headline.Calls.{source, with_found};
ghost use Rattle.vll_check.specs.Calls.{call_made, Fits, IsReady};
ghost use Rattle.vll_check.specs.Catalog.{IsCatalog};
ghost use Rattle.vll_check.specs.Names.{has_name_twice, number_named};
ghost use Rattle.vll_check.specs.Entry.{procedure_of};

use crate::call::{call_to, found_for, is_made_for, is_ready_for, source_for};
use crate::checked::Checked;
use crate::fault::{CallFault, NameTwice};
use crate::order::arrange;
use std::marker::Model;
use vll_proc::{Call, Proc};
use vll_record::RecordId;

/// The procedures of a server, checked for its number of records, each with a unique name.
#[derive(Drop)]
pub struct Library {
    records: u32,
    // Sorted by name.
    procs: Vec<Checked>,
}

impl Model for Library {
    ghost use Rattle.vll_proc.specs.contracts.syntax.Expr as expr;
    ghost use Rattle.vll_proc.specs.contracts.syntax.Stmt as stmt;
    ghost use Rattle.std.specs.Coded.{codes};
    ghost use Rattle.vll_check.specs.Headline.Catalog.{Catalog};

    ghost Value = { Catalog };

    ghost coded = { Prim.hlevel (codes, expr.the_row.coded, stmt.the_row.coded) };

    ghost use Rattle.vll_check.specs.Private.Library.{catalog_of, IsLibrary};

    ghost view = { catalog_of };

    ghost invariant = { IsLibrary };
}

impl Library {
    /// Returns the library of these procedures, fewer than 2^32 and each checked for this number of records. Their
    /// numbers are their indices in the list, from 0. It refuses a list exactly if two have the same name, and then
    /// drops it. It allocates no memory.
    pub fn new(records: u32, mut procs: Vec<Checked>) -> Result<Library, NameTwice>
        requires for_records { All (λ c. c.records ≡ records) procs.items }
        requires few { length procs.items < 2 ^ 32 }
        ensures ok { IfOk result (λ l. l ≡ record { records = records; procs = map procedure_of procs.items }) }
        ensures twice { is_err result ≡ has_name_twice (map procedure_of procs.items) }
    {
        arrange(&mut procs)?;
        Ok(Library { records, procs })
    }

    /// Returns the number of records for which the procedures were checked.
    pub fn records(&self) -> u32
        ensures records { result ≡ self.now.records }
        ensures catalog { IsCatalog self.now }
    {
        self.records
    }

    /// Returns the procedure with a number, or `None` exactly if the number is not below the number of procedures. It
    /// allocates no memory.
    pub fn proc(&self, number: u32) -> Option<&Proc>
        ensures procedure { option_map (λ p. p.now) result ≡ slice_get self.now.procs number }
        ensures catalog { IsCatalog self.now }
    {
        Some(self.checked(number)?.proc())
    }

    // As `proc`, with what was noted when the procedure was checked.
    fn checked(&self, number: u32) -> Option<&Checked>
        ensures procedure { option_map (λ c. c.now.procedure) result ≡ slice_get self.now.procs number }
        ensures catalog { IsCatalog self.now }
    {
        let entry = self.procs.get(number as usize)?;
        Some(&self.procs[entry.place() as usize])
    }

    /// Returns the number of the procedure with a name, and the procedure. It allocates no memory, and takes about
    /// log n comparisons for n procedures.
    pub fn named(&self, name: &str) -> Option<(u32, &Proc)>
        ensures number { option_map (λ found. found.0) result ≡ number_named name.now self.now.procs }
        ensures procedure { IfSome result (λ found. slice_get self.now.procs found.0 ≡ Some found.1.now) }
        ensures catalog { IsCatalog self.now }
    {
        match self.procs.binary_search_by(|entry| entry.name().cmp(name)) {
            Ok(place) => {
                let entry = &self.procs[place];
                Some((entry.number(), entry.proc()))
            }
            Err(_) => None,
        }
    }

    /// Returns the call of the procedure with a name, or the lowest fault that applies: `UnknownProc` if
    /// no procedure has the name, `ArgCount` if the number of arguments is not the declared one, and
    /// `RecordRange` if an argument that names a key's record is not below the number of records. No value is found for
    /// the call yet, and its claims are those that the keys ask for; an indirect key asks for none. It allocates no
    /// memory.
    pub fn call(&self, name: &str, args: &[u64]) -> Result<Call, CallFault>
        ensures { result ≡ call_made self.now name.now args.now }
    {
        let Some((number, procedure)) = self.named(name) else {
            return Err(CallFault::UnknownProc);
        };
        call_to(self.records(), number, procedure, args)
    }

    /// Reports whether a call is one that `call` returns for this library. It allocates no memory.
    pub fn fits(&self, call: &Call) -> bool
        ensures { IsTrue result ↔ Fits self.now call.now }
    {
        match self.proc(call.number) {
            Some(procedure) => is_made_for(self.records(), procedure, call),
            None => false,
        }
    }

    /// Returns the record by whose value a call that fits finds the record of its indirect key, or `None` exactly if
    /// its procedure has no indirect key: such a call is ready as it is. It allocates no memory.
    pub fn source(&self, call: &Call) -> Option<RecordId>
        requires { Fits self.now call.now }
        ensures source { result ≡ source self.now call.now }
        ensures within { IfSome result (λ r. r < self.now.records) }
        ensures ready { IfNone result (IsReady self.now call.now) }
    {
        let checked = self.checked(call.number)?;
        let place = checked.source()?;
        source_for(self.records(), checked.proc(), place, call)
    }

    /// Returns a call that fits with a value that was found: its indirect key names the record whose number is the
    /// value modulo the number of records, and the claims are those of all its keys. A call without an indirect key is
    /// returned unchanged. It allocates no memory.
    pub fn with_found(&self, call: &Call, value: u64) -> Call
        requires { Fits self.now call.now }
        ensures call { result ≡ with_found self.now call.now value }
        ensures ready { IsReady self.now result }
    {
        match self.proc(call.number) {
            Some(procedure) => found_for(self.records(), procedure, call, value),
            None => unreachable!(),
        }
    }

    /// Reports whether a call may enter: it fits and has no indirect key, or `with_found` returns it. It allocates no
    /// memory.
    pub fn is_ready(&self, call: &Call) -> bool
        ensures { IsTrue result ↔ IsReady self.now call.now }
    {
        match self.proc(call.number) {
            Some(procedure) => is_ready_for(self.records(), procedure, call),
            None => false,
        }
    }
}
