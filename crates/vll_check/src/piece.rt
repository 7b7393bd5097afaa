//! The tests of a procedure, each for a piece of it alone. They find the piece that is at fault once a procedure has
//! been refused.
ghost use Rattle.std.specs.Prelude.{◌≡◌, ◌≤◌, true, length};
ghost use Rattle.vll_proc.specs.WellFormed.{has_few_keys};
ghost use Rattle.vll_record.specs.declared.claims.TheConstants.{MOST_CLAIMS};
ghost use Rattle.vll_check.specs.Pieces.{after_key, args_pass, expression_passes, join, key_passes, keys_pass, list_passes, nothing_before, statement_passes, with_local};

use crate::checker::{
    argument_is_declared, has_declared_key_args, has_earlier_sources, has_one_indirect_key,
    has_records, has_source, is_direct, most_keys, record_is_there,
};
use crate::fault::CheckFault;
use crate::locals::{Locals, list_set_behind, set_behind};
use crate::measure::{is_within, nodes_left, replies_left, statement_is_within, weight_left};
use crate::places::{KnownArgs, KnownKeys, KnownLocals, WritableKeys};
use crate::turns::{list_turns_are_few, turns_are_few};
use crate::walk::{all_leaves, list_throughout, throughout};
use vll_proc::{
    Expr, KeyDecl, MOST_ARGS, MOST_DEPTH, MOST_NODES, MOST_OUTPUTS, MOST_WEIGHT, Proc, Stmt,
};

/// The test for one fault of a procedure, asked piece by piece: the procedure passes if each of its pieces does.
#[derive(Drop)]
pub struct Piecewise {
    pub procedure: Proc,
    /// The number of records.
    pub records: u32,
    pub fault: CheckFault,
}

/// What came before a piece of a procedure.
#[derive(Clone, Copy)]
pub struct Before {
    /// Whether there was an indirect key position.
    pub indirect: bool,
    /// Which locals are surely set.
    pub set: Locals,
}

impl Before {
    /// Before the first piece of a procedure.
    pub fn new() -> Before
        ensures { result ≡ nothing_before }
    {
        Before {
            indirect: false,
            set: Locals::new(),
        }
    }

    /// Notes that a key position comes before what is tested next.
    pub fn pass_key(&mut self, key: &KeyDecl)
        ensures { self.new ≡ after_key self.old key.now }
    {
        self.indirect = self.indirect || !is_direct(Some(key));
    }

    /// What comes before the piece behind a `Let` of this local.
    pub fn with_local(self, index: u8) -> Before
        ensures { result ≡ with_local self index }
    {
        Before {
            indirect: self.indirect,
            set: self.set.with(index),
        }
    }

    /// What comes before the piece behind an `If` whose two lists end with `self` and `other`: a local is set if both
    /// have set it.
    pub fn join(self, other: &Before) -> Before
        ensures { result ≡ join self other.now }
    {
        Before {
            indirect: self.indirect,
            set: self.set.both(&other.set),
        }
    }
}

impl Piecewise {
    /// Whether the number of arguments passes.
    pub fn args_pass(&self) -> bool
        ensures { result ≡ args_pass self.now.fault self.now.procedure }
    {
        match self.fault {
            CheckFault::TooManyArgs => self.procedure.args as usize <= MOST_ARGS,
            _ => true,
        }
    }

    /// Whether all key positions pass.
    pub fn keys_pass(&self) -> bool
        ensures { result ≡ keys_pass self.now.fault self.now.records self.now.procedure }
    {
        let procedure = &self.procedure;
        match self.fault {
            CheckFault::TooManyKeys => has_few_keys(procedure),
            CheckFault::KeyArg => has_declared_key_args(procedure),
            CheckFault::FixedRecord => has_records(procedure, self.records),
            CheckFault::ThroughKey => has_few_keys(procedure) && has_earlier_sources(procedure),
            CheckFault::TwoThrough => has_few_keys(procedure) && has_one_indirect_key(procedure),
            _ => true,
        }
    }

    /// Whether the key position at this index passes.
    pub fn key_passes(&self, before: &Before, place: usize, key: &KeyDecl) -> bool
        ensures { result ≡ key_passes self.now.fault self.now.records self.now.procedure before.now place key.now }
    {
        match self.fault {
            CheckFault::KeyArg => argument_is_declared(key, self.procedure.args),
            CheckFault::FixedRecord => record_is_there(key, self.records),
            CheckFault::ThroughKey => has_source(self.procedure.keys.as_slice(), place, key),
            CheckFault::TwoThrough => !before.indirect || is_direct(Some(key)),
            _ => true,
        }
    }

    /// Whether a list of statements passes.
    pub fn list_passes(&self, before: &Before, list: &[Stmt]) -> bool
        ensures { result ≡ list_passes self.now.fault self.now.procedure before.now list.now }
    {
        let Proc {
            edition,
            args,
            keys,
            ..
        } = &self.procedure;
        match self.fault {
            CheckFault::UnknownKey => list_throughout(&KnownKeys { count: keys.len() }, list),
            CheckFault::NotWritable => list_throughout(
                &WritableKeys {
                    keys: keys.as_slice(),
                },
                list,
            ),
            CheckFault::UnknownArg => list_throughout(&KnownArgs { count: *args }, list),
            CheckFault::UnknownLocal => list_throughout(&KnownLocals, list),
            CheckFault::UnsetLocal => list_set_behind(list, before.set).is_some(),
            CheckFault::TooManyReplies => replies_left(list, MOST_OUTPUTS as u32).is_some(),
            CheckFault::TooDeep => is_within(list, MOST_DEPTH),
            CheckFault::TooLong => nodes_left(list, MOST_NODES).is_some(),
            CheckFault::Turns => list_turns_are_few(list, *edition),
            CheckFault::TooMuchWork => weight_left(list, MOST_WEIGHT).is_some(),
            _ => true,
        }
    }

    /// Whether a statement passes.
    pub fn statement_passes(&self, before: &Before, statement: &Stmt) -> bool
        ensures { result ≡ statement_passes self.now.fault self.now.procedure before.now statement.now }
    {
        let Proc {
            edition,
            args,
            keys,
            ..
        } = &self.procedure;
        match self.fault {
            CheckFault::UnknownKey => throughout(&KnownKeys { count: keys.len() }, statement),
            CheckFault::NotWritable => throughout(
                &WritableKeys {
                    keys: keys.as_slice(),
                },
                statement,
            ),
            CheckFault::UnknownArg => throughout(&KnownArgs { count: *args }, statement),
            CheckFault::UnknownLocal => throughout(&KnownLocals, statement),
            CheckFault::UnsetLocal => set_behind(statement, before.set).is_some(),
            CheckFault::TooDeep => statement_is_within(statement, MOST_DEPTH),
            CheckFault::Turns => turns_are_few(statement, *edition),
            _ => true,
        }
    }

    /// Whether an expression passes.
    pub fn expression_passes(&self, before: &Before, expression: &Expr) -> bool
        ensures { result ≡ expression_passes self.now.fault self.now.procedure before.now expression.now }
    {
        let Proc { args, keys, .. } = &self.procedure;
        match self.fault {
            CheckFault::UnknownKey => all_leaves(&KnownKeys { count: keys.len() }, expression),
            CheckFault::UnknownArg => all_leaves(&KnownArgs { count: *args }, expression),
            CheckFault::UnknownLocal => all_leaves(&KnownLocals, expression),
            CheckFault::UnsetLocal => all_leaves(&before.set, expression),
            _ => true,
        }
    }
}

fn has_few_keys(procedure: &Proc) -> bool
    ensures value { result ≡ has_few_keys procedure.now }
    ensures few { result ≡ true → length procedure.now.keys ≤ MOST_CLAIMS }
{
    procedure.keys.len() <= most_keys(procedure.edition)
}
