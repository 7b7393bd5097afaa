//! Which locals are surely set.
ghost use Rattle.std.specs.Prelude.{◌≡◌, true, false, get_or, slice_set, Some, None, if◌then◌else◌};
ghost use Rattle.vll_proc.specs.WellFormed.{nothing_set, both_set, local_is_set, set_behind, body_set_behind, reads_set, body_reads_set};

use crate::walk::{LeafTest, all_leaves};
use std::marker::Model;
use vll_proc::{Expr, MOST_LOCALS, Stmt};

/// For each local, whether it is surely set. Contracts see this as a list.
#[derive(Clone, Copy)]
pub struct Locals {
    set: [bool; MOST_LOCALS],
}

impl Model for Locals {
    ghost use Rattle.std.specs.Prelude.{Bool, List};

    ghost Value = { List Bool };

    ghost view = { λ l. l.set };

    ghost inverse = { λ set. record { set = set } };
}

impl Locals {
    pub(crate) fn new() -> Locals
        ensures { result ≡ nothing_set }
    {
        Locals {
            set: [false; MOST_LOCALS],
        }
    }

    fn has(&self, i: u8) -> bool
        ensures { result ≡ get_or self.now i false }
    {
        let i = i as usize;
        i < MOST_LOCALS && self.set[i]
    }

    // No local has an index of `MOST_LOCALS` or more.
    pub(crate) fn with(mut self, i: u8) -> Locals
        ensures { result ≡ slice_set self i true }
    {
        let i = i as usize;
        if i < MOST_LOCALS {
            self.set[i] = true;
        }
        self
    }

    // The locals that both have set.
    pub(crate) fn both(&self, other: &Locals) -> Locals
        ensures { result ≡ both_set self.now other.now }
    {
        let mut set = self.set;
        for i in 0..MOST_LOCALS {
            set[i] &= other.set[i];
        }
        Locals { set }
    }
}

impl LeafTest for Locals {
    ghost passes_leaf = { λ set leaf. local_is_set set leaf };

    fn passes_leaf(&self, leaf: &Expr) -> bool {
        match leaf {
            Expr::Local(i) => self.has(*i),
            _ => true,
        }
    }
}

// What is surely set after a list, or `None` if it reads a local that is not surely set before.
#[cycle(set_behind)]
pub(crate) fn list_set_behind(statements: &[Stmt], before: Locals) -> Option<Locals>
    ensures { result ≡ (if body_reads_set before statements.now
        then Some (body_set_behind statements.now before) else None) }
{
    let mut set = before;
    for statement in statements {
        set = set_behind(statement, set)?;
    }
    Some(set)
}

// As `list_set_behind`, for a statement.
#[cycle(set_behind)]
#[tactic(auto, using(vll_proc::proofs::Lists::branches))]
pub(crate) fn set_behind(statement: &Stmt, before: Locals) -> Option<Locals>
    ensures { result ≡ (if reads_set before statement.now
        then Some (set_behind statement.now before) else None) }
{
    match statement {
        Stmt::Let(i, expression) => { all_leaves(&before, expression).then_some(before.with(*i)) }
        Stmt::Set(_, expression) | Stmt::Reply(expression) => {
            all_leaves(&before, expression).then_some(before)
        }
        Stmt::If(condition, first, second) => {
            if !all_leaves(&before, condition) {
                return None;
            }
            let behind_first = list_set_behind(first.as_slice(), before)?;
            let behind_second = list_set_behind(second.as_slice(), before)?;
            Some(behind_first.both(&behind_second))
        }
        Stmt::Abort(_) => Some(before),
        Stmt::Repeat(turns, list) => {
            let behind = list_set_behind(list.as_slice(), before)?;
            Some(if *turns == 0 { before } else { behind })
        }
    }
}
