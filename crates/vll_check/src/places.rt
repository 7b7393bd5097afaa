//! The tests of key positions, arguments and locals that a body names.
ghost use Rattle.std.specs.Prelude.{true};
ghost use Rattle.vll_proc.specs.WellFormed as formed;

use crate::walk::{LeafTest, Test};
use vll_proc::{Expr, KeyDecl, MOST_LOCALS, Stmt};
use vll_record::Mode;

// Each key position that is read or set is below a number.
#[derive(Clone, Copy)]
pub(crate) struct KnownKeys {
    pub(crate) count: usize,
}

impl LeafTest for KnownKeys {
    ghost passes_leaf = { λ test leaf. formed.key_is_below test.count leaf };

    fn passes_leaf(&self, leaf: &Expr) -> bool {
        match leaf {
            Expr::Key(i) => (*i as usize) < self.count,
            _ => true,
        }
    }
}

impl Test for KnownKeys {
    ghost passes_statement = { λ test statement. formed.set_is_below test.count statement };

    fn passes_statement(&self, statement: &Stmt) -> bool {
        match statement {
            Stmt::Set(i, _) => (*i as usize) < self.count,
            _ => true,
        }
    }
}

// No key position that is set is declared Read.
#[derive(Clone, Copy)]
pub(crate) struct WritableKeys<'a> {
    pub(crate) keys: &'a [KeyDecl],
}

impl LeafTest for WritableKeys<'_> {
    ghost passes_leaf = { λ test leaf. formed.any_leaf leaf };

    fn passes_leaf(&self, _leaf: &Expr) -> bool {
        true
    }
}

impl Test for WritableKeys<'_> {
    ghost passes_statement = { λ test statement. formed.sets_no_read_key test.keys.now statement };

    fn passes_statement(&self, statement: &Stmt) -> bool {
        match statement {
            Stmt::Set(i, _) => match self.keys.get(*i as usize) {
                Some(key) => key.mode == Mode::Write,
                None => true,
            },
            _ => true,
        }
    }
}

// Each argument that is read is below a number.
#[derive(Clone, Copy)]
pub(crate) struct KnownArgs {
    pub(crate) count: u8,
}

impl LeafTest for KnownArgs {
    ghost passes_leaf = { λ test leaf. formed.arg_is_below test.count leaf };

    fn passes_leaf(&self, leaf: &Expr) -> bool {
        match leaf {
            Expr::Arg(i) => *i < self.count,
            _ => true,
        }
    }
}

impl Test for KnownArgs {
    ghost passes_statement = { λ test statement. formed.any_stmt statement };

    fn passes_statement(&self, _stmt: &Stmt) -> bool {
        true
    }
}

// Each local that is read or set exists.
#[derive(Clone, Copy)]
pub(crate) struct KnownLocals;

impl LeafTest for KnownLocals {
    ghost passes_leaf = { λ test leaf. formed.local_is_known leaf };

    fn passes_leaf(&self, leaf: &Expr) -> bool {
        match leaf {
            Expr::Local(i) => (*i as usize) < MOST_LOCALS,
            _ => true,
        }
    }
}

impl Test for KnownLocals {
    ghost passes_statement = { λ test statement. formed.let_is_known statement };

    fn passes_statement(&self, statement: &Stmt) -> bool {
        match statement {
            Stmt::Let(i, _) => (*i as usize) < MOST_LOCALS,
            _ => true,
        }
    }
}
