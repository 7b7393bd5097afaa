//! Walks over expressions and statements, linear in their size.
ghost use Rattle.std.specs.Prelude.{◌≡◌, Bool};
ghost use Rattle.std.specs.List.{list_all};
ghost use Rattle.vll_proc.specs.declared.syntax.Expr.{Expr};
ghost use Rattle.vll_proc.specs.declared.syntax.Stmt.{Stmt};
ghost use Rattle.vll_proc.specs.WellFormed.{all_leaves, throughout};

use vll_proc::{Expr, Stmt};

// A test of each number, argument, key position and local.
pub(crate) trait LeafTest {
    ghost passes_leaf: { Self → Expr → Bool };

    fn passes_leaf(&self, leaf: &Expr) -> bool
        ensures { result ≡ passes_leaf self.now leaf.now };
}

// A test of leaves, and of each `Let` and `Set`.
pub(crate) trait Test: LeafTest {
    ghost passes_statement: { Self → Stmt → Bool };

    fn passes_statement(&self, statement: &Stmt) -> bool
        ensures { result ≡ passes_statement self.now statement.now };
}

// Whether each leaf of an expression passes.
#[tactic(auto, using(vll_proc::proofs::Equations::forms))]
pub(crate) fn all_leaves<T: LeafTest>(test: &T, expression: &Expr) -> bool
    ensures { result ≡ all_leaves (T.passes_leaf test.now) expression.now }
{
    match expression {
        Expr::Num(_) | Expr::Arg(_) | Expr::Key(_) | Expr::Local(_) => test.passes_leaf(expression),
        Expr::Add(left, right)
        | Expr::Sub(left, right)
        | Expr::Mul(left, right)
        | Expr::Div(left, right)
        | Expr::Rem(left, right)
        | Expr::Min(left, right)
        | Expr::Max(left, right)
        | Expr::Equal(left, right)
        | Expr::Less(left, right) => all_leaves(test, left.get()) && all_leaves(test, right.get()),
        Expr::Not(operand) => all_leaves(test, operand.get()),
    }
}

// Whether a list passes, including all that its statements contain.
#[cycle(throughout)]
pub(crate) fn list_throughout<T: Test>(test: &T, statements: &[Stmt]) -> bool
    ensures { result
        ≡ list_all (throughout (T.passes_leaf test.now) (T.passes_statement test.now)) statements.now }
{
    for statement in statements {
        if !throughout(test, statement) {
            return false;
        }
    }
    true
}

// Whether a statement passes, including all that it contains.
#[cycle(throughout)]
#[tactic(auto, using(vll_proc::proofs::Lists::branches))]
pub(crate) fn throughout<T: Test>(test: &T, statement: &Stmt) -> bool
    ensures { result
        ≡ throughout (T.passes_leaf test.now) (T.passes_statement test.now) statement.now }
{
    match statement {
        Stmt::Let(_, expression) | Stmt::Set(_, expression) => test.passes_statement(statement)
            && all_leaves(test, expression),
        Stmt::If(condition, first, second) => {
            all_leaves(test, condition)
                && list_throughout(test, first.as_slice())
                && list_throughout(test, second.as_slice())
        }
        Stmt::Abort(_) => true,
        Stmt::Reply(expression) => all_leaves(test, expression),
        Stmt::Repeat(_, list) => list_throughout(test, list.as_slice()),
    }
}
