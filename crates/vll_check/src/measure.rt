//! Limits of a body. They are counted down, so no count overflows, and each walk stops once a limit is
//! exceeded. The turns of a `Repeat` share what is left of a limit, so its list is walked once.
ghost use Rattle.std.specs.Prelude.{◌≡◌, ◌+◌, ◌<◌, nat_le, sum_by, IfSome, IfNone};
ghost use Rattle.vll_proc.specs.WellFormed.{depth, stmt_depth, body_depth, nodes, stmt_nodes, replies, weight};

use vll_proc::{Expr, Stmt};

// What is left of a limit on replies after a list, or `None` if the list has more.
#[cycle(replies)]
pub(crate) fn replies_left(statements: &[Stmt], limit: u32) -> Option<u32>
    ensures enough { IfSome result (λ left. left + sum_by replies statements.now ≡ limit) }
    ensures over { IfNone result (limit < sum_by replies statements.now) }
{
    let mut left = limit;
    for statement in statements {
        left = statement_replies_left(statement, left)?;
    }
    Some(left)
}

// As `replies_left`, for a statement: a call runs one of the two lists of an `If`, and the list of a
// `Repeat` in each turn.
#[cycle(replies)]
#[tactic(auto, using(vll_proc::proofs::Lists::branches))]
fn statement_replies_left(statement: &Stmt, limit: u32) -> Option<u32>
    ensures enough { IfSome result (λ left. left + replies statement.now ≡ limit) }
    ensures over { IfNone result (limit < replies statement.now) }
{
    match statement {
        Stmt::If(_, first, second) => {
            let behind_first = replies_left(first.as_slice(), limit)?;
            let behind_second = replies_left(second.as_slice(), limit)?;
            Some(behind_first.min(behind_second))
        }
        Stmt::Reply(_) => limit.checked_sub(1),
        Stmt::Let(_, _) | Stmt::Set(_, _) | Stmt::Abort(_) => Some(limit),
        Stmt::Repeat(turns, list) => {
            let turns = *turns as u32;
            let Some(share) = limit.checked_div(turns) else {
                return Some(limit);
            };
            let taken = share - replies_left(list.as_slice(), share)?;
            Some(limit - turns * taken)
        }
    }
}

// What is left of a limit on nodes after a list, or `None` if the list has more.
#[cycle(nodes)]
pub(crate) fn nodes_left(statements: &[Stmt], limit: u32) -> Option<u32>
    ensures enough { IfSome result (λ left. left + sum_by stmt_nodes statements.now ≡ limit) }
    ensures over { IfNone result (limit < sum_by stmt_nodes statements.now) }
{
    let mut left = limit;
    for statement in statements {
        left = statement_nodes_left(statement, left)?;
    }
    Some(left)
}

// As `nodes_left`, for a statement, which is itself a node.
#[cycle(nodes)]
#[tactic(auto, using(vll_proc::proofs::Lists::branches))]
fn statement_nodes_left(statement: &Stmt, limit: u32) -> Option<u32>
    ensures enough { IfSome result (λ left. left + stmt_nodes statement.now ≡ limit) }
    ensures over { IfNone result (limit < stmt_nodes statement.now) }
{
    let left = limit.checked_sub(1)?;
    match statement {
        Stmt::Let(_, expression) | Stmt::Set(_, expression) | Stmt::Reply(expression) => {
            expression_nodes_left(expression, left)
        }
        Stmt::If(condition, first, second) => {
            let left = expression_nodes_left(condition, left)?;
            let left = nodes_left(first.as_slice(), left)?;
            nodes_left(second.as_slice(), left)
        }
        Stmt::Abort(_) => Some(left),
        Stmt::Repeat(_, list) => nodes_left(list.as_slice(), left),
    }
}

// What is left of a limit on weight after a list, or `None` if the list has more.
#[cycle(weight)]
pub(crate) fn weight_left(statements: &[Stmt], limit: u32) -> Option<u32>
    ensures enough { IfSome result (λ left. left + sum_by weight statements.now ≡ limit) }
    ensures over { IfNone result (limit < sum_by weight statements.now) }
{
    let mut left = limit;
    for statement in statements {
        left = statement_weight_left(statement, left)?;
    }
    Some(left)
}

// As `weight_left`, for a statement: a `Repeat` weighs 1, and the weight of its list in each turn.
#[cycle(weight)]
#[tactic(auto, using(vll_proc::proofs::Lists::branches))]
fn statement_weight_left(statement: &Stmt, limit: u32) -> Option<u32>
    ensures enough { IfSome result (λ left. left + weight statement.now ≡ limit) }
    ensures over { IfNone result (limit < weight statement.now) }
{
    let left = limit.checked_sub(1)?;
    match statement {
        Stmt::Let(_, expression) | Stmt::Set(_, expression) | Stmt::Reply(expression) => {
            expression_nodes_left(expression, left)
        }
        Stmt::If(condition, first, second) => {
            let left = expression_nodes_left(condition, left)?;
            let left = weight_left(first.as_slice(), left)?;
            weight_left(second.as_slice(), left)
        }
        Stmt::Abort(_) => Some(left),
        Stmt::Repeat(turns, list) => {
            let turns = *turns as u32;
            let Some(share) = left.checked_div(turns) else {
                return Some(left);
            };
            let taken = share - weight_left(list.as_slice(), share)?;
            Some(left - turns * taken)
        }
    }
}

// As `nodes_left`, for an expression.
#[tactic(auto, using(vll_proc::proofs::Equations::forms))]
fn expression_nodes_left(expression: &Expr, limit: u32) -> Option<u32>
    ensures enough { IfSome result (λ left. left + nodes expression.now ≡ limit) }
    ensures over { IfNone result (limit < nodes expression.now) }
{
    let left = limit.checked_sub(1)?;
    match expression {
        Expr::Num(_) | Expr::Arg(_) | Expr::Key(_) | Expr::Local(_) => Some(left),
        Expr::Add(first, second)
        | Expr::Sub(first, second)
        | Expr::Mul(first, second)
        | Expr::Div(first, second)
        | Expr::Rem(first, second)
        | Expr::Min(first, second)
        | Expr::Max(first, second)
        | Expr::Equal(first, second)
        | Expr::Less(first, second) => {
            let left = expression_nodes_left(first.get(), left)?;
            expression_nodes_left(second.get(), left)
        }
        Expr::Not(operand) => expression_nodes_left(operand.get(), left),
    }
}

// Whether no statement of a list is deeper than a limit.
#[cycle(depth)]
pub(crate) fn is_within(statements: &[Stmt], limit: u32) -> bool
    ensures { result ≡ nat_le (body_depth statements.now) limit }
{
    for statement in statements {
        if !statement_is_within(statement, limit) {
            return false;
        }
    }
    true
}

// Whether a statement is no deeper than a limit.
#[cycle(depth)]
#[tactic(auto, using(vll_proc::proofs::Lists::branches))]
pub(crate) fn statement_is_within(statement: &Stmt, limit: u32) -> bool
    ensures { result ≡ nat_le (stmt_depth statement.now) limit }
{
    let Some(below) = limit.checked_sub(1) else {
        return false;
    };
    match statement {
        Stmt::Let(_, expression) | Stmt::Set(_, expression) | Stmt::Reply(expression) => {
            expression_is_within(expression, below)
        }
        Stmt::If(condition, first, second) => {
            expression_is_within(condition, below)
                && is_within(first.as_slice(), below)
                && is_within(second.as_slice(), below)
        }
        Stmt::Abort(_) => true,
        Stmt::Repeat(_, list) => is_within(list.as_slice(), below),
    }
}

// Whether an expression is no deeper than a limit.
#[tactic(auto, using(vll_proc::proofs::Equations::forms))]
fn expression_is_within(expression: &Expr, limit: u32) -> bool
    ensures { result ≡ nat_le (depth expression.now) limit }
{
    let Some(below) = limit.checked_sub(1) else {
        return false;
    };
    match expression {
        Expr::Num(_) | Expr::Arg(_) | Expr::Key(_) | Expr::Local(_) => true,
        Expr::Add(first, second)
        | Expr::Sub(first, second)
        | Expr::Mul(first, second)
        | Expr::Div(first, second)
        | Expr::Rem(first, second)
        | Expr::Min(first, second)
        | Expr::Max(first, second)
        | Expr::Equal(first, second)
        | Expr::Less(first, second) => {
            expression_is_within(first.get(), below) && expression_is_within(second.get(), below)
        }
        Expr::Not(operand) => expression_is_within(operand.get(), below),
    }
}
