//! Reading statements from JSON.
ghost use Rattle.std.specs.Prelude.{Some};
ghost use Rattle.serde_json.specs.View.{items_view, view};
ghost use Rattle.vll_scenario.specs.Syntax.{abort_or_reply, branch, code_at, each_stmt, expr_at, let_or_set, repeat, stmt_at, stmts_at};
ghost use Rattle.vll_scenario.specs.Tree.{Gives};

use super::expression::expr_of;
use super::{index_of, word_of};
use crate::reading::tree::Misread;
use serde_json::Value;
use sqlite_items::Items;
use std::alloc::Global;
use vll_proc::{Edition, Stmt};

/// Reads a list of statements of an edition. `Faulty` means that the value is not one, `NoMemory` that memory ran out.
#[cycle(statements)]
pub fn stmts_of(alloc: Global, edition: Edition, value: &Value) -> Result<Items<Stmt>, Misread>
    ensures { Gives result (stmts_at edition (view value.now)) }
{
    match value {
        Value::Array(list) => each_stmt_of(alloc, edition, list.as_slice()),
        _ => Err(Misread::Faulty),
    }
}

#[cycle(statements)]
fn each_stmt_of(alloc: Global, edition: Edition, list: &[Value]) -> Result<Items<Stmt>, Misread>
    ensures { Gives result (each_stmt edition (items_view list.now)) }
{
    let mut stmts = Items::new(alloc);
    for value in list {
        stmts.push(stmt_of(alloc, edition, value)?)?;
    }
    Ok(stmts)
}

/// Reads a statement of an edition. `Faulty` means that the value is not one, `NoMemory` that memory ran out.
#[cycle(statements)]
pub fn stmt_of(alloc: Global, edition: Edition, value: &Value) -> Result<Stmt, Misread>
    ensures { Gives result (stmt_at edition (view value.now)) }
{
    match value {
        Value::Array(list) => match list.len() {
            2 => abort_or_reply(alloc, word_of(&list[0])?, &list[1]),
            3 => match word_of(&list[0])? {
                "repeat" => {
                    let turns = index_of(&list[1])?;
                    let stmts = stmts_of(alloc, edition, &list[2])?;
                    repeat_of(edition, turns, stmts)
                }
                word => let_or_set(alloc, word, &list[1], &list[2]),
            },
            4 => {
                let word = word_of(&list[0])?;
                let (test, first, second) = (&list[1], &list[2], &list[3]);
                let first = stmts_of(alloc, edition, first)?;
                let second = stmts_of(alloc, edition, second)?;
                branch_of(alloc, word, test, first, second)
            }
            _ => Err(Misread::Faulty),
        },
        _ => Err(Misread::Faulty),
    }
}

// An `if` with an expression and two lists.
fn branch_of(
    alloc: Global,
    word: &str,
    test: &Value,
    first: Items<Stmt>,
    second: Items<Stmt>,
) -> Result<Stmt, Misread>
    ensures { Gives result (branch word.now (expr_at (view test.now)) (Some first) (Some second)) }
{
    match word {
        "if" => Ok(Stmt::If(expr_of(alloc, test)?, first, second)),
        _ => Err(Misread::Faulty),
    }
}

// A `repeat` of a list, which edition One does not have.
fn repeat_of(edition: Edition, turns: u8, stmts: Items<Stmt>) -> Result<Stmt, Misread>
    ensures { Gives result (repeat edition (Some turns) (Some stmts)) }
{
    match edition {
        Edition::One => Err(Misread::Faulty),
        Edition::Two => Ok(Stmt::Repeat(turns, stmts)),
    }
}

fn abort_or_reply(alloc: Global, word: &str, value: &Value) -> Result<Stmt, Misread>
    ensures { Gives result (abort_or_reply word.now (view value.now)) }
{
    match word {
        "abort" => Ok(Stmt::Abort(code_of(value)?)),
        "reply" => Ok(Stmt::Reply(expr_of(alloc, value)?)),
        _ => Err(Misread::Faulty),
    }
}

fn let_or_set(alloc: Global, word: &str, index: &Value, value: &Value) -> Result<Stmt, Misread>
    ensures { Gives result (let_or_set word.now (view index.now) (view value.now)) }
{
    match word {
        "let" => Ok(Stmt::Let(index_of(index)?, expr_of(alloc, value)?)),
        "set" => Ok(Stmt::Set(index_of(index)?, expr_of(alloc, value)?)),
        _ => Err(Misread::Faulty),
    }
}

/// Reads the code of an abort: a whole number below 65,536. `Faulty` means that the value is not one.
pub fn code_of(value: &Value) -> Result<u16, Misread>
    ensures { Gives result (code_at (view value.now)) }
{
    match value.as_u64() {
        Some(n) if n < 65_536 => Ok(n as u16),
        _ => Err(Misread::Faulty),
    }
}
