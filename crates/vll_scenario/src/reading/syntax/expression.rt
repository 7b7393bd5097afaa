//! Reading expressions from JSON.
ghost use Rattle.std.specs.Prelude.{Some};
ghost use Rattle.serde_json.specs.View.{view};
ghost use Rattle.vll_scenario.specs.Syntax.{expr_at, index_at, leaf, operation};
ghost use Rattle.vll_scenario.specs.Tree.{Gives};

use super::{index_of, word_of};
use crate::reading::tree::Misread;
use serde_json::Value;
use sqlite_items::Boxed;
use std::alloc::Global;
use vll_proc::Expr;

/// Reads an expression. `Faulty` means that the value is not one, `NoMemory` that memory ran out.
#[cycle(expressions)]
pub fn expr_of(alloc: Global, value: &Value) -> Result<Expr, Misread>
    ensures { Gives result (expr_at (view value.now)) }
{
    match value {
        Value::Number(n) => n.as_u64().map(Expr::Num).ok_or(Misread::Faulty),
        Value::Array(list) => match list.len() {
            2 => match word_of(&list[0])? {
                "not" => Ok(Expr::Not(operand_of(alloc, &list[1])?)),
                word => leaf_of(word, &list[1]),
            },
            3 => {
                let word = word_of(&list[0])?;
                let (left, right) = (&list[1], &list[2]);
                let left = operand_of(alloc, left)?;
                let right = operand_of(alloc, right)?;
                operation_of(word, left, right)
            }
            _ => Err(Misread::Faulty),
        },
        _ => Err(Misread::Faulty),
    }
}

#[cycle(expressions)]
fn operand_of(alloc: Global, value: &Value) -> Result<Boxed<Expr>, Misread>
    ensures { Gives result (expr_at (view value.now)) }
{
    let operand = expr_of(alloc, value)?;
    Ok(Boxed::new(alloc, operand)?)
}

// An argument, a key or a local.
fn leaf_of(word: &str, index: &Value) -> Result<Expr, Misread>
    ensures { Gives result (leaf word.now (index_at (view index.now))) }
{
    let index = index_of(index)?;
    match word {
        "arg" => Ok(Expr::Arg(index)),
        "key" => Ok(Expr::Key(index)),
        "local" => Ok(Expr::Local(index)),
        _ => Err(Misread::Faulty),
    }
}

// An operation on two operands.
fn operation_of(word: &str, left: Boxed<Expr>, right: Boxed<Expr>) -> Result<Expr, Misread>
    ensures { Gives result (operation word.now (Some left) (Some right)) }
{
    match word {
        "add" => Ok(Expr::Add(left, right)),
        "sub" => Ok(Expr::Sub(left, right)),
        "mul" => Ok(Expr::Mul(left, right)),
        "div" => Ok(Expr::Div(left, right)),
        "rem" => Ok(Expr::Rem(left, right)),
        "min" => Ok(Expr::Min(left, right)),
        "max" => Ok(Expr::Max(left, right)),
        "equal" => Ok(Expr::Equal(left, right)),
        "less" => Ok(Expr::Less(left, right)),
        _ => Err(Misread::Faulty),
    }
}
