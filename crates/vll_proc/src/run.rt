//! The run of a body on the cells of a frame: its statements, its expressions and their operators.
ghost use Rattle.std.specs.Prelude.{◌≡◌, ◌+◌, ◌*◌, ◌<◌, ◌≤◌, ◌&&◌, ◌^◌, ◌==◌, ℕ, true, length, map, drop, sum_by, nat_lt, OnOk, slice_index};
ghost use Rattle.std.specs.List.{list_all};
ghost use Rattle.vll_proc.specs.Headline.Meaning.{sum, difference, product, quotient, remainder, value_of, effect, in_turn, repeated};
ghost use Rattle.vll_proc.specs.Private.Running.{scene_of, HasCells, HasCellsBelow, ended, noted, behind, operation_of};
ghost use Rattle.vll_proc.specs.WellFormed.{all_leaves, throughout, key_is_below, arg_is_below, local_is_known, set_is_below, let_is_known, any_stmt, replies};

use crate::call::{Call, Reason};
use crate::frame::Frame;
use crate::limits::{MOST_ARGS, MOST_LOCALS, MOST_OUTPUTS};
use crate::outputs::Outputs;
use crate::syntax::{Expr, Stmt};
use crate::taken::turns_taken;
use vll_record::MOST_CLAIMS;

// What changes while a body runs, besides the cells of its frame.
#[derive(Clone, Copy)]
pub(crate) struct Progress {
    pub(crate) locals: [u64; MOST_LOCALS],
    pub(crate) outputs: Outputs,
}

impl Progress {
    // Runs statements in order, up to the first reason.
    #[cycle(statement)]
    pub(crate) fn steps(
        &mut self,
        cells: &mut Frame,
        statements: &[Stmt],
        call: &Call,
    ) -> Result<(), Reason>
        requires cells { HasCells call.now }
        requires keys { list_all (throughout (key_is_below MOST_CLAIMS) (set_is_below MOST_CLAIMS)) statements.now ≡ true }
        requires args { list_all (throughout (arg_is_below MOST_ARGS) any_stmt) statements.now ≡ true }
        requires locals { list_all (throughout local_is_known let_is_known) statements.now ≡ true }
        requires room { length self.old.outputs + sum_by replies statements.now ≤ MOST_OUTPUTS }
        ensures effect { in_turn (map effect statements.now) (scene_of call.now cells.old self.old)
            ≡ ended result (scene_of call.now cells.new self.new) }
        ensures others { (n : ℕ) → HasCellsBelow n call.now → drop n cells.new ≡ drop n cells.old }
        ensures outputs { OnOk result
            (length self.new.outputs ≤ length self.old.outputs + sum_by replies statements.now) }
    {
        for statement in statements {
            self.step(cells, statement, call)?;
        }
        Ok(())
    }

    // Runs one statement.
    #[cycle(statement)]
    #[tactic(auto, using(crate::proofs::Lists::branches))]
    fn step(&mut self, cells: &mut Frame, statement: &Stmt, call: &Call) -> Result<(), Reason>
        requires cells { HasCells call.now }
        requires keys { throughout (key_is_below MOST_CLAIMS) (set_is_below MOST_CLAIMS) statement.now ≡ true }
        requires args { throughout (arg_is_below MOST_ARGS) any_stmt statement.now ≡ true }
        requires locals { throughout local_is_known let_is_known statement.now ≡ true }
        requires room { length self.old.outputs + replies statement.now ≤ MOST_OUTPUTS }
        ensures effect { effect statement.now (scene_of call.now cells.old self.old)
            ≡ ended result (scene_of call.now cells.new self.new) }
        ensures others { (n : ℕ) → HasCellsBelow n call.now → drop n cells.new ≡ drop n cells.old }
        ensures outputs { OnOk result
            (length self.new.outputs ≤ length self.old.outputs + replies statement.now) }
    {
        match statement {
            Stmt::Let(i, expr) => {
                let value = self.value(cells, expr, call)?;
                self.locals[*i as usize] = value;
                Ok(())
            }
            Stmt::Set(i, expr) => {
                let value = self.value(cells, expr, call)?;
                cells.put(call.cells[*i as usize] as usize, value);
                Ok(())
            }
            Stmt::If(expr, first, second) => {
                if self.value(cells, expr, call)? != 0 {
                    self.steps(cells, first.as_slice(), call)
                } else {
                    self.steps(cells, second.as_slice(), call)
                }
            }
            Stmt::Abort(code) => Err(Reason::Code(*code)),
            Stmt::Reply(expr) => {
                let value = self.value(cells, expr, call)?;
                self.outputs.push(value);
                Ok(())
            }
            Stmt::Repeat(count, list) => {
                let list = list.as_slice();
                self.turns(cells, turns_taken(*count, list), list, call)
            }
        }
    }

    // Runs statements in order, `count` times, up to the first reason.
    #[cycle(statement)]
    fn turns(
        &mut self,
        cells: &mut Frame,
        count: u8,
        statements: &[Stmt],
        call: &Call,
    ) -> Result<(), Reason>
        requires cells { HasCells call.now }
        requires keys { list_all (throughout (key_is_below MOST_CLAIMS) (set_is_below MOST_CLAIMS)) statements.now ≡ true }
        requires args { list_all (throughout (arg_is_below MOST_ARGS) any_stmt) statements.now ≡ true }
        requires locals { list_all (throughout local_is_known let_is_known) statements.now ≡ true }
        requires room { length self.old.outputs + count * sum_by replies statements.now ≤ MOST_OUTPUTS }
        ensures effect { repeated count (in_turn (map effect statements.now)) (scene_of call.now cells.old self.old)
            ≡ ended result (scene_of call.now cells.new self.new) }
        ensures others { (n : ℕ) → HasCellsBelow n call.now → drop n cells.new ≡ drop n cells.old }
        ensures outputs { OnOk result
            (length self.new.outputs ≤ length self.old.outputs + count * sum_by replies statements.now) }
    {
        for _ in 0..count {
            self.steps(cells, statements, call)?;
        }
        Ok(())
    }

    // The value of an expression, or the first reason met while computing it.
    #[inline(always)]
    fn value(&self, cells: &Frame, expr: &Expr, call: &Call) -> Result<u64, Reason>
        requires cells { HasCells call.now }
        requires keys { all_leaves (key_is_below MOST_CLAIMS) expr.now ≡ true }
        requires args { all_leaves (arg_is_below MOST_ARGS) expr.now ≡ true }
        requires locals { all_leaves local_is_known expr.now ≡ true }
        ensures { result ≡ value_of expr.now (scene_of call.now cells.now self.now) }
    {
        let mut why = None;
        let number = self.operand(cells, expr, call, &mut why);
        match why {
            None => Ok(number),
            Some(reason) => Err(reason),
        }
    }

    // The number that an expression evaluates to. The first reason is noted, and what is computed after it means
    // nothing: so each operator passes a plain number, not a `Result`, up to the next.
    #[cycle(expression)]
    #[tactic(auto, using(crate::proofs::Equations::forms))]
    fn number(&self, cells: &Frame, expr: &Expr, call: &Call, why: &mut Option<Reason>) -> u64
        requires cells { HasCells call.now }
        requires keys { all_leaves (key_is_below MOST_CLAIMS) expr.now ≡ true }
        requires args { all_leaves (arg_is_below MOST_ARGS) expr.now ≡ true }
        requires locals { all_leaves local_is_known expr.now ≡ true }
        ensures { noted why.new result ≡ behind why.old (value_of expr.now (scene_of call.now cells.now self.now)) }
    {
        match expr {
            Expr::Num(n) => *n,
            Expr::Arg(i) => call.args[*i as usize],
            Expr::Key(i) => value_at(cells, *i, call),
            Expr::Local(i) => self.locals[*i as usize],
            Expr::Not(a) => u64::from(self.operand(cells, a.get(), call, why) == 0),
            Expr::Add(a, b)
            | Expr::Sub(a, b)
            | Expr::Mul(a, b)
            | Expr::Div(a, b)
            | Expr::Rem(a, b)
            | Expr::Min(a, b)
            | Expr::Max(a, b)
            | Expr::Equal(a, b)
            | Expr::Less(a, b) => {
                let x = self.operand(cells, a.get(), call, why);
                let y = self.operand(cells, b.get(), call, why);
                number_or_reason(operation(expr, x, y), why)
            }
        }
    }

    // As `number`, for an operand. A leaf is evaluated without a function call.
    #[cycle(expression)]
    #[inline(always)]
    fn operand(&self, cells: &Frame, expr: &Expr, call: &Call, why: &mut Option<Reason>) -> u64
        requires cells { HasCells call.now }
        requires keys { all_leaves (key_is_below MOST_CLAIMS) expr.now ≡ true }
        requires args { all_leaves (arg_is_below MOST_ARGS) expr.now ≡ true }
        requires locals { all_leaves local_is_known expr.now ≡ true }
        ensures { noted why.new result ≡ behind why.old (value_of expr.now (scene_of call.now cells.now self.now)) }
    {
        match expr {
            Expr::Num(n) => *n,
            Expr::Arg(i) => call.args[*i as usize],
            Expr::Key(i) => value_at(cells, *i, call),
            Expr::Local(i) => self.locals[*i as usize],
            _ => self.number(cells, expr, call, why),
        }
    }
}

// The value in the cell that a key position names.
#[inline(always)]
fn value_at(cells: &Frame, i: u8, call: &Call) -> u64
    requires cells { HasCells call.now }
    requires known { i < MOST_CLAIMS }
    ensures { result ≡ slice_index cells.now (slice_index call.now.cells i) }
{
    cells.get(call.cells[i as usize] as usize)
}

// The result of an expression's operator on two operands, and 0 if it does not have two.
#[inline(always)]
fn operation(expr: &Expr, x: u64, y: u64) -> Result<u64, Reason>
    ensures { result ≡ operation_of expr.now x y }
{
    match expr {
        Expr::Add(_, _) => sum(x, y),
        Expr::Sub(_, _) => difference(x, y),
        Expr::Mul(_, _) => product(x, y),
        Expr::Div(_, _) => quotient(x, y),
        Expr::Rem(_, _) => remainder(x, y),
        Expr::Min(_, _) => Ok(x.min(y)),
        Expr::Max(_, _) => Ok(x.max(y)),
        Expr::Equal(_, _) => Ok(u64::from(x == y)),
        Expr::Less(_, _) => Ok(u64::from(x < y)),
        Expr::Num(_) | Expr::Arg(_) | Expr::Key(_) | Expr::Local(_) | Expr::Not(_) => Ok(0),
    }
}

// The number in a result, or 0. A reason is noted, if it is the first.
#[inline(always)]
fn number_or_reason(result_of: Result<u64, Reason>, why: &mut Option<Reason>) -> u64
    ensures { noted why.new result ≡ behind why.old result_of }
{
    match result_of {
        Ok(number) => number,
        Err(reason) => {
            note(reason, why);
            0
        }
    }
}

// Notes a reason, if it is the first. Bodies rarely get here.
#[cold]
#[inline(never)]
fn note(reason: Reason, why: &mut Option<Reason>)
    ensures { (number : ℕ) → noted why.new number ≡ behind why.old (Err reason) }
{
    if why.is_none() {
        *why = Some(reason);
    }
}

fn sum(x: u64, y: u64) -> Result<u64, Reason>
    ensures { result ≡ sum x y }
{
    x.checked_add(y).ok_or(Reason::Overflow)
}

fn difference(x: u64, y: u64) -> Result<u64, Reason>
    ensures { result ≡ difference x y }
{
    x.checked_sub(y).ok_or(Reason::Underflow)
}

fn product(x: u64, y: u64) -> Result<u64, Reason>
    ensures { result ≡ product x y }
{
    x.checked_mul(y).ok_or(Reason::Overflow)
}

// Rounded down.
fn quotient(x: u64, y: u64) -> Result<u64, Reason>
    ensures { result ≡ quotient x y }
{
    if y == 0 {
        return Err(Reason::ZeroDivisor);
    }
    Ok(x / y)
}

fn remainder(x: u64, y: u64) -> Result<u64, Reason>
    ensures { result ≡ remainder x y }
{
    if y == 0 {
        return Err(Reason::ZeroDivisor);
    }
    Ok(x % y)
}
