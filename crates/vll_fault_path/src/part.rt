//! The way into a procedure that is refused, to the part of it that is at fault.
ghost use Rattle.std.specs.Prelude.{◌≡◌, [], List, false, min, suc, OnOk};
ghost use Rattle.vll_proc.specs.WellFormed.{depth};
ghost use Rattle.vll_proc.specs.declared.syntax.Stmt.{Repeat};
ghost use Rattle.vll_check.specs.Pieces.{nothing_before};
ghost use Rattle.vll_fault_path.specs.Parts as part;
ghost use Rattle.vll_fault_path.specs.Parts.{HasParts};
ghost use Rattle.vll_fault_path.specs.Private.{EndsList, EndsSearch, EndsStatement, HasValue, IsDepth, LeadsOn, allows_repeat, is_counted, is_shallow};

use crate::piece::{Step, step_back};
use std::alloc::{AllocError, AllocFailed};
use vll_check::{Before, CheckFault, Piecewise};
use vll_proc::{Edition, Expr, KeyAt, KeyDecl, MOST_DEPTH, MOST_TURNS, Stmt};

// The depth of all that is deeper than a body may be.
const TOO_DEEP: u32 = MOST_DEPTH + 1;

// What holds behind a part that passes.
#[derive(Clone, Copy)]
struct Behind {
    // What comes before the next part.
    before: Before,
    // How deep this one is.
    depth: u32,
}

// Why a search does not come to the end of a part.
#[derive(Drop)]
enum Stop {
    // The part does not pass, and this number stands at the fault, 0 if none does.
    Fault(u64),
    NoMemory,
}

impl From<AllocFailed<Step>> for Stop {
    ghost use Rattle.std.specs.Prelude.{◌≡◌};
    ghost use Rattle.vll_fault_path.specs.declared.part.Stop.TheVariants.{NoMemory};

    ghost from_gives = { λ _ e. e ≡ NoMemory };

    fn from(_: AllocFailed<Step>) -> Stop {
        Stop::NoMemory
    }
}

// Appends the steps from a procedure to the part of it that does not pass its test. Returns the number that stands in
// this part, 0 if there is none.
pub(crate) fn push_parts(steps: &mut Vec<Step>, test: &Piecewise) -> Result<u64, AllocError>
    ensures { OnOk result (LeadsOn test.now nothing_before (part.whole test.now.procedure) steps.old.items steps.new.items) }
{
    let keys = test.procedure.keys.as_slice();
    let body = test.procedure.body.as_slice();
    let before = Before::new();
    if !test.args_pass() {
        steps.push(Step::Args)?;
        return Ok(0);
    }
    if !test.keys_pass() {
        steps.push(Step::Keys)?;
        return push_keys(steps, test, before, keys);
    }
    if is_counted(test.fault) {
        if test.list_passes(&before, body) {
            return Ok(0);
        }
        steps.push(Step::Body)?;
        return Ok(0);
    }
    steps.push(Step::Body)?;
    match search_list(steps, test, &before, body) {
        Ok(_) => {
            step_back(steps);
            Ok(0)
        }
        Err(Stop::Fault(number)) => Ok(number),
        Err(Stop::NoMemory) => Err(AllocError),
    }
}

// Whether a test is of the whole body, and of no statement in it.
fn is_counted(fault: CheckFault) -> bool
    ensures { result ≡ is_counted fault }
{
    matches!(
        fault,
        CheckFault::TooManyReplies | CheckFault::TooLong | CheckFault::TooMuchWork
    )
}

// Appends the step to the key position that does not pass its test. Returns the number that stands in it.
fn push_keys(
    steps: &mut Vec<Step>,
    test: &Piecewise,
    start: Before,
    keys: &[KeyDecl],
) -> Result<u64, AllocError>
    ensures { OnOk result (LeadsOn test.now start (part.keys keys.now) steps.old.items steps.new.items) }
{
    let mut before = start;
    for (i, key) in keys.iter().enumerate() {
        if !test.key_passes(&before, i, key) {
            steps.push(Step::Key(i))?;
            return Ok(number_of_key(key));
        }
        before.pass_key(key);
    }
    Ok(0)
}

fn number_of_key(key: &KeyDecl) -> u64 {
    match key.at {
        KeyAt::Fixed(record) => record as u64,
        KeyAt::Arg(index) | KeyAt::Through(index) => index as u64,
    }
}

// Searches a list of statements for the first part that does not pass, and goes on in it. Each part is read once: the
// steps to it are pushed before it is searched, and popped if it passes.
#[cycle(search_statement)]
fn search_list(
    steps: &mut Vec<Step>,
    test: &Piecewise,
    start: &Before,
    list: &[Stmt],
) -> Result<Behind, Stop>
    requires { is_counted test.now.fault ≡ false }
    ensures { EndsList test.now start.now list.now result steps.old.items steps.new.items }
{
    let mut before = *start;
    let mut depth: u32 = 0;
    for (i, statement) in list.iter().enumerate() {
        steps.push(Step::Statement(i))?;
        let behind = search_statement(steps, test, &before, statement)?;
        step_back(steps);
        before = behind.before;
        depth = depth.max(behind.depth);
    }
    Ok(Behind { before, depth })
}

// The same for a statement.
#[cycle(search_statement)]
fn search_statement(
    steps: &mut Vec<Step>,
    test: &Piecewise,
    before: &Before,
    statement: &Stmt,
) -> Result<Behind, Stop>
    requires { is_counted test.now.fault ≡ false }
    ensures { EndsStatement test.now before.now statement.now result steps.old.items steps.new.items }
{
    match statement {
        Stmt::Let(index, value) => {
            let depth = search_value(steps, test, before, statement, value)?;
            let before = *before;
            let before = before.with_local(*index);
            Ok(Behind { before, depth })
        }
        Stmt::Set(_, value) => {
            let depth = search_value(steps, test, before, statement, value)?;
            let before = *before;
            Ok(Behind { before, depth })
        }
        Stmt::Reply(value) => {
            let depth = search_value(steps, test, before, statement, value)?;
            let before = *before;
            Ok(Behind { before, depth })
        }
        Stmt::Abort(_) => {
            let before = *before;
            Ok(Behind { before, depth: 1 })
        }
        Stmt::If(condition, first, second) => {
            let first = first.as_slice();
            let second = second.as_slice();
            steps.push(Step::Test)?;
            let levels = search_expression(steps, test, before, condition)?;
            step_back(steps);
            steps.push(Step::FirstList)?;
            let behind_first = search_list(steps, test, before, first)?;
            step_back(steps);
            steps.push(Step::SecondList)?;
            let behind_second = search_list(steps, test, before, second)?;
            step_back(steps);
            let depth = one_deeper(levels.max(behind_first.depth.max(behind_second.depth)));
            if !is_shallow(test.fault, depth) {
                return Err(Stop::Fault(0));
            }
            let before_first = behind_first.before;
            let before_second = behind_second.before;
            let before = before_first.join(&before_second);
            Ok(Behind { before, depth })
        }
        Stmt::Repeat(turns, list) => search_repeat(steps, test, before, *turns, list.as_slice()),
    }
}

// The same for a statement that has a value. Returns how deep it is.
fn search_value(
    steps: &mut Vec<Step>,
    test: &Piecewise,
    before: &Before,
    statement: &Stmt,
    value: &Expr,
) -> Result<u32, Stop>
    requires { HasValue statement.now value.now }
    ensures { EndsSearch test.now before.now (part.statement statement.now) (IsDepth (suc (depth value.now))) result steps.old.items steps.new.items }
{
    steps.push(Step::Value)?;
    let depth = search_expression(steps, test, before, value)?;
    step_back(steps);
    if !test.statement_passes(before, statement) {
        return Err(Stop::Fault(number_of_statement(statement)));
    }
    Ok(one_deeper(depth))
}

fn number_of_statement(statement: &Stmt) -> u64 {
    match statement {
        Stmt::Let(index, _) | Stmt::Set(index, _) => *index as u64,
        _ => 0,
    }
}

// The same for a `Repeat`.
#[cycle(search_statement)]
fn search_repeat(
    steps: &mut Vec<Step>,
    test: &Piecewise,
    before: &Before,
    turns: u8,
    list: &[Stmt],
) -> Result<Behind, Stop>
    requires { is_counted test.now.fault ≡ false }
    ensures { EndsStatement test.now before.now (Repeat turns list.now) result steps.old.items steps.new.items }
{
    steps.push(Step::List)?;
    let behind = search_list(steps, test, before, list)?;
    step_back(steps);
    let depth = one_deeper(behind.depth);
    if !allows_repeat(test.fault, test.procedure.edition, turns, depth) {
        return Err(Stop::Fault(turns as u64));
    }
    if turns == 0 {
        let before = *before;
        return Ok(Behind { before, depth });
    }
    let before = behind.before;
    Ok(Behind { before, depth })
}

// The same for an expression. Returns how deep it is.
fn search_expression(
    steps: &mut Vec<Step>,
    test: &Piecewise,
    before: &Before,
    expression: &Expr,
) -> Result<u32, Stop>
    ensures { EndsSearch test.now before.now (part.expression expression.now) (IsDepth (depth expression.now)) result steps.old.items steps.new.items }
{
    match expression {
        Expr::Num(_) => search_leaf(test, before, expression, 0),
        Expr::Arg(index) | Expr::Key(index) | Expr::Local(index) => {
            search_leaf(test, before, expression, *index as u64)
        }
        Expr::Add(left, right)
        | Expr::Sub(left, right)
        | Expr::Mul(left, right)
        | Expr::Div(left, right)
        | Expr::Rem(left, right)
        | Expr::Min(left, right)
        | Expr::Max(left, right)
        | Expr::Equal(left, right)
        | Expr::Less(left, right) => {
            steps.push(Step::LeftOperand)?;
            let left = search_expression(steps, test, before, left.get())?;
            step_back(steps);
            steps.push(Step::RightOperand)?;
            let right = search_expression(steps, test, before, right.get())?;
            step_back(steps);
            Ok(one_deeper(left.max(right)))
        }
        Expr::Not(operand) => {
            steps.push(Step::Operand)?;
            let operand = search_expression(steps, test, before, operand.get())?;
            step_back(steps);
            Ok(one_deeper(operand))
        }
    }
}

// The same for an expression without operands, in which this number stands.
fn search_leaf(test: &Piecewise, before: &Before, leaf: &Expr, number: u64) -> Result<u32, Stop>
    ensures { HasParts (part.expression leaf.now) [] → depth leaf.now ≡ 1 → (steps : List Step)
        → EndsSearch test.now before.now (part.expression leaf.now) (IsDepth (depth leaf.now)) result steps steps }
{
    if !test.expression_passes(before, leaf) {
        return Err(Stop::Fault(number));
    }
    Ok(1)
}

// The depth of what stands around parts of this depth.
fn one_deeper(depth: u32) -> u32
    ensures { result ≡ min (suc depth) TOO_DEEP }
{
    if depth < MOST_DEPTH {
        depth + 1
    } else {
        TOO_DEEP
    }
}

// Whether a statement of this depth passes a test, as far as it is of depths.
fn is_shallow(fault: CheckFault, depth: u32) -> bool
    ensures { result ≡ is_shallow fault depth }
{
    match fault {
        CheckFault::TooDeep => depth <= MOST_DEPTH,
        _ => true,
    }
}

// Whether a `Repeat` of this many turns and this depth passes a test, as far as it is of turns or depths.
fn allows_repeat(fault: CheckFault, edition: Edition, turns: u8, depth: u32) -> bool
    ensures { result ≡ allows_repeat fault edition turns depth }
{
    match (fault, edition) {
        (CheckFault::Turns, Edition::One) => false,
        (CheckFault::Turns, Edition::Two) => turns <= MOST_TURNS,
        _ => is_shallow(fault, depth),
    }
}
