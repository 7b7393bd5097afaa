//! The procedures that the bank's clients can call.
ghost use Rattle.std.specs.Prelude.{◌≡◌, ◌∷◌, [], IfOk};
ghost use Rattle.vll_proc.specs.declared.syntax.Edition.TheVariants.{Two};
ghost use Rattle.vll_proc.specs.declared.syntax.Expr.{Add, Arg, Key, Less, Sub};
ghost use Rattle.vll_proc.specs.declared.syntax.KeyAt.TheVariants as at;
ghost use Rattle.vll_proc.specs.declared.syntax.Stmt.{Abort, If, Set};
ghost use Rattle.vll_example.specs.Bank.{procedures, sum_of_two, transfer, transfer_body};

use std::alloc::{AllocError, Global};
use vll_check::{Library, check};
use vll_engine::EngineFault;
use vll_proc::{Boxed, Edition, Expr, Items, KeyAt, KeyDecl, Proc, Stmt, Text};
use vll_record::Mode;

/// The code with which a transfer aborts if the first account holds less than the amount.
const TOO_LITTLE: u16 = 1;

// A key whose record is given by the argument at the same place.
fn key(mode: Mode, argument: u8) -> KeyDecl
    ensures { result ≡ record { mode = mode; at = at.Arg argument } }
{
    KeyDecl {
        mode,
        at: KeyAt::Arg(argument),
    }
}

// Both operands of an operator.
fn both(alloc: Global, left: Expr, right: Expr) -> Result<(Boxed<Expr>, Boxed<Expr>), AllocError>
    ensures { IfOk result (λ operands. (operands.0 ≡ left) × (operands.1 ≡ right)) }
{
    let left = Boxed::new(alloc, left)?;
    Ok((left, Boxed::new(alloc, right)?))
}

fn add(alloc: Global, left: Expr, right: Expr) -> Result<Expr, AllocError>
    ensures { IfOk result (λ e. e ≡ Add left right) }
{
    let (left, right) = both(alloc, left, right)?;
    Ok(Expr::Add(left, right))
}

fn sub(alloc: Global, left: Expr, right: Expr) -> Result<Expr, AllocError>
    ensures { IfOk result (λ e. e ≡ Sub left right) }
{
    let (left, right) = both(alloc, left, right)?;
    Ok(Expr::Sub(left, right))
}

fn less(alloc: Global, left: Expr, right: Expr) -> Result<Expr, AllocError>
    ensures { IfOk result (λ e. e ≡ Less left right) }
{
    let (left, right) = both(alloc, left, right)?;
    Ok(Expr::Less(left, right))
}

// The list of one statement that aborts with a code.
fn abort(alloc: Global, code: u16) -> Result<Items<Stmt>, AllocError>
    ensures { IfOk result (λ list. list ≡ Abort code ∷ []) }
{
    let list = vec![in alloc; Stmt::Abort(code)]?;
    Ok(Items::from_vec(list))
}

// Aborts if the first account holds less than the amount.
fn abort_if_too_little(alloc: Global) -> Result<Stmt, AllocError>
    ensures { IfOk result (λ s. s ≡ If (Less (Key 0) (Arg 2)) (Abort TOO_LITTLE ∷ []) []) }
{
    let abort = abort(alloc, TOO_LITTLE)?;
    let is_less = less(alloc, Expr::Key(0), Expr::Arg(2))?;
    Ok(Stmt::If(is_less, abort, Items::new(alloc)))
}

fn withdraw(alloc: Global) -> Result<Stmt, AllocError>
    ensures { IfOk result (λ s. s ≡ Set 0 (Sub (Key 0) (Arg 2))) }
{
    Ok(Stmt::Set(0, sub(alloc, Expr::Key(0), Expr::Arg(2))?))
}

fn deposit(alloc: Global) -> Result<Stmt, AllocError>
    ensures { IfOk result (λ s. s ≡ Set 1 (Add (Key 1) (Arg 2))) }
{
    Ok(Stmt::Set(1, add(alloc, Expr::Key(1), Expr::Arg(2))?))
}

// A procedure of this name, with these keys and this body.
fn procedure(
    alloc: Global,
    name: &str,
    args: u8,
    keys: &[KeyDecl],
    body: Vec<Stmt>,
) -> Result<Proc, AllocError>
    ensures { IfOk result (λ p. p ≡ record { edition = Two; name = name.now; args = args; keys = keys.now; body = body.items }) }
{
    let keys = Items::from_slice(alloc, keys)?;
    let name = Text::new(String::from_str(alloc, name)?);
    Ok(Proc {
        edition: Edition::Two,
        name,
        args,
        keys,
        body: Items::from_vec(body),
    })
}

// Moves an amount from one account to another, and replies what is left in the first.
fn transfer(alloc: Global) -> Result<Proc, AllocError>
    ensures { IfOk result (λ p. p ≡ transfer) }
{
    let body = transfer_body(alloc)?;
    procedure(
        alloc,
        "transfer",
        3,
        &[key(Mode::Write, 0), key(Mode::Write, 1)],
        body,
    )
}

fn transfer_body(alloc: Global) -> Result<Vec<Stmt>, AllocError>
    ensures { IfOk result (λ body. body.items ≡ transfer_body) }
{
    let mut body = Vec::new(alloc);
    body.push(abort_if_too_little(alloc)?)?;
    body.push(withdraw(alloc)?)?;
    body.push(deposit(alloc)?)?;
    body.push(Stmt::Reply(Expr::Key(0)))?;
    Ok(body)
}

// Replies the sum of two accounts.
fn sum(alloc: Global) -> Result<Proc, AllocError>
    ensures { IfOk result (λ p. p ≡ sum_of_two) }
{
    let sum = add(alloc, Expr::Key(0), Expr::Key(1))?;
    let body = vec![in alloc; Stmt::Reply(sum)]?;
    procedure(
        alloc,
        "sum",
        2,
        &[key(Mode::Read, 0), key(Mode::Read, 1)],
        body,
    )
}

/// The library of both procedures, for this many accounts.
pub(crate) fn library(alloc: Global, accounts: u32) -> Result<Library, EngineFault>
    ensures { IfOk result (λ l. l ≡ record { records = accounts; procs = procedures }) }
{
    let mut procs = Vec::new(alloc);
    procs.push(check(transfer(alloc)?, accounts)?)?;
    procs.push(check(sum(alloc)?, accounts)?)?;
    Ok(Library::new(accounts, procs)?)
}
