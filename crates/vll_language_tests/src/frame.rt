//! Tests of the replies and the cells of calls that run on frames.
ghost use Rattle.std.specs.Prelude.{◌≡◌, ◌∷◌, [], IfOk, ℕ};
ghost use Rattle.vll_record.specs.Headline.Claim.{with_claim};
ghost use Rattle.vll_proc.specs.Made.{IsCallOf};
ghost use Rattle.vll_proc.specs.WellFormed.{IsWellFormed};

use crate::asserts::equal;
use std::alloc::{AllocError, Global};
use std::test::Fail;
use vll_proc::{
    Boxed, Call, Edition, Expr, Frame, Items, KeyAt, KeyDecl, Outputs, Proc, Reason, Reply, Stmt,
    Text,
};
use vll_record::{Claim, Claims, MOST_CLAIMS, Mode, RecordId};

// The one key position of `bump`: its argument names the record.
fn key() -> KeyDecl
    ensures { result ≡ record { mode = Mode.Write; at = KeyAt.Arg 0 } }
{
    KeyDecl {
        mode: Mode::Write,
        at: KeyAt::Arg(0),
    }
}

// One more than the record's value.
fn more(alloc: Global) -> Result<Expr, AllocError>
    ensures { IfOk result (λ e. e ≡ Expr.Add (Expr.Key 0) (Expr.Num 1)) }
{
    let value = Boxed::new(alloc, Expr::Key(0))?;
    let one = Boxed::new(alloc, Expr::Num(1))?;
    Ok(Expr::Add(value, one))
}

// Adds 1 to a record, and replies with the sum.
fn bump(alloc: Global) -> Result<Proc, AllocError>
    ensures formed { IfOk result (λ p. IsWellFormed p) }
    ensures args { IfOk result (λ p. p.args ≡ 1) }
    ensures keys { IfOk result (λ p. p.keys
        ≡ record { mode = Mode.Write; at = KeyAt.Arg 0 } ∷ []) }
{
    let name = String::from_str(alloc, "bump")?;
    let keys = Items::from_slice(alloc, &[key()])?;
    let more = more(alloc)?;
    let body = vec![in alloc; Stmt::Set(0, more), Stmt::Reply(Expr::Key(0))]?;
    Ok(Proc {
        edition: Edition::One,
        name: Text::new(name),
        args: 1,
        keys,
        body: Items::from_vec(body),
    })
}

// A bump of record 5.
fn of_record_5(procedure: &Proc) -> Call
    requires args { procedure.now.args ≡ 1 }
    requires keys { procedure.now.keys
        ≡ record { mode = Mode.Write; at = KeyAt.Arg 0 } ∷ [] }
    ensures { (n : ℕ) × IsCallOf n procedure.now result }
{
    let mut claims = Claims::new();
    claims.add(Claim {
        id: RecordId(5),
        mode: Mode::Write,
    });
    Call {
        number: 1,
        arg_count: procedure.args,
        args: [5, 0, 0, 0, 0, 0, 0, 0],
        found: None,
        claims,
        cells: [0; MOST_CLAIMS],
    }
}

// The outputs of a call that was committed, or why it was aborted.
fn outputs_of(reply: Reply) -> Result<Outputs, Reason> {
    match reply {
        Reply::Committed(outputs) => Ok(outputs),
        Reply::Aborted(why) => Err(why),
    }
}

#[test]
fn committed_call_has_its_outputs(rt: HostRuntime) -> Result<(), Fail> {
    let procedure = bump(rt.alloc())?;
    let call = of_record_5(&procedure);
    let mut frame = Frame::new();
    frame.put(0, u64::MAX - 1);
    let outputs = outputs_of(frame.run(&procedure, &call))?;
    equal(&rt, outputs.len(), 1);
    equal(&rt, outputs.get(0), Some(u64::MAX));
    equal(&rt, outputs.get(1), None);
    let mut each = outputs.iter();
    equal(&rt, each.next().copied(), Some(u64::MAX));
    equal(&rt, each.next(), None);
    equal(&rt, frame.get(0), u64::MAX);
    Ok(())
}

#[test]
fn aborted_call_has_its_reason(rt: HostRuntime) -> Result<(), Fail> {
    let procedure = bump(rt.alloc())?;
    let call = of_record_5(&procedure);
    let mut frame = Frame::new();
    frame.put(0, u64::MAX);
    let why = outputs_of(frame.run(&procedure, &call)).err();
    equal(&rt, why, Some(Reason::Overflow));
    equal(&rt, frame.get(0), u64::MAX);
    Ok(())
}
