//! Tests of what a look at the words of a call returns.
ghost use Rattle.std.specs.Prelude.{◌≡◌};
ghost use Rattle.vll_queue.specs.Shown.{name_of};
ghost use Rattle.vll_sca.specs.Placing.{placing};

use crate::asserts::equal;
use crate::opening::opening_over;
use crate::playing::{begins_free, call_of, finishes, last_of, started};
use std::marker::Brand;
use std::process::Abort;
use std::sync::Wait;
use std::test::*;
use vll_engine::{Name, Opening};
use vll_sca::Placing;

// A read of record 0 looks free except while a bump of it runs; a bump of record 1 always looks free.
fn looks<N: Name, R: Wait + Abort>(rt: &R, opening: Opening<Placing>)
    requires { N.engine ≡ name_of placing opening }
{
    let (engine, mut sessions) = started::<N>(opening);
    let mut session = last_of::<N>(rt, &mut sessions);
    let read = call_of(rt, engine.library(), "read", 0);
    let other = call_of(rt, engine.library(), "bump", 1);
    let before = (engine.look(&read), engine.look(&other));
    let pass = begins_free(rt, &engine, &mut session, 0, 0);
    let beside = (engine.look(&read), engine.look(&other));
    finishes(rt, &engine, pass, 1);
    let after = (engine.look(&read), engine.look(&other));
    equal(rt, before, (true, true));
    equal(rt, beside, (false, true));
    equal(rt, after, (true, true));
}

#[test]
fn look_tells_whether_the_claims_look_free(rt: HostRuntime) -> Result<(), Fail> {
    let opening = opening_over(rt.alloc(), [0, 0, 0], 1, 1)?;
    looks::<Brand, HostRuntime>(&rt, opening);
    Ok(())
}
