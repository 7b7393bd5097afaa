//! Tests of blocked calls that run by the front, and by the contention analysis.
ghost use Rattle.std.specs.Prelude.{◌≡◌};
ghost use Rattle.vll_queue.specs.Shown.{name_of};
ghost use Rattle.vll_sca.specs.Placing.{placing};

use crate::asserts::equal;
use crate::opening::{opening, opening_of};
use crate::playing::{
    begins_blocked, begins_free, closes, finishes, is_given, is_not_given, last_of, started,
};
use std::marker::Brand;
use std::process::Abort;
use std::sync::Wait;
use std::test::*;
use vll_core::{Config, Ticket};
use vll_engine::{Name, Opening, Pass};
use vll_sca::Placing;

fn runs_at_the_front<N: Name, R: Wait + Abort>(rt: &R, opening: Opening<Placing>)
    requires { N.engine ≡ name_of placing opening }
{
    let (engine, mut sessions) = started::<N>(opening);
    let mut session = last_of::<N>(rt, &mut sessions);
    let first = begins_free(rt, &engine, &mut session, 0, 0);
    begins_blocked(rt, &engine, &mut session, 0, 1);
    let front = engine.next_front(rt);
    finishes(rt, &engine, first, 1);
    is_not_given(rt, &engine, front);
    let second = is_given::<N, R>(rt, engine.next_front(rt), 1);
    finishes(rt, &engine, second, 2);
    closes(rt, engine, sessions, &[2], &[0, 0]);
}

#[test]
fn blocked_bump_runs_at_the_front(rt: HostRuntime) -> Result<(), Fail> {
    let opening = opening(rt.alloc(), 1, 2, 8, 1)?;
    runs_at_the_front::<Brand, HostRuntime>(&rt, opening);
    Ok(())
}

// Ticket 0 keeps record 0, which ticket 2 waits for. Ticket 1 is gone from record 1, which ticket 3 waits for.
fn runs_past_the_front<N: Name, R: Wait + Abort>(rt: &R, opening: Opening<Placing>)
    requires { N.engine ≡ name_of placing opening }
{
    let (engine, mut sessions) = started::<N>(opening);
    let mut first = last_of::<N>(rt, &mut sessions);
    let mut other = last_of::<N>(rt, &mut sessions);
    let zero = begins_free(rt, &engine, &mut first, 0, 0);
    let one = begins_free(rt, &engine, &mut other, 1, 1);
    begins_blocked(rt, &engine, &mut first, 0, 2);
    begins_blocked(rt, &engine, &mut other, 1, 3);
    finishes(rt, &engine, one, 1);
    let front = engine.next_front(rt);
    let three = is_given::<N, R>(rt, engine.next_scan(rt), 3);
    let more = engine.next_scan(rt);
    finishes(rt, &engine, three, 2);
    finishes(rt, &engine, zero, 1);
    is_not_given(rt, &engine, front);
    is_not_given(rt, &engine, more);
    let two = is_given::<N, R>(rt, engine.next_front(rt), 2);
    finishes(rt, &engine, two, 2);
    closes(rt, engine, sessions, &[2, 2], &[1, 0, 1, 0]);
}

#[test]
fn scan_finds_an_unhindered_call(rt: HostRuntime) -> Result<(), Fail> {
    let opening = opening(rt.alloc(), 2, 4, 8, 2)?;
    runs_past_the_front::<Brand, HostRuntime>(&rt, opening);
    Ok(())
}

// Ticket 0 keeps record 0. Ticket 1 is gone from record 4, which ticket 2 waits for. The scan finds ticket 2 if the
// places of the two records differ.
fn scans_past_the_front<N: Name, R: Wait + Abort>(
    rt: &R,
    opening: Opening<Placing>,
    expected: Option<Ticket>,
)
    requires { N.engine ≡ name_of placing opening }
{
    let (engine, mut sessions) = started::<N>(opening);
    let mut session = last_of::<N>(rt, &mut sessions);
    let zero = begins_free(rt, &engine, &mut session, 0, 0);
    let one = begins_free(rt, &engine, &mut session, 4, 1);
    begins_blocked(rt, &engine, &mut session, 4, 2);
    finishes(rt, &engine, one, 1);
    let found = engine.next_scan(rt);
    let ticket = found.as_ref().map(Pass::ticket);
    finishes(rt, &engine, zero, 1);
    match found {
        Some(two) => finishes(rt, &engine, two, 2),
        None => {
            let two = is_given::<N, R>(rt, engine.next_front(rt), 2);
            finishes(rt, &engine, two, 2);
        }
    }
    equal(rt, ticket, expected);
    closes(rt, engine, sessions, &[1, 0, 0, 0, 2], &[0, 0, 0]);
}

// With 2 places, records 0 and 4 have the same place by their numbers. By the other hash record 0 has place 0, and
// record 4 has 4 * 11400714819323198485 mod 2^64 / 2^32 = 2027808485, which is odd.
#[test]
fn scan_goes_by_the_hash(rt: HostRuntime) -> Result<(), Fail> {
    let config = Config {
        cap: 8,
        limit: 3,
        bits: 2,
    };
    let modulo = opening_of(rt.alloc(), 5, config, Placing::Modulo, 1)?;
    scans_past_the_front::<Brand, HostRuntime>(&rt, modulo, None);
    let spread = opening_of(rt.alloc(), 5, config, Placing::Spread, 1)?;
    scans_past_the_front::<Brand, HostRuntime>(&rt, spread, Some(Ticket(2)));
    Ok(())
}
