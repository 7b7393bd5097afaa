//! Tests of calls that are passed to a core.
ghost use Rattle.std.specs.Prelude.{◌≡◌, ◌<◌, IfOk, length};
ghost use Rattle.vll_check.specs.Calls.{IsReady};
ghost use Rattle.vll_core.specs.Shown.{library_of};

use self::Turn::{Hand, Then};
use crate::asserts::equal_at;
use crate::words::{said, words_of};
use std::alloc::{AllocError, Global};
use std::process::Abort;
use std::test::Fail;
use vll_check::{CallFault, Library};
use vll_core::Event::{self, Admit, Claim, Enter, Find, Finish, Front, Load, Release, Store};
use vll_core::{Core, Ticket};
use vll_proc::Call;
use vll_sca::Placing;
use vll_test_procedures::parts_with;

// What is done to a core: the call is passed in for client 0, or an event is made.
#[derive(Clone, Copy, Debug)]
enum Turn {
    Hand,
    Then(Event),
}

// Returns the answer of a core when the call is passed in, in words.
fn handed(core: &mut Core<Placing>, call: &Call) -> &'static str
    requires client { 0 < length core.old.state.scripts }
    requires ready { IsReady (library_of core.old) call.now }
    ensures library { library_of core.new ≡ library_of core.old }
    ensures clients { length core.new.state.scripts ≡ length core.old.state.scripts }
{
    match core.enter(0, call) {
        Ok(()) => "opened",
        Err(refusal) => words_of(refusal),
    }
}

// Returns the answer of a core to an event, in words.
fn stepped(alloc: Global, core: &mut Core<Placing>, event: Event) -> Result<String, AllocError>
    ensures library { library_of core.new ≡ library_of core.old }
    ensures clients { length core.new.state.scripts ≡ length core.old.state.scripts }
{
    said(alloc, core.step(event))
}

fn answer(
    alloc: Global,
    core: &mut Core<Placing>,
    call: &Call,
    turn: Turn,
) -> Result<String, AllocError>
    requires client { 0 < length core.old.state.scripts }
    requires ready { IsReady (library_of core.old) call.now }
    ensures library { library_of core.new ≡ library_of core.old }
    ensures clients { length core.new.state.scripts ≡ length core.old.state.scripts }
{
    match turn {
        Hand => String::from_str(alloc, handed(core, call)),
        Then(event) => stepped(alloc, core, event),
    }
}

fn check_said(rt: &impl Abort, turn: Turn, said: &str, words: &str) {
    equal_at(rt, turn, said, words);
}

fn play(
    rt: &(impl AllocGlobal + Abort),
    core: &mut Core<Placing>,
    call: &Call,
    turns: &[(Turn, &str)],
) -> Result<(), Fail>
    requires client { 0 < length core.old.state.scripts }
    requires ready { IsReady (library_of core.old) call.now }
{
    for (turn, words) in turns {
        let said = answer(rt.alloc(), core, call, *turn)?;
        check_said(rt, *turn, said.as_str(), words);
    }
    Ok(())
}

// Returns a bump of record 0, which needs no value.
fn bump(library: &Library) -> Result<Call, CallFault>
    ensures { IfOk result (IsReady library.now) }
{
    let call = library.call("bump", &[0])?;
    Ok(library.with_found(&call, 0))
}

// Returns the core of a scenario that has a client, and a bump of record 0 that is ready for it.
fn opened(alloc: Global, members: &str) -> Result<(Core<Placing>, Call), Fail>
    ensures client { IfOk result (λ r. 0 < length r.0.state.scripts) }
    ensures ready { IfOk result (λ r. IsReady (library_of r.0) r.1) }
{
    let parts = parts_with(alloc, members)?;
    let bump = bump(&parts.library)?;
    if parts.scripts.is_empty() {
        return Err(Fail::new("a scenario without a client"));
    }
    let core = Core::open(
        alloc,
        parts.records,
        parts.library,
        parts.scripts,
        parts.config,
        parts.placing,
    )?;
    Ok((core, bump))
}

// Makes these turns in order, on the core of a scenario. The call that is passed in is always a bump of record 0.
fn run(rt: &(impl AllocGlobal + Abort), members: &str, turns: &[(Turn, &str)]) -> Result<(), Fail> {
    let (mut core, bump) = opened(rt.alloc(), members)?;
    play(rt, &mut core, &bump, turns)
}

// One call may wait, and the script is empty. If the entered calls have reached the limit, that is reported, even if the
// waiting ones have reached the cap.
#[test]
fn cap_and_limit_hold_of_calls_that_are_handed_in(rt: HostRuntime) -> Result<(), Fail> {
    for (members, last) in [
        (
            r#""records":[0],"clients":[[]],"cap":1,"limit":2,"bits":64"#,
            "refused spent",
        ),
        (
            r#""records":[0],"clients":[[]],"cap":1,"limit":3,"bits":64"#,
            "refused busy",
        ),
    ] {
        run(
            &rt,
            members,
            &[
                (Hand, "opened"),
                (Hand, "refused turn open"),
                (Then(Claim), "claimed 0 granted"),
                (Then(Admit), "free 0"),
                (Hand, "opened"),
                (Then(Claim), "claimed 4294967296 denied"),
                (Then(Admit), "blocked 1"),
                (Hand, last),
            ],
        )?;
    }
    Ok(())
}

// One call may wait, and the script has a call that adds 1 to the record that record 0 leads to.
#[test]
fn value_is_kept_while_calls_are_handed_in(rt: HostRuntime) -> Result<(), Fail> {
    run(
        &rt,
        r#""records":[0],"clients":[[{"proc":"via","args":[0]}]],"cap":1,"limit":4,"bits":64"#,
        &[
            (Then(Find(0)), "found 0"),
            (Hand, "opened"),
            (Hand, "refused turn open"),
            (Then(Claim), "claimed 0 granted"),
            (Then(Admit), "free 0"),
            (Hand, "opened"),
            (Then(Claim), "claimed 4294967296 denied"),
            (Then(Admit), "blocked 1"),
            (Hand, "refused busy"),
            (Then(Load(Ticket(0))), "loaded 0"),
            (Then(Store(Ticket(0))), "stored"),
            (Then(Release(Ticket(0))), "released 8589934592"),
            (Then(Finish(Ticket(0))), "replied committed 1"),
            (Then(Front), "run 1"),
            (Then(Enter(0)), "opened"),
        ],
    )
}
