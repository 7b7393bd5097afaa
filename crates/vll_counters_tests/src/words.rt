//! Tests of the words: that threads share them and own seats, what a call's steps find, and what is left at the close.
ghost use Rattle.std.specs.Prelude.{◌≡◌, ◌<◌, ◌∷◌, [], true, IfOk, IfSome, None, length};
ghost use Rattle.vll_check.specs.Calls.{IsReady};
ghost use Rattle.vll_sca.specs.declared.status.Status.TheVariants as Status;
ghost use Rattle.vll_counters.specs.Shown.{AreNewSessions, library_of, shown_queue};
ghost use Rattle.vll_counters.specs.Steps.{first_queue};
ghost use Rattle.vll_counters.specs.Told.{has_stored_pass};

use crate::asserts::{equal, fail};
use std::process::Abort;
use std::test::*;
use vll_check::{CallFault, Library};
use vll_core::Ticket;
use vll_counters::{PassSeat, QueueSeat, SessionSeat, Words};
use vll_proc::{Call, Frame, Reply};
use vll_record::{Claim, Mode, granted};
use vll_test_procedures::library;

fn shares<T: Send + Sync>() {}

fn sends<T: Send>() {}

#[test]
fn threads_share_words_and_own_seats() {
    shares::<Words>();
    sends::<QueueSeat>();
    sends::<SessionSeat>();
    sends::<PassSeat>();
}

#[test]
fn words_without_calls_keep_the_records(rt: HostRuntime) -> Result<(), Fail> {
    let alloc = rt.alloc();
    let library = library(alloc, 2)?;
    let Ok((words, queue, sessions)) = Words::open(alloc, &[5, 7], &library, 3) else {
        fail(&rt, "there is no memory")
    };
    equal(&rt, sessions.len(), 3);
    equal(
        &rt,
        words.close(queue).as_slice(),
        [0, 5, 0, 7, 0].as_slice(),
    );
    Ok(())
}

// The call of a procedure on record 0. It has no indirect key.
fn ready_call(rt: &impl Abort, library: &Library, name: &str) -> Result<Call, CallFault>
    ensures { IfOk result (IsReady library.now) }
{
    let call = library.call(name, &[0])?;
    if !library.is_ready(&call) {
        fail(rt, "the call is not ready");
    }
    Ok(call)
}

// The claim of a call that has one, on record 0.
fn only_claim(call: &Call) -> Option<Claim>
    ensures { IfSome result (λ claim. (call.now.claims ≡ claim ∷ []) × (claim.id ≡ 0)) }
{
    let claim = call.claims.get(0)?;
    if call.claims.len() != 1 || claim.id.0 != 0 {
        return None;
    }
    Some(claim)
}

// The one session.
fn only_session(table: &Words, sessions: Vec<SessionSeat>) -> Option<SessionSeat>
    requires { AreNewSessions table.now.table 1 sessions.items }
    ensures { IfSome result (λ session. session.table ≡ table.now.table) }
{
    let _ = table;
    let mut sessions = sessions;
    sessions.pop()
}

// Enters the first call, which runs. Returns what its request found, its pass, and its session.
fn enter(
    rt: &impl Abort,
    words: &Words,
    queue: &mut QueueSeat,
    session: SessionSeat,
    call: &Call,
    claim: &Claim,
) -> (u64, PassSeat, SessionSeat)
    requires queue { queue.old ≡ shown_queue words.now.table [] (first_queue 1) }
    requires session { session.table ≡ words.now.table }
    requires ready { IsReady (library_of words.now) call.now }
    requires claim { call.now.claims ≡ claim.now ∷ [] }
    requires there { claim.now.id < length words.now.base.records }
    ensures same { queue.new.table ≡ words.now.table }
    ensures closed { queue.new.turn ≡ None }
    ensures runs { queue.new.statuses ≡ Status.Running ∷ [] }
    ensures pass { result.1.table ≡ words.now.table }
    ensures fresh { (result.1.pass.call ≡ call.now) × (result.1.pass.loads ≡ 0) × (result.1.pass.stores ≡ 0) × (result.1.pass.releases ≡ 0) × (result.1.pass.ticket ≡ 0) }
    ensures session { result.2.table ≡ words.now.table }
{
    words.join_session(queue, session, Some(call));
    let requested = words.request(queue, *claim);
    if !granted(claim.mode, requested) {
        fail(rt, "another call has the record");
    }
    let pass = words.give_pass(queue, Ticket(0));
    let session = words.give_session(queue, None);
    (requested, pass, session)
}

// Loads the one record that a running call reads. Returns the value found.
fn load(rt: &impl Abort, words: &Words, pass: &mut PassSeat, claim: &Claim) -> u64
    requires same { pass.old.table ≡ words.now.table }
    requires fresh { (pass.old.pass.loads ≡ 0) × (pass.old.pass.stores ≡ 0) }
    requires claim { pass.old.pass.call.claims ≡ claim.now ∷ [] }
    requires there { claim.now.id < length words.now.base.records }
    ensures same { pass.new.table ≡ words.now.table }
    ensures stored { has_stored_pass words.now.base pass.new.pass ≡ true }
    ensures left { (pass.new.pass.call ≡ pass.old.pass.call) × (pass.new.pass.releases ≡ pass.old.pass.releases) × (pass.new.pass.ticket ≡ pass.old.pass.ticket) }
{
    let Mode::Read = claim.mode else {
        fail(rt, "the call writes");
    };
    words.load(pass, claim.id)
}

// Loads the one record that a running call writes, runs the body on it, and stores it.
fn change(
    rt: &impl Abort,
    words: &Words,
    library: &Library,
    pass: &mut PassSeat,
    call: &Call,
    claim: &Claim,
)
    requires same { pass.old.table ≡ words.now.table }
    requires library { library_of words.now ≡ library.now }
    requires ready { IsReady library.now call.now }
    requires fresh { (pass.old.pass.call ≡ call.now) × (pass.old.pass.loads ≡ 0) × (pass.old.pass.stores ≡ 0) }
    requires claim { call.now.claims ≡ claim.now ∷ [] }
    requires there { claim.now.id < length words.now.base.records }
    ensures same { pass.new.table ≡ words.now.table }
    ensures stored { has_stored_pass words.now.base pass.new.pass ≡ true }
    ensures left { (pass.new.pass.call ≡ call.now) × (pass.new.pass.releases ≡ pass.old.pass.releases) × (pass.new.pass.ticket ≡ pass.old.pass.ticket) }
{
    let Mode::Write = claim.mode else {
        fail(rt, "the call reads");
    };
    let Some(procedure) = library.proc(call.number) else {
        fail(rt, "no procedure");
    };
    let mut frame = Frame::new();
    frame.put(0, words.load(pass, claim.id));
    let Reply::Committed(_) = frame.run(procedure, call) else {
        fail(rt, "the call aborts");
    };
    words.store(pass, claim.id, frame.get(0));
}

// Releases the one claim of a running call that has made its stores, and ends it. Returns what the release found.
fn end(words: &Words, queue: &mut QueueSeat, pass: PassSeat, claim: &Claim) -> u64
    requires same { (queue.old.table ≡ words.now.table) × (pass.table ≡ words.now.table) }
    requires closed { queue.old.turn ≡ None }
    requires runs { queue.old.statuses ≡ Status.Running ∷ [] }
    requires stored { has_stored_pass words.now.base pass.pass ≡ true }
    requires first { (pass.pass.releases ≡ 0) × (pass.pass.ticket ≡ 0) }
    requires claim { pass.pass.call.claims ≡ claim.now ∷ [] }
    requires there { claim.now.id < length words.now.base.records }
    ensures same { queue.new.table ≡ words.now.table }
    ensures closed { queue.new.turn ≡ None }
    ensures gone { queue.new.statuses ≡ Status.Gone ∷ [] }
{
    let mut pass = pass;
    let released = words.release(&mut pass, *claim);
    words.join_pass(queue, pass);
    released
}

#[test]
fn a_read_finds_the_record_and_leaves_no_claim(rt: HostRuntime) -> Result<(), Fail> {
    let alloc = rt.alloc();
    let library = library(alloc, 1)?;
    let call = ready_call(&rt, &library, "read")?;
    let Ok((words, mut queue, sessions)) = Words::open(alloc, &[5], &library, 1) else {
        fail(&rt, "there is no memory")
    };
    let session = only_session(&words, sessions).expect(&rt, "a session");
    let claim = only_claim(&call).expect(&rt, "a claim");
    let (requested, mut pass, _) = enter(&rt, &words, &mut queue, session, &call, &claim);
    let loaded = load(&rt, &words, &mut pass, &claim);
    let released = end(&words, &mut queue, pass, &claim);
    equal(&rt, requested, 0);
    equal(&rt, loaded, 5);
    equal(&rt, released, 1);
    equal(&rt, words.close(queue).as_slice(), [0, 5, 0].as_slice());
    Ok(())
}

#[test]
fn a_session_finds_what_a_pass_has_stored(rt: HostRuntime) -> Result<(), Fail> {
    let alloc = rt.alloc();
    let library = library(alloc, 1)?;
    let call = ready_call(&rt, &library, "bump")?;
    let Ok((words, mut queue, sessions)) = Words::open(alloc, &[5], &library, 1) else {
        fail(&rt, "there is no memory")
    };
    let mut session = only_session(&words, sessions).expect(&rt, "a session");
    let claim = only_claim(&call).expect(&rt, "a claim");
    let first = words.find(&mut session, claim.id);
    let (_, mut pass, mut session) = enter(&rt, &words, &mut queue, session, &call, &claim);
    let entered = words.find(&mut session, claim.id);
    change(&rt, &words, &library, &mut pass, &call, &claim);
    let stored = words.find(&mut session, claim.id);
    end(&words, &mut queue, pass, &claim);
    equal(&rt, first, 5);
    equal(&rt, entered, 5);
    equal(&rt, stored, 6);
    equal(&rt, words.close(queue).as_slice(), [0, 6, 0].as_slice());
    Ok(())
}
