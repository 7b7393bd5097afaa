//! What is done for a call outside the lock: the look at its claims, its loads, its body, its stores and its releases.
ghost use Rattle.std.specs.Prelude.{◌≡◌, ◌<◌, ◌≤◌, All, false, length, true};
ghost use Rattle.vll_record.specs.declared.claim.Claim.{Claim};
ghost use Rattle.vll_proc.specs.Cells.{Holds};
ghost use Rattle.vll_proc.specs.Headline.Serial.{apply};
ghost use Rattle.vll_check.specs.Calls.{Fits};
ghost use Rattle.vll_check.specs.Catalog.{IsCatalog};
ghost use Rattle.vll_core.specs.State.{is_aborted, writes};
ghost use Rattle.vll_counters.specs.Shown.{passed};
ghost use Rattle.vll_counters.specs.Steps.{records_before_pass, reply_of_pass};
ghost use Rattle.vll_counters.specs.Told.{has_stored_pass};
ghost use Rattle.vll_queue.specs.Pass.{IsDone, IsFresh, IsReleased, StaysOf};
ghost use Rattle.vll_queue.specs.Private.Worked.{all_loaded, all_released, all_stored};
ghost use Rattle.vll_queue.specs.Shown.{library_of, words_of};

use crate::name::Name;
use crate::pass::{Done, Pass, Released};
use vll_check::Library;
use vll_counters::{PassSeat, Words};
use vll_proc::{Call, Frame, Reason, Reply};
use vll_record::{Claims, MOST_CLAIMS, Mode};

/// Loads the pair word of each record that the call claims. Returns whether each claim looks free.
pub fn look<N: Name>(words: &Words, call: &Call) -> bool
    requires words { words.now ≡ words_of N.engine }
    requires catalog { IsCatalog (library_of N.engine) }
    requires fits { Fits (library_of N.engine) call.now }
{
    look_all(words, &call.claims)
}

// Loads the pair word of each claim, also after one that does not look free.
fn look_all(words: &Words, claims: &Claims) -> bool
    requires there { All (λ (c : Claim). c.id < length words.now.base.records) claims.now }
{
    let mut are_free = true;
    for claim in claims.iter() {
        are_free &= words.look(claim);
    }
    are_free
}

/// Makes all loads of a pass's call, runs its body, and makes all its stores unless it aborts.
#[inline(always)]
pub fn execute<N: Name>(words: &Words, library: &Library, pass: Pass) -> Done
    requires words { words.now ≡ words_of N.engine }
    requires library { library.now ≡ library_of N.engine }
    requires pass { IsFresh N.engine pass }
    ensures done { IsDone N.engine result }
    ensures same { StaysOf pass.pass result.pass }
{
    let Pass {
        call,
        mut seat,
        ticket,
    } = pass;
    let reply = work::<N>(words, library, &mut seat, &call);
    Done {
        seat,
        ticket,
        claims: call.claims,
        reply,
    }
}

/// As `execute` on a borrowed pass, and then releases each of the call's claims. Returns the reply.
#[inline(always)]
pub fn run_in_place<N: Name>(words: &Words, library: &Library, pass: &mut Pass) -> Reply
    requires words { words.now ≡ words_of N.engine }
    requires library { library.now ≡ library_of N.engine }
    requires catalog { IsCatalog (library_of N.engine) }
    requires pass { IsFresh N.engine pass.old }
    ensures released { IsReleased N.engine (record { table = pass.new.table; pass = pass.new.pass; reply = result }) }
    ensures same { StaysOf pass.old.pass pass.new.pass }
{
    let mut reply = Reply::Aborted(Reason::Moved);
    run_at::<N>(words, library, &mut pass.seat, &pass.call, &mut reply);
    reply
}

/// Does what `run_in_place` does, for the call whose pass has this seat. The reply is written to the caller's place,
/// since returning it would copy it.
#[inline(always)]
pub fn run_at<N: Name>(
    words: &Words,
    library: &Library,
    seat: &mut PassSeat,
    call: &Call,
    reply: &mut Reply,
)
    requires words { words.now ≡ words_of N.engine }
    requires library { library.now ≡ library_of N.engine }
    requires catalog { IsCatalog (library_of N.engine) }
    requires fresh { IsFresh N.engine seat.old }
    requires call { seat.old.pass.call ≡ call.now }
    ensures released { IsReleased N.engine (record { table = seat.new.table; pass = seat.new.pass; reply = reply.new }) }
    ensures same { StaysOf seat.old.pass seat.new.pass }
{
    // A contract knows that the claims are few only if they are counted.
    let _ = call.claims.len();
    *reply = work::<N>(words, library, seat, call);
    release_all(words, seat, &call.claims);
}

// Makes the loads of a call whose pass has this seat, runs its body, and makes its stores unless the body aborts.
// Returns the body's reply.
#[inline(always)]
fn work<N: Name>(words: &Words, library: &Library, seat: &mut PassSeat, call: &Call) -> Reply
    requires words { words.now ≡ words_of N.engine }
    requires library { library.now ≡ library_of N.engine }
    requires fresh { IsFresh N.engine seat.old }
    requires call { seat.old.pass.call ≡ call.now }
    requires few { length call.now.claims ≤ MOST_CLAIMS }
    ensures done { IsDone N.engine (record { table = seat.new.table; pass = seat.new.pass; reply = result }) }
    ensures same { StaysOf seat.old.pass seat.new.pass }
{
    let procedure = library.proc(call.number).unwrap();
    let mut frame = Frame::new();
    load_all(words, seat, &call.claims, &mut frame);
    let reply = frame.run(procedure, call);
    if let Reply::Committed(_) = reply {
        store_all(words, seat, &call.claims, &frame);
    }
    reply
}

// Loads the record of each claim into the claim's cell.
fn load_all(words: &Words, seat: &mut PassSeat, claims: &Claims, frame: &mut Frame)
    requires same { seat.old.table ≡ words.now.table }
    requires claims { seat.old.pass.call.claims ≡ claims.now }
    requires few { length claims.now ≤ MOST_CLAIMS }
    requires there { All (λ (c : Claim). c.id < length words.now.base.records) claims.now }
    requires fresh { seat.old.pass.loads ≡ 0 }
    requires whole { length frame.old ≡ MOST_CLAIMS }
    ensures pass { seat.new ≡ passed seat.old (all_loaded seat.new.pass.loaded seat.old.pass) }
    ensures frame { Holds frame.new claims.now (records_before_pass words.now.base seat.old.pass) }
{
    let mut cell = 0;
    for claim in claims.iter() {
        frame.put(cell, words.load(seat, claim.id));
        cell += 1;
    }
}

// Stores each Write claim's cell into its record.
fn store_all(words: &Words, seat: &mut PassSeat, claims: &Claims, frame: &Frame)
    requires same { seat.old.table ≡ words.now.table }
    requires claims { seat.old.pass.call.claims ≡ claims.now }
    requires few { length claims.now ≤ MOST_CLAIMS }
    requires there { All (λ (c : Claim). c.id < length words.now.base.records) claims.now }
    requires loaded { seat.old.pass.loads ≡ length claims.now }
    requires fresh { seat.old.pass.stores ≡ 0 }
    requires commits { is_aborted (reply_of_pass words.now.base seat.old.pass) ≡ false }
    requires frame { Holds frame.now claims.now (apply words.now.base.procs seat.old.pass.call (records_before_pass words.now.base seat.old.pass)).records }
    ensures pass { seat.new ≡ passed seat.old (all_stored seat.old.pass) }
{
    let mut cell = 0;
    for claim in claims.iter() {
        if let Mode::Write = claim.mode {
            words.store(seat, claim.id, frame.get(cell));
        }
        cell += 1;
    }
}

/// Releases each claim of an executed call.
#[inline(always)]
pub fn release<N: Name>(words: &Words, done: Done) -> Released
    requires words { words.now ≡ words_of N.engine }
    requires catalog { IsCatalog (library_of N.engine) }
    requires done { IsDone N.engine done }
    ensures released { IsReleased N.engine result }
    ensures same { StaysOf done.pass result.pass }
    ensures reply { result.reply ≡ done.reply }
{
    let Done {
        mut seat,
        ticket,
        claims,
        reply,
    } = done;
    release_all(words, &mut seat, &claims);
    Released {
        seat,
        ticket,
        reply,
    }
}

// Releases each of the pass's claims.
fn release_all(words: &Words, seat: &mut PassSeat, claims: &Claims)
    requires same { seat.old.table ≡ words.now.table }
    requires claims { seat.old.pass.call.claims ≡ claims.now }
    requires there { All (λ (c : Claim). c.id < length words.now.base.records) claims.now }
    requires stored { has_stored_pass words.now.base seat.old.pass ≡ true }
    requires fresh { seat.old.pass.releases ≡ 0 }
    ensures pass { seat.new ≡ record (passed seat.old (all_released seat.old.pass)) { past = seat.new.past } }
{
    for claim in claims.iter() {
        words.release(seat, claim);
    }
}
