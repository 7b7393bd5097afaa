//! A serial run on plain records, without an engine, which judges journals.
ghost use Rattle.std.specs.Prelude.{◌≤◌, length};
ghost use Rattle.vll_check.specs.Calls.{IsReady};

use crate::asserts::{equal, holds};
use crate::playing::output_of;
use std::process::Abort;
use std::test::*;
use vll_check::Library;
use vll_core::Line;
use vll_proc::{Call, Frame, Reason, Reply};
use vll_record::{Claims, MOST_CLAIMS, Mode};

// Makes the calls of these lines one at a time, and checks that each line has the reply that its call gets then.
pub(crate) fn judge(rt: &impl Abort, library: &Library, records: &mut [u64], lines: &[Line]) {
    for line in lines {
        holds(rt, library.is_ready(&line.call));
        let reply = made(rt, library, records, &line.call);
        equal(rt, line.reply.as_ref().map(told), Some(told(&reply)));
    }
}

// The content of a reply: its output, if there is exactly one, and why the call aborted.
fn told(reply: &Reply) -> (Option<u64>, Option<Reason>) {
    match reply {
        Reply::Committed(_) => (output_of(reply), None),
        Reply::Aborted(reason) => (None, Some(*reason)),
    }
}

// Makes a call: its loads, its body, and its stores unless it aborts.
fn made(rt: &impl Abort, library: &Library, records: &mut [u64], call: &Call) -> Reply
    requires { IsReady library.now call.now }
{
    let procedure = library.proc(call.number).unwrap();
    let mut frame = loaded(rt, records, &call.claims);
    let reply = frame.run(procedure, call);
    if let Reply::Committed(_) = reply {
        store(rt, records, &call.claims, &frame);
    }
    reply
}

// The value of each claimed record, in the claim's cell.
fn loaded(rt: &impl Abort, records: &[u64], claims: &Claims) -> Frame
    requires { length claims.now ≤ MOST_CLAIMS }
{
    let mut frame = Frame::new();
    let mut cell = 0;
    for claim in claims.iter() {
        frame.put(
            cell,
            *records.get(claim.id.0 as usize).expect(rt, "a record"),
        );
        cell += 1;
    }
    frame
}

// Stores each Write claim's cell into its record.
fn store(rt: &impl Abort, records: &mut [u64], claims: &Claims, frame: &Frame)
    requires { length claims.now ≤ MOST_CLAIMS }
{
    let mut cell = 0;
    for claim in claims.iter() {
        if let Mode::Write = claim.mode {
            let record = records.get_mut(claim.id.0 as usize).expect(rt, "a record");
            *record = frame.get(cell);
        }
        cell += 1;
    }
}
