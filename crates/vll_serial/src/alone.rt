//! A call that is made alone on plain records.
ghost use Rattle.std.specs.Prelude.{◌≡◌, ◌<◌, ℕ, List, All, length, slice_index};
ghost use Rattle.vll_record.specs.Claim.{mode_on};
ghost use Rattle.vll_record.specs.declared.claim.Claim.{Claim};
ghost use Rattle.vll_proc.specs.Cells.{Holds};
ghost use Rattle.vll_proc.specs.Headline.Serial.{apply};
ghost use Rattle.vll_check.specs.Calls.{IsReady};
ghost use Rattle.vll_serial.specs.Private.Alone.{StaysElsewhere};

use vll_check::Library;
use vll_proc::{Call, Frame, Reply};
use vll_record::Claims;

/// Makes a call that may enter on the records, as many as its library is for, and returns its reply. It allocates no memory.
pub fn make(library: &Library, records: &mut [u64], call: &Call) -> Reply
    requires ready { IsReady library.now call.now }
    requires records { library.now.records ≡ length records.old }
    ensures reply { result ≡ (apply library.now.procs call.now records.old).reply }
    ensures records { records.new ≡ (apply library.now.procs call.now records.old).records }
{
    let Some(procedure) = library.proc(call.number) else {
        unreachable!()
    };
    let mut frame = frame_of(&call.claims, records);
    let reply = frame.run(procedure, call);
    put_back(&call.claims, &frame, records);
    reply
}

// A frame with the value of each claim's record.
fn frame_of(claims: &Claims, records: &[u64]) -> Frame
    requires { All (λ (d : Claim). d.id < length records.now) claims.now }
    ensures { Holds result claims.now records.now }
{
    let mut frame = Frame::new();
    for i in 0..claims.len() {
        if let Some(claim) = claims.get(i) {
            frame.put(i, records[claim.id.0 as usize]);
        }
    }
    frame
}

// Gives the record of each claim the value of the claim's cell.
fn put_back(claims: &Claims, frame: &Frame, records: &mut [u64])
    requires { All (λ (d : Claim). d.id < length records.old) claims.now }
    ensures { (after : List ℕ) → Holds frame.now claims.now after → StaysElsewhere claims.now records.old after
        → records.new ≡ after }
{
    for i in 0..claims.len() {
        match claims.get(i) {
            Some(claim) => records[claim.id.0 as usize] = frame.get(i),
            None => {}
        }
    }
}
