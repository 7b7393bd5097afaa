//! Calls without the engine, on plain records: one after the other on one thread, or with one lock around each whole
//! call.
ghost use Rattle.std.specs.Prelude.{◌≡◌, ◌≤◌, All, length};
ghost use Rattle.vll_check.specs.Calls.{Fits, IsReady};

use crate::fault::Fault;
use crate::shares::Maker;
use crate::timed::{Count, Timed};
use std::sync::{Mutex, Wait};
use std::time::{Clock, Instant};
use vll_check::Library;
use vll_proc::{Call, Frame, Reply};
use vll_record::{Claims, MOST_CLAIMS, Mode};

/// Times the calls on one thread without a lock, one script after the other.
pub(crate) fn time_serial(
    rt: &impl Clock,
    library: &Library,
    records: &mut [u64],
    scripts: &[Vec<Call>],
) -> Result<Timed, Fault>
    requires { All (λ script. All (Fits library.now) script.items) scripts.now }
{
    let start = Instant::now(rt)?;
    let mut count = Count::none();
    for script in scripts {
        count = count.with(make_script(library, records, script.as_slice())?);
    }
    let time = start.elapsed(rt)?;
    Ok(Timed { time, count })
}

/// Makes calls on plain records, with one lock around each whole call.
#[derive(Drop)]
pub(crate) struct ByMutex<'a, R: Wait> {
    rt: &'a R,
    library: &'a Library,
    records: Mutex<Vec<u64>>,
}

impl<'a, R: Wait> ByMutex<'a, R> {
    /// Returns the maker of the library's calls on these records.
    pub(crate) fn new(rt: &'a R, library: &'a Library, records: Vec<u64>) -> ByMutex<'a, R>
        ensures { result.library.now ≡ library.now }
    {
        ByMutex {
            rt,
            library,
            records: Mutex::new(records),
        }
    }
}

impl<R: Wait> Maker for ByMutex<'_, R> {
    ghost library = { λ m. m.library.now };

    fn make(&self, call: &Call) -> Result<bool, Fault>
        requires { Fits self.now.library.now call.now }
    {
        let mut records = self.records.lock(self.rt);
        make(self.library, records.as_mut_slice(), call)
    }
}

// Makes the calls of a script.
fn make_script(library: &Library, records: &mut [u64], script: &[Call]) -> Result<Count, Fault>
    requires { All (Fits library.now) script.now }
{
    let mut count = Count::none();
    for call in script {
        count = count.with_call(make(library, records, call)?);
    }
    Ok(count)
}

// Makes a call, which first finds the record of its indirect key if it has one. Returns whether it committed.
fn make(library: &Library, records: &mut [u64], call: &Call) -> Result<bool, Fault>
    requires { Fits library.now call.now }
{
    let Some(source) = library.source(call) else {
        return make_ready(library, records, call);
    };
    let Some(value) = records.get(source.0 as usize) else {
        return Err(Fault::NoRecord);
    };
    let call = library.with_found(call, *value);
    make_ready(library, records, &call)
}

// Makes a call: its loads, its body, and its stores unless it aborts. Returns whether it committed.
fn make_ready(library: &Library, records: &mut [u64], call: &Call) -> Result<bool, Fault>
    requires { IsReady library.now call.now }
{
    let procedure = library.proc(call.number).unwrap();
    let mut frame = load_all(records, &call.claims)?;
    match frame.run(procedure, call) {
        Reply::Committed(_) => {
            store_all(records, &call.claims, &frame)?;
            Ok(true)
        }
        Reply::Aborted(_) => Ok(false),
    }
}

// Loads the value of each claimed record into the claim's cell of a new frame.
fn load_all(records: &[u64], claims: &Claims) -> Result<Frame, Fault>
    requires { length claims.now ≤ MOST_CLAIMS }
{
    let mut frame = Frame::new();
    let mut cell = 0;
    for claim in claims.iter() {
        let Some(value) = records.get(claim.id.0 as usize) else {
            return Err(Fault::NoRecord);
        };
        frame.put(cell, *value);
        cell += 1;
    }
    Ok(frame)
}

// Stores each Write claim's cell into its record.
fn store_all(records: &mut [u64], claims: &Claims, frame: &Frame) -> Result<(), Fault>
    requires { length claims.now ≤ MOST_CLAIMS }
{
    let mut cell = 0;
    for claim in claims.iter() {
        if let Mode::Write = claim.mode {
            let Some(record) = records.get_mut(claim.id.0 as usize) else {
                return Err(Fault::NoRecord);
            };
            *record = frame.get(cell);
        }
        cell += 1;
    }
    Ok(())
}
