//! Calls without the engine, with one lock per record: a call takes those of its records in ascending order, and its
//! body runs while it holds them all.
ghost use Rattle.std.specs.Prelude.{◌≡◌, ◌≤◌, ℕ, IfOk, length};
ghost use Rattle.vll_check.specs.Calls.{Fits, IsReady};
ghost use Rattle.vll_proc.specs.Made.{IsCallOf};
ghost use Rattle.vll_proc.specs.WellFormed.{IsWellFormed};

use crate::fault::Fault;
use crate::shares::Maker;
use std::alloc::{AllocError, Global};
use std::sync::{Mutex, Wait};
use vll_check::Library;
use vll_proc::{Call, Frame, Proc, Reply};
use vll_record::{Claim, MOST_CLAIMS, Mode, RecordId};

/// Makes calls on records, each of which has a lock of its own.
#[derive(Drop)]
pub(crate) struct ByLocks<'a, R: Wait> {
    rt: &'a R,
    library: &'a Library,
    records: Vec<Mutex<u64>>,
}

impl<'a, R: Wait> ByLocks<'a, R> {
    /// Returns the maker of the library's calls on these records.
    pub(crate) fn new(
        rt: &'a R,
        alloc: Global,
        library: &'a Library,
        records: &[u64],
    ) -> Result<ByLocks<'a, R>, AllocError>
        ensures { IfOk result (λ m. m.library.now ≡ library.now) }
    {
        let records = locked(alloc, records)?;
        Ok(ByLocks {
            rt,
            library,
            records,
        })
    }
}

impl<R: Wait> Maker for ByLocks<'_, R> {
    ghost library = { λ m. m.library.now };

    // First finds the record of the call's indirect key, if it has one.
    fn make(&self, call: &Call) -> Result<bool, Fault>
        requires { Fits self.now.library.now call.now }
    {
        let records = self.records.as_slice();
        let Some(source) = self.library.source(call) else {
            return make_ready(self.rt, self.library, records, call);
        };
        let value = *lock_of(records, source)?.lock(self.rt);
        let call = self.library.with_found(call, value);
        make_ready(self.rt, self.library, records, &call)
    }
}

// Puts each record behind a lock of its own.
fn locked(alloc: Global, records: &[u64]) -> Result<Vec<Mutex<u64>>, AllocError> {
    let mut list = Vec::new(alloc);
    for value in records {
        list.push(Mutex::new(*value))?;
    }
    Ok(list)
}

// The lock of a record.
fn lock_of(records: &[Mutex<u64>], record: RecordId) -> Result<&Mutex<u64>, Fault> {
    records.get(record.0 as usize).ok_or(Fault::NoRecord)
}

// Makes a call. Returns whether it committed.
fn make_ready(
    rt: &impl Wait,
    library: &Library,
    records: &[Mutex<u64>],
    call: &Call,
) -> Result<bool, Fault>
    requires { IsReady library.now call.now }
{
    let procedure = library.proc(call.number).unwrap();
    let mut frame = Frame::new();
    make_from(rt, procedure, records, call, &mut frame, 0)
}

// Takes the locks of a call's records from `cell` on, makes the call, and stores what it writes into these records.
// Returns whether it committed. A lock is released once its record is stored.
fn make_from(
    rt: &impl Wait,
    procedure: &Proc,
    records: &[Mutex<u64>],
    call: &Call,
    frame: &mut Frame,
    cell: usize,
) -> Result<bool, Fault>
    requires formed { IsWellFormed procedure.now }
    requires made { (n : ℕ) × IsCallOf n procedure.now call.now }
    requires few { length call.now.claims ≤ MOST_CLAIMS }
{
    let Some(claim) = call.claims.get(cell) else {
        return Ok(matches!(frame.run(procedure, call), Reply::Committed(_)));
    };
    let mut record = lock_of(records, claim.id)?.lock(rt);
    frame.put(cell, *record);
    let committed = make_from(rt, procedure, records, call, frame, cell + 1)?;
    if committed && is_write(claim) {
        *record = frame.get(cell);
    }
    Ok(committed)
}

/// Whether a claim writes its record.
pub(crate) fn is_write(claim: Claim) -> bool {
    matches!(claim.mode, Mode::Write)
}
