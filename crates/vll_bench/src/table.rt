//! Calls without the engine, with a lock table: a hash table of requests for the locks of records, each of which waits
//! behind the earlier ones that conflict with it. A call requests its records in ascending order, waits for each, and its
//! body runs while it holds them all. Readers share a record.
ghost use Rattle.std.specs.Prelude.{◌≡◌, ◌≤◌, ℕ, IfOk, length};
ghost use Rattle.vll_check.specs.Calls.{Fits, IsReady};
ghost use Rattle.vll_proc.specs.Made.{IsCallOf};
ghost use Rattle.vll_proc.specs.WellFormed.{IsWellFormed};

use crate::fault::Fault;
use crate::locks::is_write;
use crate::shares::Maker;
use std::alloc::{AllocError, Global};
use std::hint::spin_loop;
use std::sync::atomic::{AtomicU64, Ordering};
use std::sync::{Mutex, Wait};
use std::thread::yield_now;
use vll_check::Library;
use vll_proc::{Call, Frame, Proc, Reply};
use vll_record::{Claim, MOST_CLAIMS, RecordId};

// The places of the hash table.
const BUCKETS: u32 = 65_536;

// A place has room for this many requests from the start.
const FEW_REQUESTS: usize = 4;

// A call that waits looks this often before it yields to other threads.
const LOOKS_A_YIELD: u32 = 16;

// A pause between two looks, in spins of a loop.
const PAUSE: u32 = 32;

// A request for the lock of a record.
#[derive(Clone, Copy)]
struct Request {
    number: u64,
    claim: Claim,
}

// The requests of one place of the table, in the order in which they were made.
#[derive(Drop)]
struct Bucket {
    made: u64,
    requests: Vec<Request>,
}

impl Bucket {
    // Adds a request. Returns its number, and whether it is granted.
    fn add(&mut self, claim: &Claim) -> Result<(u64, bool), AllocError> {
        let number = self.made;
        let granted = self.is_granted(number, claim);
        self.requests.push(Request {
            number,
            claim: *claim,
        })?;
        self.made = number.wrapping_add(1);
        Ok((number, granted))
    }

    // Whether no earlier request conflicts with this one.
    fn is_granted(&self, number: u64, claim: &Claim) -> bool {
        self.requests
            .iter()
            .take_while(|earlier| { earlier.number != number })
            .all(|earlier| { !conflicts(&earlier.claim, claim) })
    }

    // Takes a request out.
    fn release(&mut self, number: u64) {
        let place = self
            .requests
            .iter()
            .position(|request| { request.number == number });
        if let Some(place) = place {
            self.requests.remove(place);
        }
    }
}

/// Makes calls on records, for which it keeps a lock table.
#[derive(Drop)]
pub(crate) struct ByTable<'a, R: Wait> {
    rt: &'a R,
    library: &'a Library,
    records: Vec<AtomicU64>,
    buckets: Vec<Mutex<Bucket>>,
}

impl<'a, R: Wait> ByTable<'a, R> {
    /// Returns the maker of the library's calls on these records.
    pub(crate) fn new(
        rt: &'a R,
        alloc: Global,
        library: &'a Library,
        records: &[u64],
    ) -> Result<ByTable<'a, R>, AllocError>
        ensures { IfOk result (λ m. m.library.now ≡ library.now) }
    {
        let records = shared(alloc, records)?;
        let buckets = empty_buckets(alloc)?;
        Ok(ByTable {
            rt,
            library,
            records,
            buckets,
        })
    }
}

impl<R: Wait> Maker for ByTable<'_, R> {
    ghost library = { λ m. m.library.now };

    // First finds the record of the call's indirect key, if it has one.
    fn make(&self, call: &Call) -> Result<bool, Fault>
        requires { Fits self.now.library.now call.now }
    {
        let table = Table {
            records: self.records.as_slice(),
            buckets: self.buckets.as_slice(),
        };
        let Some(source) = self.library.source(call) else {
            return make_ready(self.rt, self.library, table, call);
        };
        let value = table.record(source)?.load(Ordering::SeqCst);
        let call = self.library.with_found(call, value);
        make_ready(self.rt, self.library, table, &call)
    }
}

// The records, and the lock table of these.
#[derive(Clone, Copy)]
struct Table<'t> {
    records: &'t [AtomicU64],
    buckets: &'t [Mutex<Bucket>],
}

impl<'t> Table<'t> {
    // A record's value.
    fn record(self, record: RecordId) -> Result<&'t AtomicU64, Fault> {
        self.records.get(record.0 as usize).ok_or(Fault::NoRecord)
    }

    // The place of a record's requests.
    fn bucket(self, record: RecordId) -> Result<&'t Mutex<Bucket>, Fault> {
        let place = record.0 % BUCKETS;
        self.buckets.get(place as usize).ok_or(Fault::NoRecord)
    }

    // Requests the lock of a record, and waits until it is granted. Returns the request's number.
    fn lock(self, rt: &impl Wait, claim: &Claim) -> Result<u64, Fault> {
        let bucket = self.bucket(claim.id)?;
        let added = bucket.lock(rt).add(claim);
        let added = added?;
        if !added.1 {
            wait(rt, bucket, added.0, claim);
        }
        Ok(added.0)
    }

    // Gives a lock back.
    fn unlock(self, rt: &impl Wait, claim: Claim, number: u64) -> Result<(), Fault> {
        self.bucket(claim.id)?.lock(rt).release(number);
        Ok(())
    }
}

// Puts the records where threads share them.
fn shared(alloc: Global, records: &[u64]) -> Result<Vec<AtomicU64>, AllocError> {
    let mut list = Vec::new(alloc);
    for value in records {
        list.push(AtomicU64::new(*value))?;
    }
    Ok(list)
}

// A table without requests.
fn empty_buckets(alloc: Global) -> Result<Vec<Mutex<Bucket>>, AllocError> {
    let mut list = Vec::new(alloc);
    for _ in 0..BUCKETS {
        let requests = Vec::with_capacity(alloc, FEW_REQUESTS)?;
        list.push(Mutex::new(Bucket { made: 0, requests }))?;
    }
    Ok(list)
}

// Waits until a request is granted.
fn wait(rt: &impl Wait, bucket: &Mutex<Bucket>, number: u64, claim: &Claim) {
    let mut looks: u32 = 0;
    for _ in rt.forever() {
        let granted = bucket.lock(rt).is_granted(number, claim);
        if granted {
            break;
        }
        looks = looks.wrapping_add(1);
        pause(looks);
    }
}

// Waits between two looks, the `looks`-th and the next one.
fn pause(looks: u32) {
    if looks % LOOKS_A_YIELD == 0 {
        yield_now();
        return;
    }
    for _ in 0..PAUSE {
        spin_loop();
    }
}

// Makes a call. Returns whether it committed.
fn make_ready(
    rt: &impl Wait,
    library: &Library,
    table: Table<'_>,
    call: &Call,
) -> Result<bool, Fault>
    requires { IsReady library.now call.now }
{
    let procedure = library.proc(call.number).unwrap();
    let mut frame = Frame::new();
    make_from(rt, procedure, table, call, &mut frame, 0)
}

// Takes the locks of a call's records from `cell` on, makes the call, and stores what it writes into these records.
// Returns whether it committed. A lock is given back once its record is stored.
fn make_from(
    rt: &impl Wait,
    procedure: &Proc,
    table: Table<'_>,
    call: &Call,
    frame: &mut Frame,
    cell: usize,
) -> Result<bool, Fault>
    requires formed { IsWellFormed procedure.now }
    requires made { (n : ℕ) × IsCallOf n procedure.now call.now }
    requires few { length call.now.claims ≤ MOST_CLAIMS }
{
    let Some(claim) = call.claims.get(cell) else {
        return Ok(matches!(frame.run(procedure, call), Reply::Committed(_)));
    };
    let record = table.record(claim.id)?;
    let number = table.lock(rt, &claim)?;
    frame.put(cell, record.load(Ordering::SeqCst));
    let committed = make_from(rt, procedure, table, call, frame, cell + 1)?;
    if committed && is_write(claim) {
        record.store(frame.get(cell), Ordering::SeqCst);
    }
    table.unlock(rt, claim, number)?;
    Ok(committed)
}

// Whether two claims are of one record, and one of them writes it.
fn conflicts(a: &Claim, b: &Claim) -> bool {
    a.id == b.id && (is_write(*a) || is_write(*b))
}
