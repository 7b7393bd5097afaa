//! The execution of an entered call: the steps that it has made, its frame, its reply, and which step comes next.
ghost use Rattle.std.specs.Prelude.{◌≡◌, ◌+◌, ◌<◌, ◌==◌, ◌&&◌, ◌||◌, ℕ, List, All, Option, Some, None, false, IfSome, length, filter, replicate, option_map, option_and_then, slice_get, slice_index};
ghost use Rattle.std.specs.Option.{option_map_or};
ghost use Rattle.vll_record.specs.declared.claim.Claim.{Claim};
ghost use Rattle.vll_record.specs.Headline.Claim.{is_write as writes_record};
ghost use Rattle.vll_proc.specs.declared.call.Call.{Call};
ghost use Rattle.vll_proc.specs.declared.syntax.Proc.{Proc};
ghost use Rattle.vll_proc.specs.Made.{IsCallOf};
ghost use Rattle.vll_proc.specs.Headline.Serial.{apply};
ghost use Rattle.vll_proc.specs.WellFormed.{IsWellFormed};
ghost use Rattle.vll_core.specs.State.{is_aborted, writes};
ghost use Rattle.vll_core.specs.Private.Execution.{IsLoading, IsAtWork};

use vll_proc::{Call, Frame, Proc, Reply};
use vll_record::{Claim, Claims, MOST_CLAIMS, Mode};

/// What an entered call has done: its loads, stores and releases so far, the frame on which it runs, and its
/// reply once its body has run.
#[derive(Clone, Copy)]
pub(crate) struct Execution {
    pub(crate) loads: u8,
    pub(crate) stores: u8,
    pub(crate) releases: u8,
    pub(crate) frame: Frame,
    pub(crate) reply: Option<Reply>,
}

impl Execution {
    /// Returns the execution of a call that has done nothing yet; if the call has no claims, its body has run.
    pub(crate) fn new(call: &Call, procedure: &Proc) -> Execution
        requires formed { IsWellFormed procedure.now }
        requires made { (n : ℕ) × IsCallOf n procedure.now call.now }
        ensures loads { result.loads ≡ 0 }
        ensures stores { result.stores ≡ 0 }
        ensures releases { result.releases ≡ 0 }
        ensures at_work { (procs : List Proc) (records : List ℕ)
            → slice_get procs call.now.number ≡ Some procedure.now
            → IsCallOf (length records) procedure.now call.now
            → All (λ (d : Claim). d.id < length records) call.now.claims
            → IsAtWork procs call.now records result }
    {
        let mut execution = Execution::blank();
        execution.run_if_loaded(call, procedure);
        execution
    }

    /// Returns an execution that belongs to no call. Unused places of a list are filled with it.
    pub(crate) fn blank() -> Execution
        ensures loads { result.loads ≡ 0 }
        ensures stores { result.stores ≡ 0 }
        ensures releases { result.releases ≡ 0 }
        ensures frame { result.frame ≡ replicate MOST_CLAIMS 0 }
        ensures reply { result.reply ≡ None }
    {
        Execution {
            loads: 0,
            stores: 0,
            releases: 0,
            frame: Frame::new(),
            reply: None,
        }
    }

    /// Returns the claim whose record is to be loaded next, or `None` exactly if all loads are made.
    pub(crate) fn next_load(&self, call: &Call) -> Option<Claim>
        ensures { result ≡ slice_get call.now.claims self.now.loads }
    {
        call.claims.get(self.loads as usize)
    }

    /// Takes the value of the claim that is to be loaded next. After the last one, it runs the body.
    pub(crate) fn load(&mut self, call: &Call, procedure: &Proc, value: u64)
        requires formed { IsWellFormed procedure.now }
        requires made { (n : ℕ) × IsCallOf n procedure.now call.now }
        requires left { self.old.loads < length call.now.claims }
        ensures loads { self.new.loads ≡ self.old.loads + 1 }
        ensures stores { self.new.stores ≡ self.old.stores }
        ensures releases { self.new.releases ≡ self.old.releases }
        ensures at_work { (procs : List Proc) (records : List ℕ) (c : Claim)
            → slice_get procs call.now.number ≡ Some procedure.now
            → IsCallOf (length records) procedure.now call.now
            → All (λ (d : Claim). d.id < length records) call.now.claims
            → slice_get call.now.claims self.old.loads ≡ Some c
            → value ≡ slice_index records c.id
            → IsAtWork procs call.now records self.old
            → IsAtWork procs call.now records self.new }
    {
        self.frame.put(self.loads as usize, value);
        self.loads += 1;
        self.run_if_loaded(call, procedure);
    }

    // Runs the body if all loads are made.
    fn run_if_loaded(&mut self, call: &Call, procedure: &Proc)
        requires formed { IsWellFormed procedure.now }
        requires made { (n : ℕ) × IsCallOf n procedure.now call.now }
        ensures loads { self.new.loads ≡ self.old.loads }
        ensures stores { self.new.stores ≡ self.old.stores }
        ensures releases { self.new.releases ≡ self.old.releases }
        ensures at_work { (procs : List Proc) (records : List ℕ)
            → slice_get procs call.now.number ≡ Some procedure.now
            → IsCallOf (length records) procedure.now call.now
            → All (λ (d : Claim). d.id < length records) call.now.claims
            → IsLoading call.now.claims records self.old
            → IsAtWork procs call.now records self.new }
    {
        if self.has_loaded(call) {
            let reply = self.frame.run(procedure, call);
            self.reply = Some(reply);
        }
    }

    /// Reports whether all loads are made, and so the body has run.
    pub(crate) fn has_loaded(&self, call: &Call) -> bool
        ensures { result ≡ (self.now.loads == length call.now.claims) }
    {
        self.loads as usize == call.claims.len()
    }

    /// Reports whether the body has run and the call aborted.
    pub(crate) fn has_aborted(&self) -> bool
        ensures { result ≡ option_map_or is_aborted self.now.reply false }
    {
        matches!(self.reply, Some(Reply::Aborted(_)))
    }

    /// Returns the Write claim whose record is to be stored next, with the value of its cell, or `None` exactly if all
    /// Write claims are stored.
    pub(crate) fn next_store(&self, call: &Call) -> Option<(Claim, u64)>
        ensures claim { option_map (λ (p : Claim × ℕ). p.0) result ≡ slice_get (writes call.now) self.now.stores }
        ensures value { IfSome result (λ p. (procs : List Proc) (records : List ℕ)
            → IsAtWork procs call.now records self.now
            → self.now.loads ≡ length call.now.claims
            → p.1 ≡ slice_index (apply procs call.now records).records p.0.id) }
    {
        let index = index_of_write(&call.claims, self.stores)?;
        let claim = call.claims.get(index)?;
        Some((claim, self.frame.get(index)))
    }

    /// Counts one more store.
    pub(crate) fn stored(&mut self)
        requires room { self.old.stores < 255 }
        ensures at_work { (procs : List Proc) (call : Call) (records : List ℕ)
            → IsAtWork procs call records self.old → IsAtWork procs call records self.new }
        ensures stores { self.new ≡ record self.old { stores = self.old.stores + 1 } }
    {
        self.stores += 1;
    }

    /// Reports whether all loads are made, and the call aborted or all its stores are made.
    #[tactic(auto, using(crate::proofs::AtWork::aborted_at_work))]
    pub(crate) fn has_stored(&self, call: &Call) -> bool
        ensures at_work { (procs : List Proc) (records : List ℕ) → IsAtWork procs call.now records self.now
            → result ≡ ((self.now.loads == length call.now.claims)
            && (((self.now.loads == length call.now.claims) && is_aborted (apply procs call.now records).reply)
            || (self.now.stores == length (writes call.now)))) }
        ensures answer { result ≡ ((self.now.loads == length call.now.claims)
            && (option_map_or is_aborted self.now.reply false || (self.now.stores == length (writes call.now)))) }
    {
        self.has_loaded(call)
            && (self.has_aborted() || self.stores == count_of_writes(&call.claims))
    }

    /// Returns the claim that is to be released next, or `None` exactly if all releases are made.
    pub(crate) fn next_release(&self, call: &Call) -> Option<Claim>
        ensures { result ≡ slice_get call.now.claims self.now.releases }
    {
        call.claims.get(self.releases as usize)
    }

    /// Counts one more release.
    pub(crate) fn released(&mut self)
        requires room { self.old.releases < 255 }
        ensures at_work { (procs : List Proc) (call : Call) (records : List ℕ)
            → IsAtWork procs call records self.old → IsAtWork procs call records self.new }
        ensures releases { self.new ≡ record self.old { releases = self.old.releases + 1 } }
    {
        self.releases += 1;
    }
}

// Returns the index of Write claim `number`, counted from 0 among the Write claims, or `None` if there are fewer.
fn index_of_write(claims: &Claims, number: u8) -> Option<usize>
    ensures claim { option_and_then (slice_get claims.now) result ≡ slice_get (filter writes_record claims.now) number }
    ensures within { IfSome result (λ i. i < MOST_CLAIMS) }
{
    let mut left = number;
    for i in 0..claims.len() {
        if is_write(claims.get(i)) {
            if left == 0 {
                return Some(i);
            }
            left -= 1;
        }
    }
    None
}

// Returns the number of Write claims.
fn count_of_writes(claims: &Claims) -> u8
    ensures { result ≡ length (filter writes_record claims.now) }
{
    let mut count = 0;
    for i in 0..claims.len() {
        if is_write(claims.get(i)) {
            count += 1;
        }
    }
    count
}

// Reports whether there is a claim and it is Write.
fn is_write(claim: Option<Claim>) -> bool
    ensures { result ≡ option_map_or writes_record claim false }
{
    matches!(claim, Some(claim) if matches!(claim.mode, Mode::Write))
}
