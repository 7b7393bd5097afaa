//! The frame of a call: its cells, and the run of its procedure's body on them.
ghost use Rattle.std.specs.Prelude.{◌≡◌, ◌<◌, ◌≤◌, ℕ, List, false, replicate, length, slice_index, slice_set};
ghost use Rattle.vll_proc.specs.declared.call.Reason.{Reason};
ghost use Rattle.vll_proc.specs.declared.call.Reply.TheVariants.{Aborted};
ghost use Rattle.vll_proc.specs.Cells.{Holds};
ghost use Rattle.vll_proc.specs.Made.{IsCallOf};
ghost use Rattle.vll_proc.specs.Headline.Meaning.{has_moved, source_of};
ghost use Rattle.vll_proc.specs.Private.Running.{cell_opening};
ghost use Rattle.vll_proc.specs.Headline.Serial.{applied};
ghost use Rattle.vll_proc.specs.WellFormed.{IsWellFormed};

use crate::call::{Call, Reason, Reply};
use crate::limits::MOST_LOCALS;
use crate::outputs::Outputs;
use crate::run::Progress;
use crate::syntax::Proc;
use std::marker::Model;
use vll_record::MOST_CLAIMS;

// A small number of claims: most calls have no more.
const FEW_CLAIMS: usize = 4;

/// The cells of a call, one for each claim that it may have. Contracts see them as a list.
#[derive(Clone, Copy)]
pub struct Frame {
    cells: [u64; MOST_CLAIMS],
}

impl Model for Frame {
    ghost use Rattle.std.specs.Prelude.{ℕ, List};

    ghost Value = { List ℕ };

    ghost view = { λ f. f.cells };

    ghost inverse = { λ cells. record { cells = cells } };
}

impl Frame {
    /// Returns a frame whose cells are all 0.
    pub fn new() -> Frame
        ensures { result ≡ replicate MOST_CLAIMS 0 }
    {
        Frame {
            cells: [0; MOST_CLAIMS],
        }
    }

    /// Returns the value of cell `i`, counted from 0.
    pub fn get(&self, i: usize) -> u64
        requires { i < MOST_CLAIMS }
        ensures { result ≡ slice_index self.now i }
    {
        self.cells[i]
    }

    /// Sets cell `i`, counted from 0, to a value.
    pub fn put(&mut self, i: usize, value: u64)
        requires { i < MOST_CLAIMS }
        ensures { self.new ≡ slice_set self.old i value }
    {
        self.cells[i] = value;
    }

    /// Runs the body of a well-formed procedure for a call of it, on the values in the frame's cells,
    /// one for each of the call's claims, in order. Statements run in order, an `If` chooses one of its
    /// lists, and operands are evaluated from left to right, each expression once. The body ends
    /// at the first reason to abort: the procedure's own code at an `Abort`, `Overflow` at a sum or a product,
    /// `Underflow` at a difference, `ZeroDivisor` at a quotient or a remainder. If the call was found by a value
    /// that its source's cell no longer holds, none of the body is run, and the reason is `Moved`.
    /// After `Committed` the cells hold the records' new values, after `Aborted` they are unchanged. The reply and
    /// the resulting values are those of the body's meaning on any full list of records whose values the cells hold,
    /// of the length that the call was made for. It allocates no memory.
    pub fn run(&mut self, procedure: &Proc, call: &Call) -> Reply
        requires formed { IsWellFormed procedure.now }
        requires made { (n : ℕ) × IsCallOf n procedure.now call.now }
        ensures reply { (records : List ℕ) → IsCallOf (length records) procedure.now call.now
            → Holds self.old call.now.claims records
            → result ≡ (applied procedure.now call.now records).reply }
        ensures cells { (records : List ℕ) → IsCallOf (length records) procedure.now call.now
            → Holds self.old call.now.claims records
            → Holds self.new call.now.claims (applied procedure.now call.now records).records }
        ensures aborted { (why : Reason) → result ≡ Aborted why → self.new ≡ self.old }
        ensures whole { length self.new ≡ MOST_CLAIMS }
    {
        // Contracts see the list of cells, but its length only where the cells are read.
        let _ = &self.cells;
        if self.has_moved(procedure, call) {
            return Reply::Aborted(Reason::Moved);
        }
        if call.claims.len() <= FEW_CLAIMS {
            self.run_keeping::<FEW_CLAIMS>(procedure, call)
        } else {
            self.run_keeping::<MOST_CLAIMS>(procedure, call)
        }
    }

    // Runs the body. It sets only the first `KEPT` cells, which are saved first and restored if the call is aborted.
    #[inline(always)]
    fn run_keeping<const KEPT: usize>(&mut self, procedure: &Proc, call: &Call) -> Reply
        requires formed { IsWellFormed procedure.now }
        requires made { (n : ℕ) × IsCallOf n procedure.now call.now }
        requires stays { has_moved (source_of procedure.now.keys) call.now.found (cell_opening call.now self.old) ≡ false }
        requires some { 0 < KEPT }
        requires most { KEPT ≤ MOST_CLAIMS }
        requires claims { length call.now.claims ≤ KEPT }
        ensures reply { (records : List ℕ) → IsCallOf (length records) procedure.now call.now
            → Holds self.old call.now.claims records
            → result ≡ (applied procedure.now call.now records).reply }
        ensures cells { (records : List ℕ) → IsCallOf (length records) procedure.now call.now
            → Holds self.old call.now.claims records
            → Holds self.new call.now.claims (applied procedure.now call.now records).records }
        ensures aborted { (why : Reason) → result ≡ Aborted why → self.new ≡ self.old }
        ensures whole { length self.new ≡ MOST_CLAIMS }
    {
        let mut kept = [0; KEPT];
        kept.copy_from_slice(&self.cells[..KEPT]);
        let mut progress = Progress {
            locals: [0; MOST_LOCALS],
            outputs: Outputs::new(),
        };
        match progress.steps(self, procedure.body.as_slice(), call) {
            Ok(()) => Reply::Committed(progress.outputs),
            Err(why) => {
                self.cells[..KEPT].copy_from_slice(&kept);
                Reply::Aborted(why)
            }
        }
    }

    // Whether the source's cell no longer holds the value by which a record was found.
    fn has_moved(&self, procedure: &Proc, call: &Call) -> bool
        requires formed { IsWellFormed procedure.now }
        requires made { (n : ℕ) × IsCallOf n procedure.now call.now }
        ensures { result ≡ has_moved (source_of procedure.now.keys) call.now.found (cell_opening call.now self.now) }
    {
        let Some(value) = call.found else {
            return false;
        };
        let Some(source) = procedure.source() else {
            return false;
        };
        self.get(call.cells[source as usize] as usize) != value
    }
}
