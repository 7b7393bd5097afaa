//! Laws about each call of a well-formed procedure, and about calls that run one at a time, stated once for code that
//! applies calls.
ghost use Rattle.std.specs.Prelude.{◌≡◌, ◌≢◌, ℕ, ◌+◌, ◌<◌, ◌≤◌, List, ◌++◌, length, map, sum_by, All, Some, slice_get, slice_index};
ghost use Rattle.vll_record.specs.Claim.{mode_on};
ghost use Rattle.vll_record.specs.declared.claim.Mode.TheVariants.{Write};
ghost use Rattle.vll_proc.specs.declared.call.Call.{Call};
ghost use Rattle.vll_proc.specs.declared.syntax.Proc.{Proc};
ghost use Rattle.vll_proc.specs.Cells.{AgreeAt};
ghost use Rattle.vll_proc.specs.Epochs.{in_a_row, end_by_epochs, replies_by_epochs};
ghost use Rattle.vll_proc.specs.Made.{IsCallOf};
ghost use Rattle.vll_proc.specs.Headline.Meaning.{Scene, effect, in_turn};
ghost use Rattle.vll_proc.specs.Headline.Serial.{Made, answer, applied, before, end};
ghost use Rattle.vll_proc.specs.Serial.{Keeps, replies};
ghost use Rattle.vll_proc.specs.Steps.{body_cost, own_steps, own_turns, own_tests};
ghost use Rattle.vll_proc.specs.Undeclared.{AgreeOnDeclared, EndsAlike};
ghost use Rattle.vll_proc.specs.WellFormed.{IsWellFormed, weight};

use crate::limits::MOST_WEIGHT;
use crate::property::Property;

/// A call changes no record that it does not claim for writing.
pub fn changes_claimed_records_alone()
    ensures { (p : Proc) (c : Call) (records : List ℕ) → IsWellFormed p → IsCallOf (length records) p c
        → (r : ℕ) → mode_on c.claims r ≢ Some Write
        → slice_index (applied p c records).records r ≡ slice_index records r }
{}

/// A call adds no record and removes none.
pub fn keeps_the_number_of_records()
    ensures { (p : Proc) (c : Call) (records : List ℕ)
        → length (applied p c records).records ≡ length records }
{}

/// A call's reply, and the values that it leaves in the records of its claims, depend only on the
/// values of those records.
pub fn depends_on_claimed_records_alone()
    ensures replies { (p : Proc) (c : Call) (m n : List ℕ) → IsWellFormed p → IsCallOf (length m) p c
        → IsCallOf (length n) p c → AgreeAt c.claims m n → (applied p c m).reply ≡ (applied p c n).reply }
    ensures values { (p : Proc) (c : Call) (m n : List ℕ) → IsWellFormed p → IsCallOf (length m) p c
        → IsCallOf (length n) p c → AgreeAt c.claims m n
        → AgreeAt c.claims (applied p c m).records (applied p c n).records }
{}

/// The weight of a body bounds the work of each run of it, wherever it begins: the steps (statements run, and
/// expressions evaluated), the turns that `Repeat`s take, and the statements tested to tell whether a list does
/// nothing are each at most the weight, and the weight is at most `MOST_WEIGHT`.
pub fn weight_bounds_work()
    ensures steps { (p : Proc) (s : Scene) → body_cost own_steps p.body s ≤ sum_by weight p.body }
    ensures turns { (p : Proc) (s : Scene) → body_cost own_turns p.body s ≤ sum_by weight p.body }
    ensures tests { (p : Proc) (s : Scene) → body_cost own_tests p.body s ≤ sum_by weight p.body }
    ensures most { (p : Proc) → IsWellFormed p → sum_by weight p.body ≤ MOST_WEIGHT }
{}

/// A well-formed procedure depends on no key position or argument beyond those that it declares, and
/// on no local that it has not set: whatever these hold, its body ends in the same way.
pub fn meets_nothing_undeclared()
    ensures { (p : Proc) (s t : Scene) → IsWellFormed p → AgreeOnDeclared p s t
        → EndsAlike (in_turn (map effect p.body) s) (in_turn (map effect p.body) t) }
{}

/// A serial run of one list of calls, and then of a second from where the first ended, gives the same replies and the
/// same records at the end as a run of both lists in a row.
pub fn serial_runs_join()
    ensures first { (procs : List Proc) (calls more : List Made) (records : List ℕ) (i : ℕ) → i < length calls
        → answer procs calls records i ≡ answer procs (calls ++ more) records i }
    ensures second { (procs : List Proc) (calls more : List Made) (records : List ℕ) (i : ℕ)
        → answer procs more (end procs calls records) i ≡ answer procs (calls ++ more) records (length calls + i) }
    ensures end { (procs : List Proc) (calls more : List Made) (records : List ℕ)
        → end procs more (end procs calls records) ≡ end procs (calls ++ more) records }
{}

/// The replies of all epochs, in a row, are those of one serial run of all their calls, however many epochs there are,
/// and so are the records at the end. In such a list of replies each call has its answer.
pub fn epochs_are_one_serial_run()
    ensures replies { (procs : List Proc) (epochs : List (List Made)) (records : List ℕ)
        → replies_by_epochs procs epochs records ≡ replies procs (in_a_row epochs) records }
    ensures end { (procs : List Proc) (epochs : List (List Made)) (records : List ℕ)
        → end_by_epochs procs epochs records ≡ end procs (in_a_row epochs) records }
    ensures answers { (procs : List Proc) (calls : List Made) (records : List ℕ) (i : ℕ)
        → slice_get (replies procs calls records) i ≡ answer procs calls records i }
{}

/// An invariant carries over: if the opening records have a property and each call of a list keeps it, the records
/// before every call and at the end have it.
pub fn invariants_carry_over<P: Property>()
    ensures before { (procs : List Proc) (calls : List Made) (records : List ℕ) → P.holds records
        → All (Keeps procs P.holds) calls → (i : ℕ) → P.holds (before procs calls records i) }
    ensures end { (procs : List Proc) (calls : List Made) (records : List ℕ) → P.holds records
        → All (Keeps procs P.holds) calls → P.holds (end procs calls records) }
{}
