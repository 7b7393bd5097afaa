//! Laws about each checked procedure, and about each call that a library makes.
ghost use Rattle.std.specs.Prelude.{◌≡◌, ◌<◌, ℕ, List, All, None, true};
ghost use Rattle.vll_record.specs.declared.claim.Claim.{Claim};
ghost use Rattle.vll_proc.specs.declared.call.Call.{Call};
ghost use Rattle.vll_proc.specs.declared.syntax.Proc.{Proc};
ghost use Rattle.vll_proc.specs.WellFormed.{IsWellFormed, has_records};
ghost use Rattle.vll_check.specs.Headline.Calls.{source, with_found, AreFound};
ghost use Rattle.vll_check.specs.Calls.{bare, bares, CallsProcedure, Fits, IsReady};
ghost use Rattle.vll_check.specs.Headline.Catalog.{Catalog};
ghost use Rattle.vll_check.specs.Catalog.{IsCatalog};
ghost use Rattle.vll_check.specs.Faults.{check_fault};

/// A procedure that passed the tests for a number of records is well-formed, and its fixed records exist.
#[tactic(auto, using(crate::proofs::Passed::passed_all))]
pub fn checked_procedures_are_well_formed()
    ensures { (records : ℕ) (p : Proc) → check_fault records p ≡ None
        → IsWellFormed p × (has_records records p ≡ true) }
{}

/// A call that a library makes claims only records that exist. A call without an indirect key has no source, and
/// finding leaves it unchanged. Finding changes neither the procedure nor the arguments of a call. So if calls may
/// enter and have the procedures and arguments of given calls, they are the given calls with the values found.
pub fn fitting_calls_are_of_the_records()
    ensures within { (c : Catalog) (call : Call) → IsCatalog c → Fits c call → All (λ (d : Claim). d.id < c.records) call.claims }
    ensures alone { (c : Catalog) (call : Call) (v : ℕ) → IsCatalog c → Fits c call → source c call ≡ None → with_found c call v ≡ call }
    ensures found { (c : Catalog) (call : Call) (v : ℕ) → Fits c call → bare (with_found c call v) ≡ bare call }
    ensures like { (c : Catalog) (calls found : List Call) → All (Fits c) calls → All (IsReady c) found → bares found ≡ bares calls → AreFound c calls found }
{}

/// A call that is ready was made for a checked, well-formed procedure with its number, has found what it needs, and
/// claims only existing records.
#[tactic(auto, using(crate::proofs::Fitting::ready_well))]
pub fn ready_calls_have_their_procedure()
    ensures { (c : Catalog) (call : Call) → IsCatalog c → IsReady c call → CallsProcedure c call }
{}
