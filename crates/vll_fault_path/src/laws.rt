//! A law about the tests that find the piece at fault.
ghost use Rattle.std.specs.Prelude.{◌≡◌, ℕ, ◌&&◌, Some, false};
ghost use Rattle.vll_proc.specs.declared.syntax.Proc.{Proc};
ghost use Rattle.vll_check.specs.declared.fault.CheckFault.{CheckFault};
ghost use Rattle.vll_check.specs.Faults.{check_fault};
ghost use Rattle.vll_check.specs.Pieces.{args_pass, keys_pass, list_passes, nothing_before};

/// If a procedure is refused, the number of its arguments, its key positions or its body does not pass the test: so the
/// way to the piece at fault goes on from the procedure.
pub fn refused_procedures_have_a_part_at_fault()
    ensures { (records : ℕ) (p : Proc) (why : CheckFault) → check_fault records p ≡ Some why
        → (args_pass why p && (keys_pass why records p && list_passes why p nothing_before p.body)) ≡ false }
{}
