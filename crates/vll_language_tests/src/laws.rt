//! Tests that the laws of vll_record, vll_proc and vll_sca require nothing.
use std::marker::Brand;
use vll_proc::{
    changes_claimed_records_alone, depends_on_claimed_records_alone, epochs_are_one_serial_run,
    invariants_carry_over, keeps_the_number_of_records, meets_nothing_undeclared, serial_runs_join,
    weight_bounds_work,
};
use vll_record::{
    claims_are_of_what_was_asked, claims_are_the_only_ones, granted_where_no_claim_conflicts,
    halves_count_the_claims, pair_and_word_tell_each_other, release_takes_its_delta,
    request_adds_its_delta, words_stand_apart,
};
use vll_sca::{
    conflict_implies_hash_conflict, gone_beginnings_do_not_matter, gone_entries_do_not_matter,
    scanned_entry_waits_and_is_clear,
};

#[test]
fn laws_of_records_ask_for_nothing() {
    claims_are_of_what_was_asked();
    claims_are_the_only_ones();
    pair_and_word_tell_each_other();
    halves_count_the_claims();
    request_adds_its_delta();
    release_takes_its_delta();
    granted_where_no_claim_conflicts();
    words_stand_apart();
}

#[test]
fn laws_of_calls_ask_for_nothing() {
    changes_claimed_records_alone();
    keeps_the_number_of_records();
    depends_on_claimed_records_alone();
    weight_bounds_work();
    meets_nothing_undeclared();
    serial_runs_join();
    epochs_are_one_serial_run();
    invariants_carry_over::<Brand>();
}

#[test]
fn laws_of_scans_ask_for_nothing() {
    conflict_implies_hash_conflict();
    scanned_entry_waits_and_is_clear();
    gone_beginnings_do_not_matter();
    gone_entries_do_not_matter();
}
