//! A test of the indices of the words of records.
use crate::asserts::equal_at;
use vll_record::{RecordId, pair_word, value_word};

#[test]
fn words_of_records_follow_the_turn_word(rt: HostRuntime) {
    for (record, value, pair) in [(0, 1, 2), (1, 3, 4), (65535, 131071, 131072)] {
        equal_at(&rt, record, value_word(RecordId(record)), value);
        equal_at(&rt, record, pair_word(RecordId(record)), pair);
    }
}
