//! A test of the places that the hashes give to neighbouring records.
use crate::asserts::{equal, equal_at};
use vll_record::RecordId;
use vll_sca::{Place, Placing};

#[test]
fn neighbours_are_spread(rt: HostRuntime) {
    for (record, place) in [(0, 0), (1, 2_654_435_769), (2, 1_013_904_242)] {
        equal_at(&rt, record, Placing::Spread.place(RecordId(record)), place);
        equal(
            &rt,
            Placing::Modulo.place(RecordId(record)),
            u64::from(record),
        );
    }
}
