//! Tests of pair words: which requests they grant, and the pair that a word holds.
use crate::asserts::{equal, equal_at, holds};
use vll_record::{Mode, Pair, delta, granted};

// The mode of a request, the pair word before it, and whether it is granted: a read if only reads are open, a write if
// nothing is.
const REQUESTS: [(Mode, u64, bool); 9] = [
    (Mode::Read, 0, true),
    (Mode::Read, 1, true),
    (Mode::Read, 4294967295, true),
    (Mode::Read, 4294967296, false),
    (Mode::Read, 4294967299, false),
    (Mode::Write, 0, true),
    (Mode::Write, 1, false),
    (Mode::Write, 4294967296, false),
    (Mode::Write, 4294967299, false),
];

#[test]
fn read_is_granted_beside_reads_alone_and_write_alone(rt: HostRuntime) {
    for (mode, old, answer) in REQUESTS {
        equal_at(&rt, old, granted(mode, old), answer);
    }
}

#[test]
fn requests_of_two_reads_a_write_and_a_read(rt: HostRuntime) {
    let second = delta(Mode::Read);
    let third = second + delta(Mode::Read);
    let fourth = third + delta(Mode::Write);
    let end = fourth + delta(Mode::Read);
    equal(&rt, [second, third], [1, 2]);
    equal(&rt, [fourth, end], [4294967298, 4294967299]);
    holds(&rt, granted(Mode::Read, second));
    holds(
        &rt,
        !granted(Mode::Write, third) && !granted(Mode::Read, fourth),
    );
}

#[test]
fn pair_stands_in_its_word(rt: HostRuntime) {
    let pair = Pair { cx: 1, cs: 3 };
    equal(&rt, pair.word(), 4294967299);
    equal(&rt, Pair::of(4294967299), pair);
    equal(&rt, Pair::of(2), Pair { cx: 0, cs: 2 });
    equal(
        &rt,
        Pair::of(u64::MAX),
        Pair {
            cx: u32::MAX,
            cs: u32::MAX,
        },
    );
}
