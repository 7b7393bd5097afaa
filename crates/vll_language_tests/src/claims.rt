//! Tests of the claims of a call: their order, their modes, their iterator and their equality.
#![tactic(auto, using(vll_record::proofs::WithClaim::lengths))]

use crate::asserts::{equal, holds};
use crate::made::{read, write};
use vll_record::{Claims, MOST_CLAIMS};

#[test]
fn claims_stand_in_rising_order(rt: HostRuntime) {
    let mut claims = Claims::new();
    claims.add(read(4));
    claims.add(write(0));
    claims.add(read(7));
    claims.add(read(2));
    equal(&rt, claims.len(), 4);
    equal(&rt, claims.get(0), Some(write(0)));
    equal(&rt, claims.get(1), Some(read(2)));
    equal(&rt, claims.get(2), Some(read(4)));
    equal(&rt, claims.get(3), Some(read(7)));
}

#[test]
fn record_read_and_written_is_one_write_claim(rt: HostRuntime) {
    let mut claims = Claims::new();
    claims.add(read(3));
    claims.add(write(3));
    claims.add(read(3));
    equal(&rt, claims.len(), 1);
    equal(&rt, claims.get(0), Some(write(3)));
}

#[test]
fn no_claim_stands_from_len_on(rt: HostRuntime) {
    let mut claims = Claims::new();
    equal(&rt, claims.get(0), None);
    claims.add(write(5));
    claims.add(read(1));
    equal(&rt, claims.len(), 2);
    equal(&rt, claims.get(2), None);
    equal(&rt, claims.get(MOST_CLAIMS), None);
}

#[test]
fn iterator_yields_each_claim_once(rt: HostRuntime) {
    let mut claims = Claims::new();
    claims.add(write(5));
    claims.add(read(1));
    let mut left = claims.iter();
    equal(&rt, left.next(), Some(read(1)));
    equal(&rt, left.next(), Some(write(5)));
    equal(&rt, left.next(), None);
    equal(&rt, left.next(), None);
}

#[test]
fn each_place_up_to_the_last_has_its_mode(rt: HostRuntime) {
    let mut claims = Claims::new();
    for id in 1..31 {
        claims.add(read(id));
    }
    claims.add(write(31));
    claims.add(read(0));
    equal(&rt, claims.len(), MOST_CLAIMS);
    equal(&rt, claims.get(0), Some(read(0)));
    equal(&rt, claims.get(30), Some(read(30)));
    equal(&rt, claims.get(31), Some(write(31)));
    equal(&rt, claims.get(32), None);
}

#[test]
fn claims_are_equal_where_records_and_modes_are(rt: HostRuntime) {
    let mut claims = Claims::new();
    claims.add(read(3));
    let mut same = Claims::new();
    same.add(read(3));
    let mut stronger = same;
    stronger.add(write(3));
    let mut more = same;
    more.add(read(4));
    holds(&rt, claims == same);
    holds(&rt, claims != stronger);
    holds(&rt, claims != more);
}
