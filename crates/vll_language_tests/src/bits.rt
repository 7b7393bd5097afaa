//! Tests of scans: the number of bits, collisions, and which entries hold later ones back.
use crate::asserts::equal;
use crate::made::one_claim;
use std::test::Fail;
use vll_record::Mode::{self, Read, Write};
use vll_record::{Claim, RecordId};
use vll_sca::Status::{self, Gone, Running, Waiting};
use vll_sca::{Bits, BitsFault, Entry, Place, Placing};

// Returns an entry with one claim.
fn entry(status: Status, mode: Mode, id: u32) -> Entry {
    let claims = one_claim(Claim {
        id: RecordId(id),
        mode,
    });
    Entry { claims, status }
}

// A hash that gives every record the same place.
#[derive(Clone, Copy)]
struct Zero;

impl Place for Zero {
    ghost place_of = { λ _ _. 0 };

    fn place(&self, r: RecordId) -> u64 {
        let _ = r;
        0
    }
}

#[test]
fn number_of_bits_is_1_to_1048576(rt: HostRuntime) {
    equal(&rt, Bits::new(rt.alloc(), 0).err(), Some(BitsFault::Size));
    equal(
        &rt,
        Bits::new(rt.alloc(), 1_048_577).err(),
        Some(BitsFault::Size),
    );
    equal(&rt, Bits::new(rt.alloc(), 1_048_576).err(), None);
    equal(&rt, Bits::new(rt.alloc(), 1).err(), None);
}

#[test]
fn records_collide_modulo_the_number_of_bits(rt: HostRuntime) -> Result<(), Fail> {
    let entries = [entry(Running, Write, 0), entry(Waiting, Write, 2)];
    let mut two = Bits::new(rt.alloc(), 2)?;
    let mut three = Bits::new(rt.alloc(), 3)?;
    equal(&rt, two.scan(&Placing::Modulo, &entries), None);
    equal(&rt, three.scan(&Placing::Modulo, &entries), Some(1));
    equal(&rt, three.scan(&Zero, &entries), None);
    Ok(())
}

#[test]
fn reads_and_gone_entries_hold_none_back(rt: HostRuntime) -> Result<(), Fail> {
    let reads = [entry(Running, Read, 0), entry(Waiting, Read, 0)];
    let gone = [entry(Gone, Write, 0), entry(Waiting, Write, 0)];
    let mut one = Bits::new(rt.alloc(), 1)?;
    let mut most = Bits::new(rt.alloc(), 1_048_576)?;
    equal(&rt, one.scan(&Placing::Modulo, &reads), Some(1));
    equal(&rt, one.scan(&Placing::Modulo, &gone), Some(1));
    equal(&rt, most.scan(&Zero, &reads), Some(1));
    equal(&rt, most.scan(&Zero, &gone), Some(1));
    Ok(())
}

#[test]
fn waiting_entry_holds_later_ones_back(rt: HostRuntime) -> Result<(), Fail> {
    let entries = [
        entry(Running, Read, 0),
        entry(Waiting, Write, 0),
        entry(Waiting, Read, 0),
    ];
    let mut one = Bits::new(rt.alloc(), 1)?;
    equal(&rt, one.scan(&Placing::Modulo, &entries), None);
    equal(&rt, one.scan(&Placing::Modulo, &[]), None);
    Ok(())
}

#[test]
fn earlier_scan_leaves_nothing(rt: HostRuntime) -> Result<(), Fail> {
    let mut four = Bits::new(rt.alloc(), 4)?;
    let three_entries = [
        entry(Running, Write, 1),
        entry(Waiting, Read, 1),
        entry(Waiting, Read, 3),
    ];
    let read_waits = [entry(Waiting, Read, 1)];
    let read_below = [entry(Running, Read, 2), entry(Waiting, Write, 3)];
    let read_above = [entry(Running, Read, 3), entry(Waiting, Write, 2)];
    equal(&rt, four.scan(&Placing::Modulo, &three_entries), Some(2));
    equal(&rt, four.scan(&Placing::Modulo, &read_waits), Some(0));
    equal(&rt, four.scan(&Placing::Modulo, &read_below), Some(1));
    equal(&rt, four.scan(&Placing::Modulo, &read_above), Some(1));
    Ok(())
}

#[test]
fn places_past_the_first_word_are_told_apart(rt: HostRuntime) -> Result<(), Fail> {
    let mut room = Bits::new(rt.alloc(), 130)?;
    let last_twice = [entry(Running, Write, 129), entry(Waiting, Read, 129)];
    let same_bit_of_other_words = [
        entry(Running, Write, 129),
        entry(Running, Write, 1),
        entry(Waiting, Write, 65),
    ];
    let round_the_end = [entry(Running, Read, 0), entry(Waiting, Write, 130)];
    equal(&rt, room.scan(&Placing::Modulo, &last_twice), None);
    equal(
        &rt,
        room.scan(&Placing::Modulo, &same_bit_of_other_words),
        Some(2),
    );
    equal(&rt, room.scan(&Placing::Modulo, &round_the_end), None);
    Ok(())
}
