//! Tests of which call a queue's scan finds.
use crate::queue::{run, sizes};
use std::test::Fail;

// With 4 bits, records 0 and 4 share one.
#[test]
fn scan_finds_the_first_call_that_no_earlier_one_hinders(rt: HostRuntime) -> Result<(), Fail> {
    run(
        &rt,
        sizes(5, 5, 4),
        "free 0: ticket 0; blocked 0: ticket 1; blocked 4: ticket 2; blocked 1: ticket 3; blocked 2: ticket 4
         scan: ticket 3; status 3: running; counts: 2 3; scan: ticket 4; scan: none; counts: 3 2",
    )?;
    Ok(())
}

#[test]
fn scan_passes_calls_that_are_gone(rt: HostRuntime) -> Result<(), Fail> {
    run(
        &rt,
        sizes(5, 5, 4),
        "free 0: ticket 0; free 1: ticket 1; free 2: ticket 2; blocked 2: ticket 3; blocked 0: ticket 4; scan: none
         finish 2: ticket 2; scan: ticket 3; scan: none; finish 0: ticket 0; scan: ticket 4; scan: none",
    )?;
    Ok(())
}

#[test]
fn removal_lets_a_scan_find_again(rt: HostRuntime) -> Result<(), Fail> {
    run(
        &rt,
        sizes(3, 4, 4),
        "free 0: ticket 0; free 1: ticket 1; blocked 0: ticket 2; blocked 1: ticket 3; scan: none; scan: none
         finish 1: ticket 1; scan: ticket 3; scan: none; scan: none; finish 3: ticket 3; scan: none
         finish 0: ticket 0; scan: ticket 2; scan: none",
    )?;
    Ok(())
}

#[test]
fn blocked_call_lets_a_scan_find_again(rt: HostRuntime) -> Result<(), Fail> {
    run(
        &rt,
        sizes(4, 5, 4),
        "free 0: ticket 0; blocked 0: ticket 1; scan: none; blocked 1: ticket 2; scan: ticket 2; scan: none
         blocked 0: ticket 3; scan: none; blocked 2: ticket 4; scan: ticket 4; scan: none",
    )?;
    Ok(())
}

#[test]
fn neither_the_front_nor_a_free_call_lets_a_scan_find_again(rt: HostRuntime) -> Result<(), Fail> {
    run(
        &rt,
        sizes(3, 6, 4),
        "scan: none; free 0: ticket 0; scan: none; blocked 0: ticket 1; blocked 0: ticket 2; scan: none
         front: none; scan: none; free 3: ticket 3; scan: none; finish 0: ticket 0; front: ticket 1; scan: none
         free 2: ticket 4; front: none; scan: none; counts: 3 1
         finish 1: ticket 1; scan: ticket 2; scan: none; counts: 3 0",
    )?;
    Ok(())
}

// After the running front, `gone` calls enter and are gone; then four enter: two that claim the front's record, one
// that runs on another record, and one that claims that record.
fn behind_many_that_are_gone(rt: &impl AllocGlobal, gone: u16) -> Result<(), Fail> {
    let gone = u32::from(gone);
    let [one, two, three, four, five] = [gone + 1, gone + 2, gone + 3, gone + 4, gone + 5];
    let mut text = String::from_str(rt.alloc(), "free 0: ticket 0")?;
    for ticket in 1..=gone {
        write!(
            text,
            "; free 1: ticket {ticket}; finish {ticket}: ticket {ticket}; scan: none"
        )?;
    }
    write!(
        text,
        "; blocked 0: ticket {one}; free 2: ticket {two}; blocked 0: ticket {three}; blocked 2: ticket {four}; scan: none
         front: none; finish {two} 1: ticket {two}; scan: ticket {four}; scan: none
         finish 0 2: ticket 0; front: ticket {one}; scan: none; finish {one} 3: ticket {one}; front: ticket {three}
         finish {four} 4: ticket {four}; finish {three} 5: ticket {three}; front: none; scan: none
         blocked 0: ticket {five}; front: ticket {five}; counts: 1 0; status 0: gone; status {gone}: gone
         status {five}: running; line {two}: client 0 call 0 aborted code 1"
    )?;
    run(rt, sizes(4, 65_536, 64), text.as_str())?;
    Ok(())
}

#[test]
fn calls_that_are_gone_behind_the_front_are_in_nobodys_way(rt: HostRuntime) -> Result<(), Fail> {
    for gone in [1, 2, 3, 4, 5, 6, 7, 8, 9, 100, 3_000] {
        behind_many_that_are_gone(&rt, gone)?;
    }
    Ok(())
}
