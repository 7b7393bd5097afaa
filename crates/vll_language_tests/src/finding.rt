//! Tests of finding: the source of a call, the record that a value names, and which calls are ready.
use crate::asserts::{equal, holds};
use crate::made::{cells, one_claim, read, two_claims, write};
use crate::procedures::{fitting, library};
use std::test::Fail;
use vll_proc::Call;
use vll_record::RecordId;

#[test]
fn found_value_names_the_record(rt: HostRuntime) -> Result<(), Fail> {
    let library = library(rt.alloc())?;
    let call = fitting(&library, "via", &[1])?;
    equal(&rt, library.source(&call), Some(RecordId(1)));
    holds(&rt, !library.is_ready(&call));
    let found = library.with_found(&call, 5);
    let wanted = Call {
        found: Some(5),
        claims: two_claims(read(1), write(2)),
        cells: cells(0, 1),
        ..call
    };
    holds(&rt, found == wanted);
    holds(&rt, library.is_ready(&found));
    Ok(())
}

#[test]
fn record_found_may_be_the_source(rt: HostRuntime) -> Result<(), Fail> {
    let library = library(rt.alloc())?;
    let call = fitting(&library, "via", &[1])?;
    let found = library.with_found(&call, 4);
    holds(&rt, found.claims == one_claim(write(1)));
    holds(&rt, found.cells == cells(0, 0));
    let other = Call {
        found: Some(5),
        ..found
    };
    holds(&rt, !library.is_ready(&other));
    Ok(())
}

#[test]
fn call_without_an_indirect_key_is_ready(rt: HostRuntime) -> Result<(), Fail> {
    let library = library(rt.alloc())?;
    let call = fitting(&library, "z", &[])?;
    equal(&rt, library.source(&call), None);
    holds(&rt, library.is_ready(&call));
    holds(&rt, library.with_found(&call, 5) == call);
    let other = Call {
        found: Some(5),
        ..call
    };
    holds(&rt, !library.is_ready(&other));
    Ok(())
}
