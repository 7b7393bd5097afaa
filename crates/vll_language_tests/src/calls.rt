//! Tests of the calls that a library makes: their arguments, their claims, and which calls fit.
use crate::asserts::holds;
use crate::made::{cells, one_claim, read, two_claims, write};
use crate::procedures::library;
use std::test::Fail;
use vll_proc::Call;
use vll_record::Claims;

#[test]
fn call_has_its_arguments_and_its_claims(rt: HostRuntime) -> Result<(), Fail> {
    let library = library(rt.alloc())?;
    let call = library.call("transfer", &[1, 0, 7])?;
    let wanted = Call {
        number: 1,
        arg_count: 3,
        args: [1, 0, 7, 0, 0, 0, 0, 0],
        found: None,
        claims: two_claims(read(0), write(1)),
        cells: cells(1, 0),
    };
    holds(&rt, call == wanted);
    Ok(())
}

#[test]
fn record_of_two_keys_is_claimed_once(rt: HostRuntime) -> Result<(), Fail> {
    let library = library(rt.alloc())?;
    let call = library.call("transfer", &[1, 1, 7])?;
    holds(&rt, call.claims == one_claim(write(1)));
    holds(&rt, call.cells == cells(0, 0));
    Ok(())
}

#[test]
fn made_call_fits_and_no_other(rt: HostRuntime) -> Result<(), Fail> {
    let library = library(rt.alloc())?;
    let call = library.call("transfer", &[1, 0, 7])?;
    holds(&rt, library.fits(&call));
    let args = [0, 1, 7, 0, 0, 0, 0, 0];
    let claims = Claims::new();
    let others = [
        Call { number: 3, ..call },
        Call {
            arg_count: 9,
            ..call
        },
        Call { args, ..call },
        Call {
            found: Some(5),
            ..call
        },
        Call { claims, ..call },
    ];
    for other in &others {
        holds(&rt, !library.fits(other));
    }
    Ok(())
}
