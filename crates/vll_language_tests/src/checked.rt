//! Tests of `check`: the checked procedure that it returns, and in which edition a procedure may repeat.
use crate::asserts::{equal, holds};
use crate::procedures::procedure;
use std::alloc::{AllocError, Global};
use std::test::Fail;
use vll_check::{CheckFault, check};
use vll_proc::{Edition, Items, Proc, Stmt, Text};

// A procedure of this edition whose body is a `Repeat` of no statements in no turns.
fn repeat_of_nothing(alloc: Global, edition: Edition) -> Result<Proc, AllocError> {
    let name = String::from_str(alloc, "p")?;
    let body = vec![in alloc; Stmt::Repeat(0, Items::new(alloc))]?;
    Ok(Proc {
        edition,
        name: Text::new(name),
        args: 0,
        keys: Items::new(alloc),
        body: Items::from_vec(body),
    })
}

#[test]
fn checked_procedure_is_the_one_that_was_given(rt: HostRuntime) -> Result<(), Fail> {
    let procedure = procedure(rt.alloc(), "p", 3, &[])?;
    let checked = check(procedure, 2)?;
    equal(&rt, checked.records(), 2);
    equal(&rt, checked.proc().args, 3);
    holds(&rt, checked.proc().name.as_str() == "p");
    Ok(())
}

#[test]
fn repeat_is_of_edition_two(rt: HostRuntime) -> Result<(), Fail> {
    let one = repeat_of_nothing(rt.alloc(), Edition::One)?;
    let two = repeat_of_nothing(rt.alloc(), Edition::Two)?;
    holds(&rt, check(one, 2).err() == Some(CheckFault::Turns));
    holds(&rt, check(two, 2).err() == None);
    Ok(())
}
