//! Tests of a library's number of records, and of the numbers of its procedures and calls.
use crate::asserts::{equal, holds};
use crate::procedures::library;
use std::test::Fail;
use vll_check::Library;

// Whether the procedure with a number has this name.
fn is_named(library: &Library, number: u32, name: &str) -> bool {
    match library.proc(number) {
        Some(procedure) => procedure.name.as_str() == name,
        None => false,
    }
}

#[test]
fn procedures_have_the_numbers_of_their_list(rt: HostRuntime) -> Result<(), Fail> {
    let library = library(rt.alloc())?;
    equal(&rt, library.records(), 3);
    holds(&rt, is_named(&library, 0, "z"));
    holds(&rt, is_named(&library, 2, "via"));
    holds(&rt, library.proc(3).is_none());
    Ok(())
}

#[test]
fn calls_have_the_numbers_of_their_procedures(rt: HostRuntime) -> Result<(), Fail> {
    let library = library(rt.alloc())?;
    let z = library.call("z", &[])?;
    let via = library.call("via", &[2])?;
    equal(&rt, z.number, 0);
    equal(&rt, via.number, 2);
    Ok(())
}
