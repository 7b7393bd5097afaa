//! Procedures, a library of three of them for 3 records, and calls that it makes.
ghost use Rattle.std.specs.Prelude.{◌≡◌, IfOk};
ghost use Rattle.vll_check.specs.Calls.{Fits};

use std::alloc::{AllocError, Global};
use std::test::Fail;
use vll_check::{Checked, Library, check};
use vll_proc::{Call, Edition, Items, KeyAt, KeyDecl, Proc, Text};
use vll_record::Mode;

// A procedure of edition One without statements.
pub(crate) fn procedure(
    alloc: Global,
    name: &str,
    args: u8,
    keys: &[KeyDecl],
) -> Result<Proc, AllocError> {
    let name = String::from_str(alloc, name)?;
    let keys = Items::from_slice(alloc, keys)?;
    Ok(Proc {
        edition: Edition::One,
        name: Text::new(name),
        args,
        keys,
        body: Items::new(alloc),
    })
}

// A procedure, checked for 3 records.
fn checked(alloc: Global, name: &str, args: u8, keys: &[KeyDecl]) -> Result<Checked, Fail>
    ensures { IfOk result (λ c. c.records ≡ 3) }
{
    let procedure = procedure(alloc, name, args, keys)?;
    let checked = check(procedure, 3)?;
    Ok(checked)
}

fn key(mode: Mode, at: KeyAt) -> KeyDecl {
    KeyDecl { mode, at }
}

// `z` has no key. `transfer` writes the record of its first argument and reads that of its second. `via` reads the
// record of its argument, and writes the one that is found by that record's value.
pub(crate) fn library(alloc: Global) -> Result<Library, Fail> {
    let z = checked(alloc, "z", 0, &[])?;
    let keys = [
        key(Mode::Write, KeyAt::Arg(0)),
        key(Mode::Read, KeyAt::Arg(1)),
    ];
    let transfer = checked(alloc, "transfer", 3, &keys)?;
    let keys = [
        key(Mode::Read, KeyAt::Arg(0)),
        key(Mode::Write, KeyAt::Through(0)),
    ];
    let via = checked(alloc, "via", 1, &keys)?;
    let procs = vec![in alloc; z, transfer, via]?;
    let library = Library::new(3, procs)?;
    Ok(library)
}

// A call that the library makes.
pub(crate) fn fitting(library: &Library, name: &str, args: &[u64]) -> Result<Call, Fail>
    ensures { IfOk result (λ c. Fits library.now c) }
{
    let call = library.call(name, args)?;
    if library.fits(&call) {
        Ok(call)
    } else {
        Err(Fail::new("a call does not fit its library"))
    }
}
