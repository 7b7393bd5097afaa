//! Openings over the test procedures, and tests of what an opening refuses.
ghost use Rattle.std.specs.Prelude.{◌≡◌, IfOk};

use crate::asserts::equal;
use std::alloc::Global;
use std::test::Fail;
use vll_check::Library;
use vll_core::{Config, OpenFault};
use vll_engine::Opening;
use vll_sca::Placing;
use vll_test_procedures::library;

// An opening over `records` records that hold 0.
pub(crate) fn opening_of(
    alloc: Global,
    records: u32,
    config: Config,
    hash: Placing,
    clients: u32,
) -> Result<Opening<Placing>, Fail> {
    let library = library(alloc, records)?;
    let values = vec![in alloc; 0; records as usize]?;
    let opening = Opening::new(alloc, values, library, config, hash, clients)?;
    Ok(opening)
}

// An opening over `records` records that hold 0, with this limit and cap, by the hash that leaves the records' numbers
// as they are.
pub(crate) fn opening(
    alloc: Global,
    records: u32,
    limit: u32,
    cap: u32,
    clients: u32,
) -> Result<Opening<Placing>, Fail> {
    let config = Config {
        cap,
        limit,
        bits: 64,
    };
    opening_of(alloc, records, config, Placing::Modulo, clients)
}

// An opening over three records with these values, with `limit` as its limit and its cap.
pub(crate) fn opening_over(
    alloc: Global,
    values: [u64; 3],
    limit: u32,
    clients: u32,
) -> Result<Opening<Placing>, Fail> {
    let library = library(alloc, 3)?;
    let values = Vec::from_array(alloc, values)?;
    let config = Config {
        cap: limit,
        limit,
        bits: 64,
    };
    let opening = Opening::new(alloc, values, library, config, Placing::Modulo, clients)?;
    Ok(opening)
}

// The fault of an opening over `records` records, which needs no procedures.
fn fault_of(alloc: Global, records: u32, config: Config) -> Result<Option<OpenFault>, Fail> {
    let library = Library::new(records, Vec::new(alloc))?;
    let values = vec![in alloc; 0; records as usize]?;
    let opened = Opening::new(alloc, values, library, config, Placing::Modulo, 1);
    Ok(opened.err())
}

#[test]
fn faults_of_an_opening_come_in_order(rt: HostRuntime) -> Result<(), Fail> {
    for (records, limit, cap, bits, expected) in [
        (0, 0, 0, 0, Some(OpenFault::Records)),
        (1, 0, 0, 0, Some(OpenFault::Limit)),
        (1, 1, 0, 0, Some(OpenFault::Cap)),
        (1, 1, 1, 0, Some(OpenFault::Bits)),
        (1, 1, 1, 1, None),
        (1, 65_537, 1, 1, Some(OpenFault::Limit)),
    ] {
        let config = Config { cap, limit, bits };
        let fault = fault_of(rt.alloc(), records, config)?;
        equal(&rt, fault, expected);
    }
    Ok(())
}
