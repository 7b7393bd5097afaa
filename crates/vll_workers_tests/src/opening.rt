//! Openings over the test procedures.
use std::alloc::Global;
use std::test::Fail;
use vll_core::Config;
use vll_engine::Opening;
use vll_sca::Placing;
use vll_test_procedures::library;

// Makes an opening over `records` records that hold 0, for `limit` calls.
pub(crate) fn opening(
    alloc: Global,
    records: u32,
    limit: u32,
    clients: u32,
) -> Result<Opening<Placing>, Fail> {
    let config = Config {
        cap: 8,
        limit,
        bits: 64,
    };
    opening_of(alloc, records, config, clients)
}

// Makes an opening over `records` records that hold 0, with these sizes.
pub(crate) fn opening_of(
    alloc: Global,
    records: u32,
    config: Config,
    clients: u32,
) -> Result<Opening<Placing>, Fail> {
    let library = library(alloc, records)?;
    let values = vec![in alloc; 0; records as usize]?;
    let opening = Opening::new(alloc, values, library, config, Placing::Modulo, clients)?;
    Ok(opening)
}
