//! Tests of the faults of openings, and of a core that was just opened.
use crate::asserts::equal_at;
use crate::played::run;
use std::alloc::Global;
use std::test::Fail;
use vll_check::Library;
use vll_core::{Config, Core, OpenFault, Queue};
use vll_sca::Placing;

// Returns the fault of the opening of a core over `records` records, without procedures.
fn fault_of_core(alloc: Global, records: u32, config: Config) -> Result<Option<OpenFault>, Fail> {
    let library = Library::new(records, Vec::new(alloc))?;
    let values = vec![in alloc; 5; records as usize]?;
    let scripts = Vec::new(alloc);
    let opened = Core::open(alloc, values, library, scripts, config, Placing::Modulo);
    Ok(opened.err())
}

#[test]
fn lowest_fault_of_an_opening_is_answered(rt: HostRuntime) -> Result<(), Fail> {
    for (records, limit, cap, bits, expected) in [
        (0, 0, 0, 0, Some(OpenFault::Records)),
        (1, 0, 0, 0, Some(OpenFault::Limit)),
        (1, 1, 0, 0, Some(OpenFault::Cap)),
        (1, 1, 1, 0, Some(OpenFault::Bits)),
        (1, 1, 1, 1, None),
        (65_537, 1, 1, 1, Some(OpenFault::Records)),
        (1, 65_537, 1, 1, Some(OpenFault::Limit)),
        (1, 65_537, 65_537, 1_048_577, Some(OpenFault::Limit)),
        (1, 1, 65_537, 1, Some(OpenFault::Cap)),
        (1, 65_536, 65_537, 1_048_577, Some(OpenFault::Cap)),
        (1, 1, 1, 1_048_577, Some(OpenFault::Bits)),
        (1, 65_536, 65_536, 1_048_577, Some(OpenFault::Bits)),
        (65_536, 65_536, 65_536, 1_048_576, None),
    ] {
        let config = Config { cap, limit, bits };
        let fault = fault_of_core(rt.alloc(), records, config)?;
        equal_at(&rt, (records, limit, cap, bits), fault, expected);
        // A queue has no records.
        if expected != Some(OpenFault::Records) {
            let opened = Queue::open(rt.alloc(), config, Placing::Modulo);
            equal_at(&rt, (limit, cap, bits), opened.err(), expected);
        }
    }
    Ok(())
}

#[test]
fn nothing_is_entered_at_the_opening(rt: HostRuntime) -> Result<(), Fail> {
    run(
        &rt,
        r#""records":[7,0,18446744073709551615],"clients":[],"cap":1,"limit":1,"bits":1,"hash":"spread""#,
        "stands: words 0 7 0 0 0 18446744073709551615 0",
    )
}
