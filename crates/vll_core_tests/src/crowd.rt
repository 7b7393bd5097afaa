//! A test of as many calls as can be entered in a core, all on one record.
ghost use Rattle.std.specs.Prelude.{All, IfOk};
ghost use Rattle.vll_check.specs.Calls.{Fits};

use crate::played::Played;
use crate::transcript::play;
use std::alloc::Global;
use std::test::Fail;
use vll_check::{CallFault, Library};
use vll_core::{Config, Core};
use vll_proc::Call;
use vll_sca::Placing;
use vll_test_procedures::library;

// Returns a bump of record 0.
fn bump(library: &Library) -> Result<Call, CallFault>
    ensures { IfOk result (Fits library.now) }
{
    library.call("bump", &[0])
}

// Returns `count` bumps of record 0.
fn bumps(alloc: Global, library: &Library, count: usize) -> Result<Vec<Call>, Fail>
    ensures { IfOk result (λ script. All (Fits library.now) script.items) }
{
    let mut script = Vec::new(alloc);
    for _ in 0..count {
        let call = bump(library)?;
        script.push(call)?;
    }
    Ok(script)
}

// Returns the scripts of two clients: as many bumps as can enter, and one.
fn scripts(alloc: Global, library: &Library) -> Result<Vec<Vec<Call>>, Fail>
    ensures { IfOk result (λ scripts. All (λ script. All (Fits library.now) script.items) scripts.items) }
{
    let mut scripts = Vec::new(alloc);
    for count in [65_536, 1] {
        let script = bumps(alloc, library, count)?;
        scripts.push(script)?;
    }
    Ok(scripts)
}

// Opens a core over one record that is 0, with these scripts, and with the highest limit and cap.
fn core(alloc: Global) -> Result<Core<Placing>, Fail> {
    let library = library(alloc, 1)?;
    let scripts = scripts(alloc, &library)?;
    let records = vec![in alloc; 0]?;
    let config = Config {
        cap: 65_536,
        limit: 65_536,
        bits: 64,
    };
    let core = Core::open(alloc, records, library, scripts, config, Placing::Modulo)?;
    Ok(core)
}

// Enters a bump after `others` others.
fn enter_behind(alloc: Global, core: &mut Played, others: u16) -> Result<(), Fail> {
    let word = u64::from(others) * 4_294_967_296;
    let transcript = format!(in alloc;
        "enter 0: opened; claim: claimed {word} denied; admit: blocked {others}"
    )?;
    play(alloc, core, transcript.as_str())?;
    Ok(())
}

#[test]
fn as_many_calls_as_can_wait_for_one_record_and_end(rt: HostRuntime) -> Result<(), Fail> {
    let mut core = Played(core(rt.alloc())?);
    play(
        rt.alloc(),
        &mut core,
        "enter 0: opened; claim: claimed 0 granted; admit: free 0",
    )?;
    for others in 1..=65_535 {
        enter_behind(rt.alloc(), &mut core, others)?;
    }
    // Four steps for the first, and five for each that waits.
    play(
        rt.alloc(),
        &mut core,
        "words: 0 0 281474976710656; enter 1: refused spent; drain: 327679; words: 0 65536 0",
    )?;
    Ok(())
}
