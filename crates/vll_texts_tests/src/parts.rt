//! Tests of what a scenario has once read: the machine's settings, its lists, and the claims of its calls.
use crate::asserts::{equal, holds};
use std::alloc::{AllocError, Global};
use std::process::Abort;
use std::test::Fail;
use vll_core::{Config, Event};
use vll_proc::Call;
use vll_record::{MOST_CLAIMS, Mode, RecordId};
use vll_sca::Placing;
use vll_test_procedures::parts;

// A scenario of two calls with these members besides the required ones.
fn text_with(alloc: Global, more: &str) -> Result<String, AllocError> {
    format!(in alloc;
        r#"{{"version":1,"records":[5],"procs":[{{"name":"seven","args":0,"keys":[],"body":[["reply",7]]}}],
            "clients":[[{{"proc":"seven","args":[]}}],[{{"proc":"seven","args":[]}}]]{more}}}"#
    )
}

// The machine settings of the scenario that a text describes.
fn config_of(alloc: Global, text: &str) -> Result<Config, Fail> {
    let parts = parts(alloc, text)?;
    Ok(parts.config)
}

// Checks that the settings have these numbers.
fn check_config(rt: &impl Abort, config: Config, cap: u32, limit: u32, bits: u32) {
    equal(rt, config.cap, cap);
    equal(rt, config.limit, limit);
    equal(rt, config.bits, bits);
}

#[test]
fn members_choose_for_the_machine(rt: HostRuntime) -> Result<(), Fail> {
    for (more, cap, limit, bits) in [
        ("", 1_024, 2, 4_096),
        (
            r#","cap":65536,"limit":1,"bits":1048576"#,
            65_536,
            1,
            1_048_576,
        ),
        (r#","cap":1,"limit":65536,"bits":1"#, 1, 65_536, 1),
    ] {
        let text = text_with(rt.alloc(), more)?;
        let config = config_of(rt.alloc(), text.as_str())?;
        check_config(&rt, config, cap, limit, bits);
    }
    Ok(())
}

#[test]
fn scenario_without_calls_has_the_limit_1(rt: HostRuntime) -> Result<(), Fail> {
    let text = r#"{"version":1,"records":[7],"procs":[],"clients":[[],[]]}"#;
    let config = config_of(rt.alloc(), text)?;
    check_config(&rt, config, 1_024, 1, 4_096);
    Ok(())
}

#[test]
fn records_scripts_hash_and_schedule_are_kept(rt: HostRuntime) -> Result<(), Fail> {
    let text = text_with(
        rt.alloc(),
        r#","hash":"spread","schedule":[["enter",1],["claim"]]"#,
    )?;
    let parts = parts(rt.alloc(), text.as_str())?;
    equal(&rt, parts.records.as_slice(), [5].as_slice());
    equal(&rt, parts.scripts.len(), 2);
    holds(&rt, matches!(parts.placing, Placing::Spread));
    holds(
        &rt,
        matches!(parts.schedule.as_slice(), [Event::Enter(1), Event::Claim]),
    );
    Ok(())
}

const ALIAS: &str = r#"{"version":1,"records":[2,0,7],"procs":[{"name":"via","args":1,
    "keys":[["read","arg",0],["write","through",0]],
    "body":[["set",1,["add",["key",1],1]],["reply",["key",1]]]}],
    "clients":[[{"proc":"via","args":[1]}]]}"#;

// The only call of a scenario.
fn call_of(alloc: Global, text: &str) -> Result<Call, Fail> {
    let parts = parts(alloc, text)?;
    match parts.scripts.as_slice() {
        [script] => match script.as_slice() {
            [call] => Ok(*call),
            _ => Err("one call".into()),
        },
        _ => Err("one script".into()),
    }
}

#[test]
fn call_with_an_indirect_key_claims_what_its_other_keys_name(rt: HostRuntime) -> Result<(), Fail> {
    let call = call_of(rt.alloc(), ALIAS)?;
    holds(&rt, call.found.is_none());
    equal(&rt, call.claims.len(), 1);
    let claim = call.claims.get(0).ok_or("claim")?;
    holds(
        &rt,
        claim.id == RecordId(1) && matches!(claim.mode, Mode::Read),
    );
    holds(&rt, call.cells == [0; MOST_CLAIMS]);
    Ok(())
}
