//! Tests of readers whose text is cut off, fails, is no JSON or has no end.
use crate::asserts::{equal, holds, holds_at};
use crate::streams::{Full, Narrow, Slow};
use crate::texts::TRANSFER;
use std::alloc::{AllocError, Global};
use std::io;
use std::test::Fail;
use vll_server::{Plain, ReplayFault, ScenarioFault, read_scenario, replay};

// What `read_scenario` returns for a text that is given a byte at a time.
fn read(alloc: Global, text: &[u8], breaks: bool) -> Result<(), ScenarioFault> {
    let mut reader = Plain::new(Slow { text, breaks });
    match read_scenario(alloc, &mut reader) {
        Ok(_) => Ok(()),
        Err(fault) => Err(fault),
    }
}

// What `replay` returns for it. The writer has no room, so that not a byte may be written.
fn replayed(alloc: Global, text: &[u8], breaks: bool) -> Result<(), ReplayFault> {
    let mut reader = Plain::new(Slow { text, breaks });
    let mut writer = Plain::new(Narrow::new("", 0, Full::Fails, false));
    replay(alloc, &mut reader, &mut writer)
}

// Whether both return this fault.
fn is_refused(alloc: Global, text: &[u8], breaks: bool, fault: ScenarioFault) -> bool {
    read(alloc, text, breaks) == Err(fault)
        && replayed(alloc, text, breaks) == Err(ReplayFault::Scenario(fault))
}

// How many prefixes of a text in a row, from the empty one on, are refused with this fault.
fn refused_beginnings(alloc: Global, text: &[u8], breaks: bool, fault: ScenarioFault) -> usize {
    for count in 0..text.len() {
        if !is_refused(alloc, &text[..count], breaks, fault) {
            return count;
        }
    }
    text.len()
}

// The last brace is the last byte.
#[test]
fn text_without_its_last_brace_is_no_json(rt: HostRuntime) {
    let text = TRANSFER.as_bytes();
    let refused = refused_beginnings(rt.alloc(), text, false, ScenarioFault::Json);
    equal(&rt, refused, text.len());
}

#[test]
fn failure_is_told_first(rt: HostRuntime) {
    let text = TRANSFER.as_bytes();
    let refused = refused_beginnings(rt.alloc(), text, true, ScenarioFault::Read);
    equal(&rt, refused, text.len());
    holds(&rt, is_refused(rt.alloc(), text, true, ScenarioFault::Read));
}

// Returns the text with a byte at this place that occurs in no JSON text.
fn with_255_at(alloc: Global, text: &[u8], place: usize) -> Result<Vec<u8>, AllocError> {
    let mut bytes = Vec::new(alloc);
    for (index, byte) in text.iter().enumerate() {
        bytes.push(if index == place { 255 } else { *byte })?;
    }
    Ok(bytes)
}

#[test]
fn text_with_a_byte_255_is_no_json(rt: HostRuntime) -> Result<(), Fail> {
    for place in 0..TRANSFER.len() {
        let text = with_255_at(rt.alloc(), TRANSFER.as_bytes(), place)?;
        let refused = is_refused(rt.alloc(), text.as_slice(), false, ScenarioFault::Json);
        holds_at(&rt, place, refused);
    }
    Ok(())
}

#[test]
fn spaces_without_end_are_too_many_bytes(rt: HostRuntime) {
    let mut reader = Plain::new(io::repeat(b' '));
    let read = read_scenario(rt.alloc(), &mut reader);
    holds(&rt, matches!(&read, Err(ScenarioFault::Size)));
}

#[test]
fn replay_of_spaces_without_end_is_too_many_bytes(rt: HostRuntime) {
    let mut reader = Plain::new(io::repeat(b' '));
    let mut writer = Plain::new(Narrow::new("", 0, Full::Fails, false));
    let replayed = replay(rt.alloc(), &mut reader, &mut writer);
    holds(
        &rt,
        replayed == Err(ReplayFault::Scenario(ScenarioFault::Size)),
    );
}
