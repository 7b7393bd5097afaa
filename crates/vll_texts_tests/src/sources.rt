//! Tests of reading a source that is slow, that fails, or that is the largest allowed or larger.
use crate::asserts::{equal, holds, holds_at};
use crate::streams::Slow;
use std::io;
use std::io::Read;
use std::test::Fail;
use vll_scenario::{Plain, ScenarioFault, Source, read_scenario};

const TEXT: &str = r#"{"version":1,"records":[7,5],"procs":[],"clients":[]}"#;

#[test]
fn source_may_give_a_byte_at_a_time(rt: HostRuntime) -> Result<(), Fail> {
    let mut source = Plain::new(Slow {
        text: TEXT.as_bytes(),
        breaks: false,
    });
    let scenario = read_scenario(rt.alloc(), &mut source)?;
    equal(
        &rt,
        scenario.into_parts().records.as_slice(),
        [7, 5].as_slice(),
    );
    holds(&rt, !source.has_failed());
    Ok(())
}

#[test]
fn source_that_fails_is_told_before_what_it_gave(rt: HostRuntime) {
    for text in ["", "[1, ", "no text of JSON", TEXT] {
        let mut source = Plain::new(Slow {
            text: text.as_bytes(),
            breaks: true,
        });
        let read = read_scenario(rt.alloc(), &mut source);
        holds_at(&rt, text, matches!(read, Err(ScenarioFault::Read)));
        holds_at(&rt, text, source.has_failed());
    }
}

#[test]
fn largest_source_is_read_to_its_end(rt: HostRuntime) {
    let mut source = Plain::new(io::repeat(b' ').take(16_777_216));
    let read = read_scenario(rt.alloc(), &mut source);
    holds(&rt, matches!(read, Err(ScenarioFault::Json)));
    let mut source = Plain::new(io::repeat(b' ').take(16_777_217));
    let read = read_scenario(rt.alloc(), &mut source);
    holds(&rt, matches!(read, Err(ScenarioFault::Size)));
}
