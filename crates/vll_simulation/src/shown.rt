//! What differs between the engine and the machine, told with the seed and the step.
ghost use Rattle.std.specs.Prelude.{IsTrue};

use std::fmt::Debug;
use std::process::Abort;
use vll_core::Line;
use vll_proc::{Outputs, Reason, Reply};

// A step of a seed's schedule.
#[derive(Clone, Copy)]
pub(crate) struct Spot {
    pub(crate) seed: u64,
    pub(crate) step: u32,
}

impl Spot {
    // Both have to show the same.
    pub(crate) fn same<T: PartialEq + Debug + Drop>(
        self,
        rt: &impl Abort,
        what: &str,
        engine: T,
        machine: T,
    ) {
        if engine != machine {
            let Spot { seed, step } = self;
            panic!(rt;
                "seed {seed}, step {step}: {what}: the engine has {engine:?}, the machine {machine:?}"
            );
        }
    }

    // This has to hold, and is known afterwards.
    pub(crate) fn holds(self, rt: &impl Abort, what: &str, condition: bool)
        ensures { IsTrue condition }
    {
        if !condition {
            let Spot { seed, step } = self;
            panic!(rt; "seed {seed}, step {step}: {what}");
        }
    }

    // Both have to give the same reply, if any.
    pub(crate) fn same_reply(
        self,
        rt: &impl Abort,
        engine: &Option<Reply>,
        machine: &Option<Reply>,
    ) {
        let (engine, machine) = (engine.as_ref(), machine.as_ref());
        self.same(
            rt,
            "why it is aborted",
            engine.and_then(reason_of),
            machine.and_then(reason_of),
        );
        let (engine, machine) = (engine.and_then(outputs_of), machine.and_then(outputs_of));
        self.same(
            rt,
            "whether it is committed",
            engine.is_some(),
            machine.is_some(),
        );
        if let (Some(engine), Some(machine)) = (engine, machine) {
            self.same(rt, "the outputs", engine.as_slice(), machine.as_slice());
        }
    }
}

// The lines are the machine's, as far as they go.
pub(crate) fn are_lines<R: Abort>(rt: &R, spot: Spot, lines: &[Line], wanted: &[Line]) {
    for (line, wanted) in lines.iter().zip(wanted) {
        spot.same(rt, "a line's client", line.client, wanted.client);
        spot.same_reply(rt, &line.reply, &wanted.reply);
    }
}

// These are every second one of the machine's words, from `first` on.
pub(crate) fn are_words<R: Abort>(
    rt: &R,
    spot: Spot,
    what: &str,
    found: &[u64],
    words: &[u64],
    first: usize,
) {
    let mut index = first;
    for word in found {
        spot.same(rt, what, Some(*word), words.get(index).copied());
        index = index.saturating_add(2);
    }
    spot.same(
        rt,
        "the number of words",
        index,
        words.len().saturating_add(first).saturating_sub(1),
    );
}

fn reason_of(reply: &Reply) -> Option<Reason> {
    match reply {
        Reply::Committed(_) => None,
        Reply::Aborted(why) => Some(*why),
    }
}

fn outputs_of(reply: &Reply) -> Option<&Outputs> {
    match reply {
        Reply::Committed(outputs) => Some(outputs),
        Reply::Aborted(_) => None,
    }
}

// Fails the test, for this reason.
pub(crate) fn fail(rt: &impl Abort, why: &str) -> ! {
    panic!(rt; "{why}")
}
