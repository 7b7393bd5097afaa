//! The events of a schedule, performed one after the other while an observer watches.
ghost use Rattle.std.specs.Prelude.{◌≡◌, ◌++◌, ◌∷◌, [], List, OnOk, string_bytes};
ghost use Rattle.std.specs.List.{enumerate_from, flat_map};
ghost use Rattle.vll_sca.specs.Placing.{placing};
ghost use Rattle.vll_core.specs.Machine.{answers, run, step, answer_of};
ghost use Rattle.vll_core.specs.Shown.{after, opening_of};
ghost use Rattle.vll_replay.specs.ReplayText.{event_line};
ghost use Rattle.vll_replay.specs.Steps.{Step, step_of, steps};

use crate::event_text::push_event_line;
use crate::observer::Observer;
use std::alloc::AllocError;
use vll_core::{Core, Event};
use vll_sca::Placing;

// Performs the events one after the other, shows each to the observer, and appends a line for each.
pub(crate) fn push_event_lines<O: Observer>(
    text: &mut String,
    core: &mut Core<Placing>,
    schedule: &[Event],
    observer: &mut O,
) -> Result<(), AllocError>
    ensures text { OnOk result (string_bytes text.new ≡ string_bytes text.old
        ++ flat_map event_line (enumerate_from 0 (answers (opening_of placing core.old) core.old.state schedule.now))) }
    ensures core { OnOk result (core.new ≡ record core.old { state = run (opening_of placing core.old) core.old.state schedule.now }) }
    ensures observed { OnOk result ((task : O.Task) (past : List Step) → O.saw task (opening_of placing core.old) past observer.old
        → O.saw task (opening_of placing core.old) (past ++ steps (opening_of placing core.old) core.old.state schedule.now) observer.new) }
{
    for (index, event) in schedule.iter().enumerate() {
        push_event(text, core, index, event, observer)?;
    }
    Ok(())
}

// Performs an event, shows it to the observer, and appends its line.
fn push_event<O: Observer>(
    text: &mut String,
    core: &mut Core<Placing>,
    index: usize,
    event: &Event,
    observer: &mut O,
) -> Result<(), AllocError>
    ensures text { OnOk result (string_bytes text.new ≡ string_bytes text.old
        ++ event_line (index, answer_of (step (opening_of placing core.old) core.old.state event.now))) }
    ensures core { OnOk result (core.new ≡ after core.old (step (opening_of placing core.old) core.old.state event.now)) }
    ensures observed { OnOk result ((task : O.Task) (past : List Step) → O.saw task (opening_of placing core.old) past observer.old
        → O.saw task (opening_of placing core.old) (past ++ step_of (opening_of placing core.old) core.old.state event.now ∷ []) observer.new) }
{
    observer.before(core, event)?;
    let answer = core.step(*event);
    observer.after(core, event, &answer)?;
    push_event_line(text, index, &answer)
}
