//! What watches the machine of a replay, and the observer that does nothing.
ghost use Rattle.std.specs.Prelude.{◌≡◌, ◌++◌, ◌∷◌, [], List, OnOk};
ghost use Rattle.vll_sca.specs.Placing.{placing};
ghost use Rattle.vll_core.specs.declared.event.Event.{Event};
ghost use Rattle.vll_core.specs.Machine.{state_after, step, answer_of};
ghost use Rattle.vll_core.specs.Shown.{opening_of};
ghost use Rattle.vll_core.specs.State.{Opening, State};
ghost use Rattle.vll_replay.specs.Steps.{Step, step_of};

use std::alloc::AllocError;
use vll_core::{Core, Event, Refusal, Seen};
use vll_sca::Placing;

/// Watches the machine of a replay. Before each event it sees the machine and the event, and after it the machine and
/// its answer; it can change neither. It fails only if memory runs out.
pub trait Observer {
    // What an observer may be set to do.
    ghost Task: { Type 0 };

    // It was set to do this, and has seen these steps of a machine with this opening.
    ghost saw: { Task → Opening → List Step → Self → Type 0 };

    // It has also seen the machine's current state and the event that comes next.
    ghost looks: { Task → Opening → List Step → State → Event → Self → Type 0 };

    /// Looks at the machine before an event.
    fn before(&mut self, core: &Core<Placing>, event: &Event) -> Result<(), AllocError>
        ensures { OnOk result ((task : Task) (past : List Step) → saw task (opening_of placing core.now) past self.old
            → looks task (opening_of placing core.now) past core.now.state event.now self.new) };

    /// Looks at the machine after the event, and at its answer.
    fn after(
        &mut self,
        core: &Core<Placing>,
        event: &Event,
        answer: &Result<Seen, Refusal>,
    ) -> Result<(), AllocError>
        ensures { OnOk result ((task : Task) (past : List Step) (s : State) → let o = opening_of placing core.now in
            looks task o past s event.now self.old → answer.now ≡ answer_of (step o s event.now)
            → core.now.state ≡ state_after s (step o s event.now) → saw task o (past ++ step_of o s event.now ∷ []) self.new) };
}

/// The observer that does nothing.
#[derive(Clone, Copy, Debug)]
pub struct Unwatched;

impl Observer for Unwatched {
    ghost Task = { Unit {0} };

    ghost saw = { λ task o past unwatched. Unit {0} };

    ghost looks = { λ task o past s event unwatched. Unit {0} };

    fn before(&mut self, _core: &Core<Placing>, _event: &Event) -> Result<(), AllocError> {
        Ok(())
    }

    fn after(
        &mut self,
        _core: &Core<Placing>,
        _event: &Event,
        _answer: &Result<Seen, Refusal>,
    ) -> Result<(), AllocError> {
        Ok(())
    }
}
