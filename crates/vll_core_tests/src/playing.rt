//! Tests that `play` tells what does not fit a transcript, and at which event.
use self::Misfit::{Changed, NoAnswer, NoEvent, OtherAnswer};
use crate::asserts::equal_at;
use crate::played::Played;
use crate::transcript::{Event, Misfit, PlayFault, Subject, play};
use std::alloc::{AllocError, Global};
use std::process::Abort;
use std::test::Fail;

// Two clients, of whose calls each bumps record 0, takes more from it than it holds, or moves from it to record 1.
const SCENARIO: &str = r#""records":[5,6],"cap":8,"limit":8,"bits":64,"clients":[
 [{"proc":"bump","args":[0]},{"proc":"transfer","args":[0,1,2]}],[{"proc":"take","args":[0,9]},{"proc":"bump","args":[1]}]]"#;

// Returns the event at which a play has failed, and what does not fit there.
fn misfit_of(played: Result<(), PlayFault>) -> Result<Option<(usize, Misfit)>, AllocError> {
    match played {
        Ok(()) => Ok(None),
        Err(PlayFault::At { step, misfit, .. }) => Ok(Some((step, misfit))),
        Err(PlayFault::NoMemory) => Err(AllocError),
    }
}

#[test]
fn play_tells_the_first_event_that_does_not_fit(rt: HostRuntime) -> Result<(), Fail> {
    for (transcript, wanted) in [
        ("", None),
        (
            "enter 0: opened; claim: claimed 0 granted\n admit: free 0; front: refused idle",
            None,
        ),
        // A wrong answer: of an event, of a refusal, of a refused event, of a granted one.
        (
            "enter 0: opened; claim: claimed 1 granted; admit: free 0",
            Some((1, OtherAnswer)),
        ),
        ("front: refused no turn", Some((0, OtherAnswer))),
        ("front: idle", Some((0, OtherAnswer))),
        ("enter 0: refused idle", Some((0, OtherAnswer))),
        ("enter 0: none", Some((0, OtherAnswer))),
        // On a later line, and as the last.
        (
            "enter 0: opened\n claim: claimed 0 granted\n admit: free 1",
            Some((2, OtherAnswer)),
        ),
        (
            "words: 0 5 0 6 0; stands: words 0 5 0 6",
            Some((1, OtherAnswer)),
        ),
        // An answer too few, and a word too few.
        ("enter 0; claim: claimed 0 granted", Some((0, NoAnswer))),
        ("enter 0: opened; claim; admit: free 0", Some((1, NoAnswer))),
        (
            "enter 0: opened; claim: claimed 0; admit: free 0",
            Some((1, OtherAnswer)),
        ),
        (
            "enter 0: opened; claim: ; admit: free 0",
            Some((1, OtherAnswer)),
        ),
        // An answer too many, and a word too many.
        (
            "enter 0: opened; opened; claim: claimed 0 granted",
            Some((1, NoAnswer)),
        ),
        (
            "enter 0: opened; : opened; claim: claimed 0 granted",
            Some((1, NoEvent)),
        ),
        (
            "enter 0: opened: opened; claim: claimed 0 granted",
            Some((0, OtherAnswer)),
        ),
        (
            "enter 0: opened again; claim: claimed 0 granted",
            Some((0, OtherAnswer)),
        ),
        // No such event, and no such numbers.
        ("enter 0: opened; close: closed", Some((1, NoEvent))),
        ("enter x: opened", Some((0, NoEvent))),
        ("enter -1: refused no call", Some((0, NoEvent))),
        ("enter 4294967296: refused no call", Some((0, NoEvent))),
        ("enter 0 0 0 0: opened", Some((0, NoEvent))),
    ] {
        let mut core = Played::open(rt.alloc(), SCENARIO)?;
        let played = play(rt.alloc(), &mut core, transcript);
        equal_at(&rt, transcript, misfit_of(played)?, wanted);
    }
    Ok(())
}

// A core that says of each event that it is refused.
#[derive(Drop)]
struct Liar(Played);

impl Subject for Liar {
    fn answer(&mut self, alloc: Global, event: &Event) -> Result<Option<String>, AllocError> {
        let answered = self.0.answer(alloc, event)?;
        drop(answered);
        let refused = String::from_str(alloc, "refused")?;
        Ok(Some(refused))
    }

    fn content(&self, alloc: Global) -> Result<String, AllocError> {
        self.0.content(alloc)
    }
}

fn lies(
    rt: &(impl AllocGlobal + Abort),
    core: &mut Liar,
    event: &str,
    wanted: Option<(usize, Misfit)>,
) -> Result<(), Fail> {
    let transcript = format!(in rt.alloc(); "{event}: refused")?;
    let played = play(rt.alloc(), core, transcript.as_str());
    equal_at(rt, event, misfit_of(played)?, wanted);
    Ok(())
}

// Each event changes one thing, of an open turn, of the words, of a call that waits or runs, or of a journal's line.
#[test]
fn play_sees_each_change_by_an_event_that_is_refused(rt: HostRuntime) -> Result<(), Fail> {
    let mut core = Liar(Played::open(rt.alloc(), SCENARIO)?);
    for event in [
        "enter 0",
        "claim",
        "admit",
        "enter 1",
        "claim",
        "admit",
        "enter 0",
        "claim",
        "claim",
        "admit",
        "load 0",
        "store 0",
        "release 0",
        "finish 0",
        "front",
        "load 1",
        "release 1",
        "finish 1",
        "enter 1",
        "claim",
        "admit",
        "scan",
        "load 2",
        "load 2",
        "store 2",
        "store 2",
        "release 2",
        "release 2",
        "finish 2",
        "front",
        "load 3",
        "drain",
    ] {
        lies(&rt, &mut core, event, Some((0, Changed)))?;
        lies(&rt, &mut core, "counts", None)?;
    }
    Ok(())
}
