//! The core of a scenario as the subject of transcripts.
use crate::transcript::{Event, Subject, play};
use crate::words::{content, said, standing, written};
use std::alloc::{AllocError, Global};
use std::test::Fail;
use vll_core::{Core, Ticket};
use vll_sca::Placing;
use vll_test_procedures::parts_with;

// The core of a scenario.
#[derive(Drop)]
pub(crate) struct Played(pub(crate) Core<Placing>);

impl Played {
    // Opens the core of the scenario that has the test procedures and these other members.
    pub(crate) fn open(alloc: Global, members: &str) -> Result<Played, Fail> {
        let parts = parts_with(alloc, members)?;
        let core = Core::open(
            alloc,
            parts.records,
            parts.library,
            parts.scripts,
            parts.config,
            parts.placing,
        )?;
        Ok(Played(core))
    }
}

fn event_of(text: &Event) -> Option<vll_core::Event> {
    use vll_core::Event::*;
    let number = text.numbers[0];
    let event = match text.name {
        "find" => Find(number),
        "enter" => Enter(number),
        "claim" => Claim,
        "admit" => Admit,
        "front" => Front,
        "scan" => Scan,
        "load" => Load(Ticket(number)),
        "store" => Store(Ticket(number)),
        "release" => Release(Ticket(number)),
        "finish" => Finish(Ticket(number)),
        _ => return None,
    };
    Some(event)
}

impl Subject for Played {
    // Besides the machine's events: the core is drained, how many calls run and wait, the words, and what stands.
    fn answer(&mut self, alloc: Global, event: &Event) -> Result<Option<String>, AllocError> {
        let text = match event.name {
            "drain" => format!(in alloc; "{}", self.0.drain())?,
            "counts" => format!(in alloc; "{} {}", self.0.running(), self.0.waiting())?,
            "words" => written(alloc, self.0.words())?,
            "stands" => standing(alloc, &self.0)?,
            _ => match event_of(event) {
                Some(event) => said(alloc, self.0.step(event))?,
                None => return Ok(None),
            },
        };
        Ok(Some(text))
    }

    fn content(&self, alloc: Global) -> Result<String, AllocError> {
        content(alloc, &self.0)
    }
}

// Plays a transcript on the core of a scenario.
pub(crate) fn run(rt: &impl AllocGlobal, members: &str, transcript: &str) -> Result<(), Fail> {
    let mut played = Played::open(rt.alloc(), members)?;
    play(rt.alloc(), &mut played, transcript)?;
    Ok(())
}
