//! The events of a schedule.
ghost use Rattle.std.specs.Prelude.{◌≤◌, codes};
ghost use Rattle.serde_json.specs.Find.{get};
ghost use Rattle.serde_json.specs.View.{view};
ghost use Rattle.vll_scenario.specs.Private.Longest.{longest_list};
ghost use Rattle.vll_scenario.specs.Schedule.{event_at, event_with, words_alone};
ghost use Rattle.vll_scenario.specs.Shape.{in_part, list_if_there};
ghost use Rattle.vll_scenario.specs.Private.Reading.{GivesUnlessMemory};
ghost use Rattle.vll_scenario.specs.Syntax.{find_word};
ghost use Rattle.vll_scenario.specs.Tree.{Gives, u32_at};
ghost use Rattle.vll_scenario.specs.declared.fault.Part.TheVariants as Part;

use crate::fault::{Part, ScenarioFault};
use crate::limits::MOST_BYTES;
use crate::reading::shape::list_in;
use crate::reading::syntax::word_of;
use crate::reading::tree::{Misread, Reads, u32_of};
use serde_json::Value;
use sqlite_items::Items;
use std::alloc::Global;
use vll_core::{Event, Ticket};
use vll_proc::Edition;

impl Reads for Event {
    ghost reads = { λ edition. event_at };

    fn read(_alloc: Global, _edition: Edition, value: &Value) -> Result<Event, Misread> {
        event_of(value)
    }
}

// The events of a scenario, none if it has no schedule.
pub fn schedule_of(
    alloc: Global,
    edition: Edition,
    tree: &Value,
) -> Result<Items<Event>, ScenarioFault>
    requires few { longest_list (view tree.now) ≤ MOST_BYTES }
    ensures { GivesUnlessMemory result (in_part Part.Schedule
        (list_if_there event_at (get (codes "schedule") (view tree.now)))) }
{
    match tree.get("schedule") {
        Some(value) => list_in(alloc, edition, Part::Schedule, value),
        None => Ok(Items::new(alloc)),
    }
}

fn event_of(value: &Value) -> Result<Event, Misread>
    ensures { Gives result (event_at (view value.now)) }
{
    match value {
        Value::Array(list) => match list.len() {
            1 => event_alone(word_of(&list[0])?),
            2 => event_with(word_of(&list[0])?, &list[1]),
            _ => Err(Misread::Faulty),
        },
        _ => Err(Misread::Faulty),
    }
}

// The event of a word that stands alone.
fn event_alone(word: &str) -> Result<Event, Misread>
    ensures { Gives result (find_word word.now words_alone) }
{
    match word {
        "claim" => Ok(Event::Claim),
        "admit" => Ok(Event::Admit),
        "front" => Ok(Event::Front),
        "scan" => Ok(Event::Scan),
        _ => Err(Misread::Faulty),
    }
}

// The event of a word and a client or a ticket.
fn event_with(word: &str, value: &Value) -> Result<Event, Misread>
    ensures { Gives result (event_with word.now (u32_at (view value.now))) }
{
    let number = u32_of(value)?;
    match word {
        "find" => Ok(Event::Find(number)),
        "enter" => Ok(Event::Enter(number)),
        "load" => Ok(Event::Load(Ticket(number))),
        "store" => Ok(Event::Store(Ticket(number))),
        "release" => Ok(Event::Release(Ticket(number))),
        "finish" => Ok(Event::Finish(Ticket(number))),
        _ => Err(Misread::Faulty),
    }
}
