//! What is kept of a replay while it runs, for the drawing: the events of the window, and the state before them.
ghost use Rattle.std.specs.Prelude.{◌≡◌, ◌<◌, [], List, IfOk, IfSome, OnOk, length, slice_index};
ghost use Rattle.vll_sca.specs.Placing.{placing};
ghost use Rattle.vll_core.specs.State.{Opening};
ghost use Rattle.vll_core.specs.Shown.{opening_of};
ghost use Rattle.vll_core.specs.Next.{claim_of};
ghost use Rattle.vll_replay.specs.Steps.{Step};
ghost use Rattle.vll_draw.specs.Columns.{AreWordsOf, IsColumn, ticket_in, ticket_seen};
ghost use Rattle.vll_draw.specs.Taped.{HasTaped, Stands, StandsBefore, phases_in};
ghost use Rattle.vll_draw.specs.Taped.{phase_of as phase_by_status};
ghost use Rattle.vll_scenario.specs.declared.event_range.EventRange.{EventRange};

use crate::picture::{Column, Phase, RecordWords, Standing};
use std::alloc::{AllocError, Global};
use vll_core::{Core, Event, Refusal, Seen, Ticket};
use vll_proc::Reply;
use vll_record::{Claim, RecordId, pair_word, value_word};
use vll_replay::Observer;
use vll_sca::{Placing, Status};
use vll_scenario::EventRange;

/// What is kept of a replay for its drawing.
#[derive(Drop)]
pub(crate) struct Tape {
    alloc: Global,
    /// The number of events so far.
    pub(crate) events: usize,
    /// The number of events still to come before those that are drawn.
    pub(crate) ahead: u32,
    /// The most events that are drawn.
    pub(crate) most: u32,
    pub(crate) columns: Vec<Column>,
    /// The words of the machine before the first event that is drawn, and the phase of each entered call.
    pub(crate) standing: Standing,
    /// The claim that the next event concerns.
    pub(crate) claim: Option<Claim>,
}

impl Tape {
    pub(crate) fn new(alloc: Global, window: EventRange) -> Tape
        ensures { (o : Opening) → HasTaped o window [] result }
    {
        Tape {
            alloc,
            events: 0,
            ahead: window.from,
            most: window.count.get(),
            columns: Vec::new(alloc),
            standing: Standing {
                words: Vec::new(alloc),
                phases: Vec::new(alloc),
            },
            claim: None,
        }
    }

    // Keeps the state before an event, if the event is the first that is drawn.
    fn stand(&mut self, core: &Core<Placing>) -> Result<(), AllocError>
        ensures stands { OnOk result ((w : EventRange) (past : List Step) → let o = opening_of placing core.now in
            HasTaped o w past self.old → HasTaped o w past self.new × StandsBefore o w past core.now.state self.new) }
        ensures claim { OnOk result (self.new.claim ≡ self.old.claim) }
    {
        if self.ahead > 0 {
            return Ok(());
        }
        if !self.columns.is_empty() {
            return Ok(());
        }
        self.standing = standing_of(self.alloc, core)?;
        Ok(())
    }
}

impl Observer for Tape {
    ghost use Rattle.vll_draw.specs.Taped.{HasTaped, Tapes};
    ghost use Rattle.vll_scenario.specs.declared.event_range.EventRange.{EventRange};

    ghost Task = { EventRange };

    ghost saw = { λ w o past tape. HasTaped o w past tape };

    ghost looks = { λ w o past s event tape. Tapes o w past s event tape };

    fn before(&mut self, core: &Core<Placing>, event: &Event) -> Result<(), AllocError> {
        self.stand(core)?;
        self.claim = core.claim_of(*event);
        Ok(())
    }

    fn after(
        &mut self,
        core: &Core<Placing>,
        event: &Event,
        answer: &Result<Seen, Refusal>,
    ) -> Result<(), AllocError> {
        self.events = self.events.saturating_add(1);
        if self.ahead > 0 {
            self.ahead -= 1;
            return Ok(());
        }
        if self.columns.len() >= self.most as usize {
            return Ok(());
        }
        let column = column_of(core, event, answer, self.claim);
        // The check needs every type that a column holds to be named here.
        let _named: Option<Reply> = None;
        self.columns.push(column)?;
        Ok(())
    }
}

// The column of an event that the machine has performed, with this claim if the event was not refused.
fn column_of(
    core: &Core<Placing>,
    event: &Event,
    answer: &Result<Seen, Refusal>,
    claim: Option<Claim>,
) -> Column
    ensures { (s : Step) → event.now ≡ s.event → answer.now ≡ s.answer → core.now.state ≡ s.after
        → claim ≡ claim_of s.before s.event → IsColumn core.now.base s result }
{
    match answer {
        Ok(seen) => column_with(core, event, answer, ticket_of(core, event, seen), claim),
        Err(_) => column_with(core, event, answer, None, None),
    }
}

fn column_with(
    core: &Core<Placing>,
    event: &Event,
    answer: &Result<Seen, Refusal>,
    ticket: Option<usize>,
    claim: Option<Claim>,
) -> Column
    ensures event { result.event ≡ event.now }
    ensures answer { result.answer ≡ answer.now }
    ensures ticket { result.ticket ≡ ticket }
    ensures claim { result.claim ≡ claim }
    ensures words { IfSome claim (λ k. k.id < length core.now.base.records → AreWordsOf core.now.base core.now.state k.id result.words) }
{
    let words = words_of(core, &claim);
    Column {
        event: *event,
        answer: *answer,
        ticket,
        claim,
        words,
    }
}

// The words of a claim's record.
fn words_of(core: &Core<Placing>, claim: &Option<Claim>) -> RecordWords
    ensures { IfSome claim.now (λ k. k.id < length core.now.base.records → AreWordsOf core.now.base core.now.state k.id result) }
{
    match claim {
        Some(claim) => record_words(core, claim.id),
        None => RecordWords { value: 0, pair: 0 },
    }
}

// The words of a record.
fn record_words(core: &Core<Placing>, id: RecordId) -> RecordWords
    ensures { id < length core.now.base.records → AreWordsOf core.now.base core.now.state id result }
{
    let words = core.words();
    RecordWords {
        value: word_at(words, value_word(id)),
        pair: word_at(words, pair_word(id)),
    }
}

fn word_at(words: &[u64], index: usize) -> u64
    ensures { index < length words.now → result ≡ slice_index words.now index }
{
    if index < words.len() { words[index] } else { 0 }
}

// The ticket of an event's call, by what the event saw.
fn ticket_of(core: &Core<Placing>, event: &Event, seen: &Seen) -> Option<usize>
    ensures { result ≡ ticket_seen (length core.now.state.entries) event.now seen.now }
{
    match seen {
        Seen::Opened => Some(next_ticket(core)),
        Seen::Claimed { .. } => Some(next_ticket(core)),
        Seen::Free(ticket) | Seen::Blocked(ticket) | Seen::Run(ticket) => Some(ticket.0 as usize),
        Seen::Found(_) | Seen::Loaded(_) | Seen::Stored | Seen::Released(_) | Seen::Replied(_) =>
            ticket_in(event),
    }
}

// The ticket that the next call gets.
fn next_ticket(core: &Core<Placing>) -> usize
    ensures { result ≡ length core.now.state.entries }
{
    core.journal().len()
}

// The ticket that an event names.
fn ticket_in(event: &Event) -> Option<usize>
    ensures { result ≡ ticket_in event.now }
{
    match event {
        Event::Load(ticket)
        | Event::Store(ticket)
        | Event::Release(ticket)
        | Event::Finish(ticket) => Some(ticket.0 as usize),
        Event::Find(_)
        | Event::Enter(_)
        | Event::Claim
        | Event::Admit
        | Event::Front
        | Event::Scan => None,
    }
}

// The machine's words, and the phase of each entered call.
fn standing_of(alloc: Global, core: &Core<Placing>) -> Result<Standing, AllocError>
    ensures { IfOk result (λ standing. Stands (opening_of placing core.now) core.now.state standing) }
{
    let mut words = Vec::new(alloc);
    words.extend_from_slice(core.words())?;
    let phases = phases_of(alloc, core)?;
    Ok(Standing { words, phases })
}

// The phase of each entered call.
fn phases_of(alloc: Global, core: &Core<Placing>) -> Result<Vec<Phase>, AllocError>
    ensures { IfOk result (λ phases. phases.items ≡ phases_in core.now.state) }
{
    let mut phases = Vec::new(alloc);
    for ticket in 0..core.journal().len() {
        phases.push(phase_of(core.state(Ticket(ticket as u32))))?;
    }
    Ok(phases)
}

fn phase_of(status: Option<Status>) -> Phase
    ensures { result ≡ phase_by_status status }
{
    match status {
        Some(Status::Waiting) => Phase::Waiting,
        Some(Status::Running) => Phase::Running,
        Some(Status::Gone) => Phase::Gone,
        None => Phase::Outside,
    }
}
