//! A queue as the subject of transcripts, and tests of its answers and its content.
use crate::asserts::equal;
use crate::transcript::{Event, Subject, play};
use std::alloc::{AllocError, Global};
use std::test::Fail;
use vll_core::{Config, Line, Queue, Ticket};
use vll_proc::{Call, MOST_ARGS, Reason, Reply};
use vll_record::{Claim, Claims, MOST_CLAIMS, Mode, RecordId};
use vll_sca::{Placing, Status};

// A call that writes one record.
fn writes(number: u32, record: u32) -> Call {
    let mut claims = Claims::new();
    claims.add(Claim {
        id: RecordId(record),
        mode: Mode::Write,
    });
    Call {
        number,
        arg_count: 0,
        args: [0; MOST_ARGS],
        found: None,
        claims,
        cells: [0; MOST_CLAIMS],
    }
}

// Enters a call if the queue is neither spent nor busy: it writes `record`, and is of this client and this procedure.
fn enter(queue: &mut Queue<Placing>, numbers: [u32; 3], free: bool) -> Option<Ticket> {
    let [record, client, number] = numbers;
    if queue.is_spent() || queue.is_busy() {
        return None;
    }
    Some(queue.admit(client, &writes(number, record), free))
}

// Removes a call if it runs. Its reply is an abort with this code.
fn finish(queue: &mut Queue<Placing>, ticket: Ticket, code: u32) -> Option<Ticket> {
    let code = u16::try_from(code).ok()?;
    match queue.status(ticket) {
        Some(Status::Running) => {
            queue.remove(ticket, &Reply::Aborted(Reason::Code(code)));
            Some(ticket)
        }
        _ => None,
    }
}

fn line_text(alloc: Global, line: &Line) -> Result<String, AllocError> {
    let client = line.client;
    let number = line.call.number;
    match &line.reply {
        Some(reply) => format!(in alloc; "client {client} call {number} {reply}"),
        None => format!(in alloc; "client {client} call {number}"),
    }
}

fn status_text(status: Option<Status>) -> &'static str {
    match status {
        Some(Status::Running) => "running",
        Some(Status::Waiting) => "waiting",
        Some(Status::Gone) => "gone",
        None => "none",
    }
}

fn ticket_text(alloc: Global, ticket: Option<Ticket>) -> Result<String, AllocError> {
    match ticket {
        Some(Ticket(ticket)) => format!(in alloc; "ticket {ticket}"),
        None => String::from_str(alloc, "none"),
    }
}

// A queue as the subject of transcripts.
#[derive(Drop)]
struct Played(Queue<Placing>);

impl Subject for Played {
    fn answer(&mut self, alloc: Global, event: &Event) -> Result<Option<String>, AllocError> {
        let [first, second, _] = event.numbers;
        let ticket = Ticket(first);
        let text = match event.name {
            "free" => ticket_text(alloc, enter(&mut self.0, event.numbers, true))?,
            "blocked" => ticket_text(alloc, enter(&mut self.0, event.numbers, false))?,
            "finish" => ticket_text(alloc, finish(&mut self.0, ticket, second))?,
            "front" => ticket_text(alloc, self.0.front())?,
            "scan" => ticket_text(alloc, self.0.scan())?,
            "counts" => self.content(alloc)?,
            "spent" => format!(in alloc; "{}", self.0.is_spent())?,
            "busy" => format!(in alloc; "{}", self.0.is_busy())?,
            "status" => String::from_str(alloc, status_text(self.0.status(ticket)))?,
            "lines" => format!(in alloc; "{}", self.0.journal().len())?,
            "line" => match self.0.line(ticket) {
                Some(line) => line_text(alloc, line)?,
                None => String::from_str(alloc, "none")?,
            },
            _ => return Ok(None),
        };
        Ok(Some(text))
    }

    fn content(&self, alloc: Global) -> Result<String, AllocError> {
        format!(in alloc; "{} {}", self.0.running(), self.0.waiting())
    }
}

pub(crate) fn sizes(cap: u32, limit: u32, bits: u32) -> Config {
    Config { cap, limit, bits }
}

// Plays a transcript on an empty queue. Returns the number of lines of its journal.
pub(crate) fn run(rt: &impl AllocGlobal, config: Config, transcript: &str) -> Result<usize, Fail> {
    let mut played = Played(Queue::open(rt.alloc(), config, Placing::Modulo)?);
    play(rt.alloc(), &mut played, transcript)?;
    let Played(queue) = played;
    Ok(queue.into_journal().len())
}

#[test]
fn nothing_is_entered_at_first(rt: HostRuntime) -> Result<(), Fail> {
    run(
        &rt,
        sizes(1, 1, 1),
        "spent: false; busy: false; front: none; scan: none; counts: 0 0; status 0: none; line 0: none; lines: 0",
    )?;
    Ok(())
}

#[test]
fn calls_enter_in_order_up_to_the_limit(rt: HostRuntime) -> Result<(), Fail> {
    let lines = run(
        &rt,
        sizes(2, 2, 1),
        "free 0 3 7: ticket 0; spent: false; blocked 0 1 8: ticket 1; spent: true
         status 0: running; status 1: waiting; status 2: none; counts: 1 1
         line 0: client 3 call 7; line 1: client 1 call 8; lines: 2",
    )?;
    equal(&rt, lines, 2);
    Ok(())
}

#[test]
fn queue_is_busy_while_as_many_calls_as_the_cap_wait(rt: HostRuntime) -> Result<(), Fail> {
    run(
        &rt,
        sizes(2, 5, 1),
        "free 0: ticket 0; busy: false; blocked 0: ticket 1; busy: false; free 0: ticket 2; busy: false
         blocked 0: ticket 3; busy: true; spent: false; finish 0: ticket 0; busy: true
         front: ticket 1; busy: false; blocked 0: ticket 4; busy: true",
    )?;
    Ok(())
}

#[test]
fn front_waits_for_all_before_it(rt: HostRuntime) -> Result<(), Fail> {
    run(
        &rt,
        sizes(4, 4, 1),
        "free 0: ticket 0; free 0: ticket 1; blocked 0: ticket 2; blocked 0: ticket 3; front: none
         finish 1: ticket 1; front: none; finish 0: ticket 0; front: ticket 2; front: none; counts: 1 1
         finish 2: ticket 2; front: ticket 3; finish 3: ticket 3; front: none; counts: 0 0",
    )?;
    Ok(())
}

#[test]
fn gone_call_keeps_its_line_with_the_reply(rt: HostRuntime) -> Result<(), Fail> {
    run(
        &rt,
        sizes(1, 2, 1),
        "free 0 3 7: ticket 0; free 0 1 8: ticket 1; finish 0 5: ticket 0; finish 0 6: none
         status 0: gone; line 0: client 3 call 7 aborted code 5; line 1: client 1 call 8",
    )?;
    Ok(())
}
