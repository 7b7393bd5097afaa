//! Tests of the text of what a run leaves, and of writers that fail while it is written.
ghost use Rattle.std.specs.Prelude.{◌≡◌, IfOk, length};

use crate::asserts::{holds, holds_at};
use crate::streams::{Full, Narrow};
use std::alloc::{AllocError, Global};
use std::test::Fail;
use vll_core::Line;
use vll_engine::Closed;
use vll_proc::{Call, Reason, Reply};
use vll_record::{Claims, MOST_CLAIMS};
use vll_server::{Plain, WriteFault, write_outcome};

const TEXT: &str =
    "call 0 client 1 aborted overflow\ncall 1 client 0 aborted code 7\ncall 2 client 1 \nrecord 0 value 100 pair 0\nrecord 1 value 18446744073709551615 pair 4294967296\n";

fn call() -> Call {
    Call {
        number: 0,
        arg_count: 0,
        args: [0; 8],
        found: None,
        claims: Claims::new(),
        cells: [0; MOST_CLAIMS],
    }
}

fn line(client: u32, reply: Option<Reply>) -> Line {
    let call = call();
    Line {
        client,
        call,
        reply,
    }
}

fn journal(alloc: Global) -> Result<Vec<Line>, AllocError> {
    let mut lines = Vec::new(alloc);
    lines.push(line(1, Some(Reply::Aborted(Reason::Overflow))))?;
    lines.push(line(0, Some(Reply::Aborted(Reason::Code(7)))))?;
    lines.push(line(1, None))?;
    Ok(lines)
}

fn numbers(alloc: Global, first: u64, second: u64) -> Result<Vec<u64>, AllocError>
    ensures { IfOk result (λ numbers. length numbers.items ≡ 2) }
{
    let mut numbers = Vec::new(alloc);
    numbers.push(first)?;
    numbers.push(second)?;
    Ok(numbers)
}

fn closed(alloc: Global) -> Result<Closed, AllocError>
    ensures { IfOk result (λ closed. length closed.records.items ≡ length closed.pairs.items) }
{
    let records = numbers(alloc, 100, 18_446_744_073_709_551_615)?;
    let pairs = numbers(alloc, 0, 4_294_967_296)?;
    let journal = journal(alloc)?;
    Ok(Closed {
        records,
        pairs,
        journal,
    })
}

// What `write_outcome` returns for it.
fn written(alloc: Global, narrow: &mut Narrow<'_>, closed: &Closed) -> Result<(), WriteFault>
    requires { length closed.now.records.items ≡ length closed.now.pairs.items }
{
    let mut writer = Plain::new(narrow);
    write_outcome(alloc, &mut writer, closed)
}

#[test]
fn text_has_a_line_for_each_call_and_each_record(rt: HostRuntime) -> Result<(), Fail> {
    let closed = closed(rt.alloc())?;
    let mut narrow = Narrow::new(TEXT, 1_000, Full::Fails, true);
    let answer = written(rt.alloc(), &mut narrow, &closed);
    holds(&rt, answer == Ok(()));
    holds(&rt, narrow.lacks(0));
    Ok(())
}

#[test]
fn failing_writer_has_taken_a_beginning(rt: HostRuntime) -> Result<(), Fail> {
    let closed = closed(rt.alloc())?;
    for (room, full, flushes, lacking) in [
        (1_000, Full::Fails, false, 0),
        (0, Full::Fails, true, TEXT.len()),
        (40, Full::Fails, true, TEXT.len() - 40),
        (0, Full::TakesNothing, true, TEXT.len()),
        (40, Full::TakesNothing, true, TEXT.len() - 40),
    ] {
        let mut narrow = Narrow::new(TEXT, room, full, flushes);
        let answer = written(rt.alloc(), &mut narrow, &closed);
        holds_at(&rt, room, answer == Err(WriteFault::Write));
        holds_at(&rt, room, narrow.lacks(lacking));
    }
    Ok(())
}
