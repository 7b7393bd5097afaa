//! The answers to lines, and the last line of a service, as lines of JSON.
ghost use Rattle.std.specs.Prelude.{◌≡◌, ◌++◌, IfOk};
ghost use Rattle.vll_lines.specs.Answers.{aborted_tokens, counts_line, counts_tokens, end_line, fault_line, id_tokens, line_of, member_tokens, numbers_tokens, reason_tokens, records_at, records_line, reply_line, reply_tokens};
ghost use Rattle.vll_lines.specs.Private.Writing.{Adds};

use crate::counts::{Counts, Rounds};
use crate::request::{Id, LineFault, RecordRange};
use json::Writer;
use std::alloc::{AllocError, Global};
use vll_proc::{Reason, Reply};

/// Appends the answer to a call: `{"id":7,"call":12,"committed":[70]}` or `{"id":8,"call":13,"aborted":"underflow"}`,
/// without the id if there is none. `number` counts the calls of a service, from 0. Fails only for want of memory, and
/// then drops the text.
pub fn push_reply(
    out: Vec<u8>,
    id: &Option<Id>,
    number: u64,
    reply: &Reply,
) -> Result<Vec<u8>, AllocError>
    ensures { IfOk result (λ v. v.items ≡ out.items ++ reply_line id.now number reply.now) }
{
    let mut writer = Writer::new(out);
    writer.begin_object()?;
    write_id(&mut writer, id)?;
    writer.key("call")?;
    writer.u64(number)?;
    write_reply(&mut writer, reply)?;
    writer.end_object()?;
    end_line(writer)
}

/// Appends the answer to a line that asks for counts: `{"id":7,"counts":{"calls":12,"aborted":{"code":1,..},"rounds":3,
/// "most_lines":40}}`, without the id if there is none. Fails only for want of memory, and then drops the text.
pub fn push_counts(
    out: Vec<u8>,
    id: &Option<Id>,
    counts: Counts,
    so_far: Rounds,
) -> Result<Vec<u8>, AllocError>
    ensures { IfOk result (λ v. v.items ≡ out.items ++ counts_line id.now counts so_far) }
{
    let mut writer = Writer::new(out);
    writer.begin_object()?;
    write_id(&mut writer, id)?;
    writer.key("counts")?;
    write_counts(&mut writer, counts, so_far)?;
    writer.end_object()?;
    end_line(writer)
}

/// Appends the answer to a line that asks for nothing: `{"id":8,"fault":"there is no client 7"}`, without the id if
/// there is none. Fails only for want of memory, and then drops the text.
pub fn push_fault(
    alloc: Global,
    out: Vec<u8>,
    id: &Option<Id>,
    why: &LineFault,
) -> Result<Vec<u8>, AllocError>
    ensures { IfOk result (λ v. v.items ≡ out.items ++ fault_line id.now why.now) }
{
    let words = format!(in alloc; "{why}")?;
    let mut writer = Writer::new(out);
    writer.begin_object()?;
    write_id(&mut writer, id)?;
    writer.key("fault")?;
    writer.string(words.as_str())?;
    writer.end_object()?;
    end_line(writer)
}

/// Appends the answer to a line that asks for some of these records, with their values: `{"id":7,"records":[70,30]}`,
/// without the id if there is none. Fails only for want of memory, and then drops the text.
pub fn push_records(
    out: Vec<u8>,
    id: &Option<Id>,
    range: RecordRange,
    records: &[u64],
) -> Result<Vec<u8>, AllocError>
    ensures { IfOk result (λ v. v.items ≡ out.items ++ records_line id.now (records_at range records.now)) }
{
    let mut writer = Writer::new(out);
    writer.begin_object()?;
    write_id(&mut writer, id)?;
    writer.key("records")?;
    write_numbers(&mut writer, at(range, records))?;
    writer.end_object()?;
    end_line(writer)
}

/// Appends the last line of a service: `{"calls":12,"records":[70,30]}`. Fails only for want of memory, and then drops
/// the text.
pub fn push_end(out: Vec<u8>, calls: u64, records: &[u64]) -> Result<Vec<u8>, AllocError>
    ensures { IfOk result (λ v. v.items ≡ out.items ++ end_line calls records.now) }
{
    let mut writer = Writer::new(out);
    writer.begin_object()?;
    writer.key("calls")?;
    writer.u64(calls)?;
    writer.key("records")?;
    write_numbers(&mut writer, records)?;
    writer.end_object()?;
    end_line(writer)
}

// These of the records, as far as they are there.
fn at(range: RecordRange, records: &[u64]) -> &[u64]
    ensures { result.now ≡ records_at range records.now }
{
    let first = records.len().min(range.first as usize);
    let rest = &records[first..];
    &rest[..rest.len().min(range.count as usize)]
}

// Ends the line.
fn end_line(writer: Writer) -> Result<Vec<u8>, AllocError>
    ensures { IfOk result (λ v. v.items ≡ writer.before ++ line_of writer.tokens) }
{
    let mut out = writer.into_inner();
    out.push(10)?;
    Ok(out)
}

fn write_id(writer: &mut Writer, id: &Option<Id>) -> Result<(), AllocError>
    ensures { Adds result writer.old writer.new (id_tokens id.now) }
{
    match id {
        None => Ok(()),
        Some(Id::Number(number)) => {
            writer.key("id")?;
            writer.u64(*number)
        }
        Some(Id::Text(text)) => {
            writer.key("id")?;
            writer.string(text.as_str())
        }
    }
}

fn write_reply(writer: &mut Writer, reply: &Reply) -> Result<(), AllocError>
    ensures { Adds result writer.old writer.new (reply_tokens reply.now) }
{
    match reply {
        Reply::Committed(outputs) => {
            writer.key("committed")?;
            write_numbers(writer, outputs.as_slice())
        }
        Reply::Aborted(why) => {
            writer.key("aborted")?;
            write_reason(writer, *why)
        }
    }
}

fn write_counts(writer: &mut Writer, counts: Counts, so_far: Rounds) -> Result<(), AllocError>
    ensures { Adds result writer.old writer.new (counts_tokens counts so_far) }
{
    writer.begin_object()?;
    write_member(writer, "calls", counts.calls)?;
    writer.key("aborted")?;
    write_aborted(writer, counts)?;
    write_member(writer, "rounds", so_far.rounds)?;
    write_member(writer, "most_lines", so_far.most_lines)?;
    writer.end_object()
}

fn write_aborted(writer: &mut Writer, counts: Counts) -> Result<(), AllocError>
    ensures { Adds result writer.old writer.new (aborted_tokens counts) }
{
    writer.begin_object()?;
    write_member(writer, "code", counts.code)?;
    write_member(writer, "overflow", counts.overflow)?;
    write_member(writer, "underflow", counts.underflow)?;
    write_member(writer, "zero divisor", counts.zero_divisor)?;
    write_member(writer, "moved", counts.moved)?;
    writer.end_object()
}

fn write_member(writer: &mut Writer, name: &str, count: u64) -> Result<(), AllocError>
    ensures { Adds result writer.old writer.new (member_tokens name.now count) }
{
    writer.key(name)?;
    writer.u64(count)
}

fn write_numbers(writer: &mut Writer, numbers: &[u64]) -> Result<(), AllocError>
    ensures { Adds result writer.old writer.new (numbers_tokens numbers.now) }
{
    writer.begin_array()?;
    for number in numbers {
        writer.u64(*number)?;
    }
    writer.end_array()
}

fn write_reason(writer: &mut Writer, why: Reason) -> Result<(), AllocError>
    ensures { Adds result writer.old writer.new (reason_tokens why) }
{
    match why {
        // A code is a number, so that a program need not take words apart.
        Reason::Code(code) => writer.u64(u64::from(code)),
        Reason::Overflow => writer.string("overflow"),
        Reason::Underflow => writer.string("underflow"),
        Reason::ZeroDivisor => writer.string("zero divisor"),
        Reason::Moved => writer.string("moved"),
    }
}
