//! An epoch: the rounds that one engine serves.
ghost use Rattle.std.specs.Prelude.{◌≡◌, ◌↔◌, ◌≤◌, [], List, IfErr, IfOk, OnOk, All, Err, false, length, true, vec_capacity};
ghost use Rattle.vll_lines.specs.Lines.{has_feed};
ghost use Rattle.vll_proc.specs.Headline.Serial.{Made, end};
ghost use Rattle.vll_queue.specs.Closed.{GoesOn};
ghost use Rattle.vll_queue.specs.Shown.{library_of, name_of};
ghost use Rattle.vll_sca.specs.Placing.{placing};
ghost use Rattle.vll_stream.specs.declared.fault.StreamFault.TheVariants as fault;
ghost use Rattle.vll_stream.specs.Private.Callers.{AreCallers, AreTheCalls, IsSnapshot, made_so_far};
ghost use Rattle.vll_stream.specs.Private.Parts.{IsPart, place_of};
ghost use Rattle.vll_stream.specs.Private.Stopped.{IsOwn, StopsAfter};
ghost use Rattle.vll_stream.specs.Private.Told.{Follows, IsEpoch, IsRoundAfter, is_over};

use crate::answering::answer_lines;
use crate::callers::Callers;
use crate::fault::StreamFault;
use crate::snapshot::Snapshot;
use std::alloc::Global;
use std::sync::Wait;
use vll_core::{Line, MOST_CALLS};
use vll_engine::{Engine, Name, Opening, Reopened, Session};
use vll_lines::{Counts, MOST_ROUND, RoundReader};
use vll_sca::Placing;
use vll_scenario::{MOST_CLIENTS, Sink, Source, write_text};

// The calls that a round may have: a line that asks for one has at least 22 bytes.
const ROUND_CALLS: u32 = MOST_ROUND as u32 / 16;

// With fewer calls left for an engine, the next one serves the next round.
const LAST_ROUND: u64 = (MOST_CALLS - ROUND_CALLS) as u64;

/// An epoch that has ended.
#[derive(Drop)]
pub(crate) struct Ended {
    /// The calls that have been made in this epoch and before.
    pub(crate) counts: Counts,
    pub(crate) then: Then,
}

/// What follows an epoch.
#[derive(Drop)]
pub(crate) enum Then {
    /// Another one, of the engine of this opening, with this snapshot.
    On(Opening<Placing>, Snapshot),
    /// Nothing: the input has ended. The records are left.
    Over(Vec<u64>),
}

/// Serves the input round by round, until it ends or the engine has no room left for the calls of a round. `counts` are
/// the calls that have been made before.
pub(crate) fn run_epoch<N: Name, S: Source, W: Sink>(
    wait: &impl Wait,
    alloc: Global,
    opening: Opening<Placing>,
    rounds: &mut RoundReader,
    reader: &mut S,
    writer: &mut W,
    tail: &mut Vec<u8>,
    counts: Counts,
    snapshot: Snapshot,
) -> Result<Ended, StreamFault>
    requires named { N.engine ≡ name_of placing opening }
    requires few { N.engine.clients ≤ MOST_CLIENTS }
    requires snapshot { IsSnapshot N.engine [] snapshot }
    requires reader { S.failed reader.old ≡ false }
    requires writer { W.failed writer.old ≡ false }
    requires tail { has_feed tail.old.items ≡ false }
    ensures epoch { IfOk result (λ ended. IsEpoch N.engine
        (place_of S.remaining W.contents reader.old tail.old.items writer.old counts)
        (place_of S.remaining W.contents reader.new tail.new.items writer.new ended.counts)
        ended.then) }
    ensures reader { OnOk result (S.failed reader.new ≡ false) }
    ensures writer { OnOk result (W.failed writer.new ≡ false) }
    ensures tail { OnOk result (has_feed tail.new.items ≡ false) }
    ensures err { IfErr result (λ why. StopsAfter N.engine.base N.engine.clients [] why
        (place_of S.remaining W.contents reader.old tail.old.items writer.old counts) (S.remaining reader.new) (W.contents writer.new)) }
    ensures read { (result ≡ Err fault.Read) ↔ (S.failed reader.new ≡ true) }
    ensures write { (result ≡ Err fault.Write) ↔ (W.failed writer.new ≡ true) }
{
    let (engine, sessions) = opening.start::<N>();
    let mut callers = Callers::new::<N>(sessions, counts, snapshot);
    let is_last = serve_rounds(
        wait,
        alloc,
        &engine,
        &mut callers,
        rounds,
        reader,
        writer,
        tail,
    )?;
    Ok(Ended {
        counts: callers.counts(),
        then: end_epoch(alloc, engine, callers, is_last)?,
    })
}

// Serves rounds until the input ends or the engine has no room left for the calls of a round. Returns whether the input
// has ended.
fn serve_rounds<N: Name, S: Source, W: Sink>(
    wait: &impl Wait,
    alloc: Global,
    engine: &Engine<N, Placing>,
    callers: &mut Callers,
    rounds: &mut RoundReader,
    reader: &mut S,
    writer: &mut W,
    tail: &mut Vec<u8>,
) -> Result<bool, StreamFault>
    requires few { N.engine.clients ≤ MOST_CLIENTS }
    requires callers { AreCallers N.engine callers.old }
    requires none { made_so_far callers.old ≡ [] }
    requires reader { S.failed reader.old ≡ false }
    requires writer { W.failed writer.old ≡ false }
    requires tail { has_feed tail.old.items ≡ false }
    ensures rounds { IfOk result (λ is_last. IsPart (library_of N.engine) N.engine.clients N.engine.base.records (made_so_far callers.new) is_last
        (place_of S.remaining W.contents reader.old tail.old.items writer.old callers.old.counts)
        (place_of S.remaining W.contents reader.new tail.new.items writer.new callers.new.counts)) }
    ensures callers { OnOk result (AreCallers N.engine callers.new) }
    ensures reader { OnOk result (S.failed reader.new ≡ false) }
    ensures writer { OnOk result (W.failed writer.new ≡ false) }
    ensures tail { OnOk result (has_feed tail.new.items ≡ false) }
    ensures err { IfErr result (λ why. StopsAfter N.engine.base N.engine.clients [] why
        (place_of S.remaining W.contents reader.old tail.old.items writer.old callers.old.counts) (S.remaining reader.new) (W.contents writer.new)) }
    ensures read { (result ≡ Err fault.Read) ↔ (S.failed reader.new ≡ true) }
    ensures write { (result ≡ Err fault.Write) ↔ (W.failed writer.new ≡ true) }
{
    for _ in wait.forever() {
        let is_last = serve_round(wait, alloc, engine, callers, rounds, reader, writer, tail)?;
        if is_last || callers.calls() > LAST_ROUND {
            return Ok(is_last);
        }
    }
    unreachable!()
}

// Serves a round: reads lines, makes their calls, and writes the answers. Returns whether the input has ended.
fn serve_round<N: Name, S: Source, W: Sink>(
    wait: &impl Wait,
    alloc: Global,
    engine: &Engine<N, Placing>,
    callers: &mut Callers,
    rounds: &mut RoundReader,
    reader: &mut S,
    writer: &mut W,
    tail: &mut Vec<u8>,
) -> Result<bool, StreamFault>
    requires few { N.engine.clients ≤ MOST_CLIENTS }
    requires callers { AreCallers N.engine callers.old }
    requires reader { S.failed reader.old ≡ false }
    requires writer { W.failed writer.old ≡ false }
    requires tail { has_feed tail.old.items ≡ false }
    ensures round { IfOk result (λ is_last. IsRoundAfter N.engine (made_so_far callers.old) (made_so_far callers.new) is_last
        (place_of S.remaining W.contents reader.old tail.old.items writer.old callers.old.counts)
        (place_of S.remaining W.contents reader.new tail.new.items writer.new callers.new.counts)) }
    ensures callers { OnOk result (AreCallers N.engine callers.new) }
    ensures reader { OnOk result (S.failed reader.new ≡ false) }
    ensures writer { OnOk result (W.failed writer.new ≡ false) }
    ensures tail { OnOk result (has_feed tail.new.items ≡ false) }
    ensures err { IfErr result (λ why. StopsAfter N.engine.base N.engine.clients (made_so_far callers.old) why
        (place_of S.remaining W.contents reader.old tail.old.items writer.old callers.old.counts)
        (S.remaining reader.new) (W.contents writer.new)) }
    ensures read { (result ≡ Err fault.Read) ↔ (S.failed reader.new ≡ true) }
    ensures write { (result ≡ Err fault.Write) ↔ (W.failed writer.new ≡ true) }
{
    let clients = callers.clients::<N>();
    let round = rounds.read(wait, engine.library(), clients, reader, tail)?;
    let text = answer_lines(
        wait,
        alloc,
        engine,
        callers,
        round.requests.as_slice(),
        rounds.so_far,
    )?;
    write_text(writer, text.as_slice())?;
    Ok(round.is_last)
}

// Ends an engine whose clients have made these calls: opens the next one, or returns the records that the last one leaves.
fn end_epoch<N: Name>(
    alloc: Global,
    engine: Engine<N, Placing>,
    callers: Callers,
    is_last: bool,
) -> Result<Then, StreamFault>
    requires callers { AreCallers N.engine callers }
    ensures follows { IfOk result (Follows N.engine (made_so_far callers)) }
    ensures last { IfOk result (λ then. is_over then ≡ is_last) }
    ensures own { IfErr result IsOwn }
{
    if is_last {
        let (sessions, _) = callers.into_parts();
        Ok(Then::Over(closed(engine, sessions)?))
    } else {
        go_on(alloc, engine, callers)
    }
}

// Ends an engine whose clients have made these calls, and opens the next one.
fn go_on<N: Name>(
    alloc: Global,
    engine: Engine<N, Placing>,
    callers: Callers,
) -> Result<Then, StreamFault>
    requires callers { AreCallers N.engine callers }
    ensures follows { IfOk result (Follows N.engine (made_so_far callers)) }
    ensures last { IfOk result (λ then. is_over then ≡ false) }
    ensures own { IfErr result IsOwn }
{
    let (sessions, snapshot) = callers.into_parts();
    let Snapshot { values, room, .. } = snapshot;
    let next = reopened(alloc, engine, sessions, room, values)?;
    Ok(Then::On(next.opening, Snapshot::new(next.records, next.journal)))
}

// Ends the engine, and returns the records that it leaves.
fn closed<N: Name>(
    engine: Engine<N, Placing>,
    sessions: Vec<Session>,
) -> Result<Vec<u64>, StreamFault>
    requires sessions { All (λ s. s.table ≡ N.engine.table) sessions.items }
    ensures records { IfOk result (λ records. (made : List Made) × AreTheCalls N.engine made sessions.items × (records.items ≡ end N.engine.base.procs made N.engine.base.records)) }
    ensures unfinished { IfErr result (λ why. why ≡ fault.Unfinished) }
{
    match engine.close(sessions) {
        Ok(closed) => Ok(closed.records),
        // As `Callers::make` says, another thread might have entered calls.
        Err(_) => Err(StreamFault::Unfinished),
    }
}

// Ends the engine, and opens the next one over what it leaves.
fn reopened<N: Name>(
    alloc: Global,
    engine: Engine<N, Placing>,
    sessions: Vec<Session>,
    room: Vec<Line>,
    values: Vec<u64>,
) -> Result<Reopened<Placing>, StreamFault>
    requires sessions { All (λ s. s.table ≡ N.engine.table) sessions.items }
    requires all { length sessions.items ≡ N.engine.clients }
    requires room { N.engine.config.limit ≤ vec_capacity room }
    requires room_for_records { length N.engine.base.records ≤ vec_capacity values }
    ensures opening { IfOk result (λ next. (made : List Made) × AreTheCalls N.engine made sessions.items × GoesOn placing N.engine made next.opening) }
    ensures records { IfOk result (λ next. next.records.items ≡ next.opening.records) }
    ensures room { IfOk result (λ next. N.engine.config.limit ≤ vec_capacity next.journal) }
    ensures no_memory { result ≡ Err fault.NoMemory → (made : List Made) × AreTheCalls N.engine made sessions.items }
    ensures own { IfErr result IsOwn }
{
    match engine.reopen(alloc, sessions, room, values) {
        Ok(next) => Ok(next),
        Err(not_reopened) => match not_reopened.left {
            Ok(_) => Err(StreamFault::NoMemory),
            // As `Callers::make` says, another thread might have entered calls.
            Err(_) => Err(StreamFault::Unfinished),
        },
    }
}
