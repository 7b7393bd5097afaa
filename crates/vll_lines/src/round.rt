//! A round: the lines that are complete when a read has ended one.
ghost use Rattle.std.specs.Prelude.{◌≡◌, ◌<◌, ◌↔◌, ℕ, List, [], ◌++◌, All, IfErr, IfOk, OnErr, OnOk, false, true, Ok, Err, length};
ghost use Rattle.vll_check.specs.Calls.{Fits};
ghost use Rattle.vll_lines.specs.Request.{AreRequests};
ghost use Rattle.vll_lines.specs.Lines.{IsBroken, IsRound, has_feed, lines_in};
ghost use Rattle.vll_lines.specs.Calls.{calls_of};
ghost use Rattle.vll_lines.specs.Counts.{with_round};
ghost use Rattle.vll_lines.specs.Private.Cutting.{Cuts, StandsFor};
ghost use Rattle.vll_lines.specs.declared.round.RoundFault.TheVariants as round_fault;

use crate::counts::Rounds;
use crate::cutting::{cut, first_line, line_asked, push};
use crate::limits::{MOST_LINE, MOST_ROUND};
use crate::request::Request;
use crate::tokens::LineReader;
use std::alloc::{AllocError, Global};
use std::sync::Wait;
use thiserror::Error;
use vll_check::Library;
use vll_scenario::Source;

/// Lines that come at a time: at most `MOST_ROUND`.
#[derive(Drop)]
pub struct Round {
    /// What each of them asks for, in order.
    pub requests: Vec<Request>,
    /// Whether the input has ended with them.
    pub is_last: bool,
}

/// Why a round was not read.
#[derive(Clone, Copy, PartialEq, Eq, Debug, Error)]
pub enum RoundFault {
    /// The source failed.
    #[error("read")]
    Read,
    #[error("no memory")]
    NoMemory,
}

impl From<AllocError> for RoundFault {
    ghost use Rattle.std.specs.Prelude.{◌≡◌};
    ghost use Rattle.vll_lines.specs.declared.round.RoundFault.TheVariants.{NoMemory};

    ghost from_gives = { λ _ e. e ≡ NoMemory };

    fn from(_: AllocError) -> RoundFault {
        RoundFault::NoMemory
    }
}

/// Reads rounds one after the other, and uses the same memory for all of them.
#[derive(Drop)]
pub struct RoundReader {
    /// The rounds that were read so far.
    pub so_far: Rounds,
    alloc: Global,
    lines: LineReader,
    // The bytes of a read.
    piece: Box<[u8; MOST_ROUND]>,
}

impl RoundReader {
    /// Makes a reader of rounds. It allocates `MOST_ROUND` bytes, and fails only if that allocation fails.
    pub fn new(alloc: Global) -> Result<RoundReader, AllocError> {
        Ok(RoundReader {
            so_far: Rounds::none(),
            alloc,
            lines: LineReader::new(alloc),
            piece: Box::new(alloc, [0; MOST_ROUND])?,
        })
    }

    /// Reads on until a line is complete or the input ends, and returns what the lines ask for that are complete then,
    /// of clients below `clients`. A last line without a line feed counts as a line. `tail` keeps the bytes of the line
    /// that has begun from one round to the next: it is empty at first.
    ///
    /// The round is then one more of those so far. It asks for no more bytes once a line is complete. A line that is too
    /// long is read over, and not kept. `Read` is returned exactly if the source has failed.
    pub fn read<S: Source>(
        &mut self,
        wait: &impl Wait,
        library: &Library,
        clients: u32,
        source: &mut S,
        tail: &mut Vec<u8>,
    ) -> Result<Round, RoundFault>
        requires source { S.failed source.old ≡ false }
        requires tail { has_feed tail.old.items ≡ false }
        ensures round { IfOk result (IsRound library.now clients (S.remaining source.old) (S.remaining source.new) tail.old.items tail.new.items) }
        ensures fits { IfOk result (λ round. All (λ c. Fits library.now c.call) (calls_of round.requests.items)) }
        ensures clients { IfOk result (λ round. All (λ c. c.client < clients) (calls_of round.requests.items)) }
        ensures tail { OnOk result (has_feed tail.new.items ≡ false) }
        ensures err { IfErr result (IsBroken (S.remaining source.old) (S.remaining source.new)) }
        ensures failed { (result ≡ Err round_fault.Read) ↔ (S.failed source.new ≡ true) }
        ensures so_far { IfOk result (λ round. self.new.so_far ≡ with_round self.old.so_far (length round.requests.items)) }
        ensures unread { OnErr result (self.new.so_far ≡ self.old.so_far) }
    {
        let round = read_lines(
            wait,
            self.alloc,
            &mut self.lines,
            &mut *self.piece,
            library,
            clients,
            source,
            tail,
        )?;
        self.so_far = self.so_far.with(round.requests.len() as u64);
        Ok(round)
    }
}

// Reads on until a line is complete or the input ends, over this memory.
fn read_lines<S: Source>(
    wait: &impl Wait,
    alloc: Global,
    lines: &mut LineReader,
    piece: &mut [u8; MOST_ROUND],
    library: &Library,
    clients: u32,
    source: &mut S,
    tail: &mut Vec<u8>,
) -> Result<Round, RoundFault>
    requires source { S.failed source.old ≡ false }
    requires tail { has_feed tail.old.items ≡ false }
    ensures round { IfOk result (IsRound library.now clients (S.remaining source.old) (S.remaining source.new) tail.old.items tail.new.items) }
    ensures fits { IfOk result (λ round. All (λ c. Fits library.now c.call) (calls_of round.requests.items)) }
    ensures clients { IfOk result (λ round. All (λ c. c.client < clients) (calls_of round.requests.items)) }
    ensures tail { OnOk result (has_feed tail.new.items ≡ false) }
    ensures err { IfErr result (IsBroken (S.remaining source.old) (S.remaining source.new)) }
    ensures failed { (result ≡ Err round_fault.Read) ↔ (S.failed source.new ≡ true) }
{
    let mut requests = Vec::new(alloc);
    for _ in wait.forever() {
        let Ok(count) = source.read(piece) else {
            return Err(RoundFault::Read);
        };
        if count == 0 {
            end_line(lines, library, clients, tail, &mut requests)?;
            return Ok(Round {
                requests,
                is_last: true,
            });
        }
        let bytes = &piece[..count];
        if take_piece(lines, library, clients, bytes, tail, &mut requests)? {
            return Ok(Round {
                requests,
                is_last: false,
            });
        }
    }
    unreachable!()
}

// Reads the line at the end of the input, if one has begun.
fn end_line(
    lines: &mut LineReader,
    library: &Library,
    clients: u32,
    tail: &mut Vec<u8>,
    requests: &mut Vec<Request>,
) -> Result<(), AllocError>
    requires requests { requests.old.items ≡ [] }
    ensures requests { OnOk result ((line : List ℕ) → StandsFor tail.old.items line → has_feed line ≡ false
        → AreRequests library.now clients (lines_in line) requests.new.items) }
    ensures tail { OnOk result (tail.new.items ≡ []) }
{
    if !tail.is_empty() {
        push(
            requests,
            line_asked(lines, library, clients, tail.as_slice())?,
        )?;
        tail.clear();
    }
    Ok(())
}

// Takes the bytes that came after the tail, reads the lines that are complete with them, and returns whether one is.
fn take_piece(
    lines: &mut LineReader,
    library: &Library,
    clients: u32,
    bytes: &[u8],
    tail: &mut Vec<u8>,
    requests: &mut Vec<Request>,
) -> Result<bool, AllocError>
    ensures none { result ≡ Ok false → (requests.new.items ≡ requests.old.items) × (has_feed bytes.now ≡ false)
        × ((line : List ℕ) → StandsFor tail.old.items line → StandsFor tail.new.items (line ++ bytes.now)) }
    ensures some { result ≡ Ok true → (line : List ℕ) → StandsFor tail.old.items line → has_feed line ≡ false
        → Cuts library.now clients (line ++ bytes.now) requests.old.items requests.new.items tail.new.items }
    ensures unended { result ≡ Ok true → has_feed tail.new.items ≡ false }
{
    let Some((end, rest)) = first_line(bytes) else {
        grow(tail, bytes)?;
        return Ok(false);
    };
    grow(tail, end)?;
    push(
        requests,
        line_asked(lines, library, clients, tail.as_slice())?,
    )?;
    tail.clear();
    cut(lines, library, clients, rest, tail, requests)?;
    Ok(true)
}

// Appends bytes to a line, unless it is too long already.
fn grow(line: &mut Vec<u8>, bytes: &[u8]) -> Result<(), AllocError>
    ensures { OnOk result ((whole : List ℕ) → StandsFor line.old.items whole
        → StandsFor line.new.items (whole ++ bytes.now)) }
{
    if line.len() <= MOST_LINE {
        line.extend_from_slice(bytes)?;
    }
    Ok(())
}
