//! Cutting bytes into lines at line feeds.
ghost use Rattle.std.specs.Prelude.{◌≡◌, ◌++◌, ◌∷◌, [], IfOk, IfNone, IfSome, false, OnOk};
ghost use Rattle.vll_lines.specs.Request.{IsLine};
ghost use Rattle.vll_lines.specs.Lines.{has_feed};
ghost use Rattle.vll_lines.specs.Private.Cutting.{Cuts};

use crate::limits::MOST_LINE;
use crate::request::{LineFault, Request};
use crate::tokens::LineReader;
use memchr::memchr;
use std::alloc::AllocError;
use vll_check::Library;

// The byte that ends a line.
const LINE_FEED: u8 = 10;

// The first complete line, and what follows its line feed.
pub(crate) fn first_line(bytes: &[u8]) -> Option<(&[u8], &[u8])>
    ensures some { IfSome result (λ cut. (bytes.now ≡ cut.0.now ++ 10 ∷ cut.1.now) × (has_feed cut.0.now ≡ false)) }
    ensures none { IfNone result (has_feed bytes.now ≡ false) }
{
    let length = memchr(LINE_FEED, bytes)?;
    Some((&bytes[..length], &bytes[length + 1..]))
}

// Appends what each complete line asks for, in order, and to `tail` the bytes that follow the last one.
pub(crate) fn cut(
    lines: &mut LineReader,
    library: &Library,
    clients: u32,
    bytes: &[u8],
    tail: &mut Vec<u8>,
    requests: &mut Vec<Request>,
) -> Result<(), AllocError>
    requires { tail.old.items ≡ [] }
    ensures cuts { OnOk result (Cuts library.now clients bytes.now requests.old.items requests.new.items tail.new.items) }
    ensures unended { OnOk result (has_feed tail.new.items ≡ false) }
{
    let mut rest = bytes;
    'lines: while let Some((line, more)) = first_line(rest) {
        push(requests, line_asked(lines, library, clients, line)?)?;
        rest = more;
    }
    tail.extend_from_slice(rest)
}

// What a line asks for, whatever its length.
pub(crate) fn line_asked(
    lines: &mut LineReader,
    library: &Library,
    clients: u32,
    line: &[u8],
) -> Result<Request, AllocError>
    ensures { IfOk result (IsLine library.now clients line.now) }
{
    if line.len() > MOST_LINE {
        return Ok(Request {
            id: None,
            asked: Err(LineFault::Long),
        });
    }
    lines.read(library, clients, line)
}

// Appends to a list.
pub(crate) fn push(requests: &mut Vec<Request>, one: Request) -> Result<(), AllocError>
    ensures { OnOk result (requests.new.items ≡ requests.old.items ++ one ∷ []) }
{
    requests.push(one)?;
    Ok(())
}
