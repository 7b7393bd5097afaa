//! Writes the text of what a run leaves.
ghost use Rattle.std.specs.Prelude.{◌≡◌, ◌↔◌, false, true, OnOk, length};
ghost use Rattle.std.specs.Io.KnownBytes.{Appends};
ghost use Rattle.vll_scenario.specs.Streams.{AppendsBeginning};
ghost use Rattle.vll_server.specs.Headline.Text.{closed_text};

use crate::text::closed_text_of;
use std::alloc::Global;
use vll_engine::Closed;
use vll_scenario::{Sink, WriteFault, write_text};

/// Writes the text of what a run leaves: a line for each call, and then one for each record, with its value and its
/// pair word. The whole text is made before its first byte is written, and flushed once at its end.
pub fn write_outcome<W: Sink>(
    alloc: Global,
    writer: &mut W,
    closed: &Closed,
) -> Result<(), WriteFault>
    requires writer { W.failed writer.old ≡ false }
    requires paired { length closed.now.records.items ≡ length closed.now.pairs.items }
    ensures ok { OnOk result (Appends (W.contents writer.old) (W.contents writer.new) (closed_text closed.now)) }
    ensures no_memory { result ≡ Err WriteFault.NoMemory → writer.new ≡ writer.old }
    ensures write { result ≡ Err WriteFault.Write
        → AppendsBeginning (W.contents writer.old) (W.contents writer.new) (closed_text closed.now) }
    ensures failed { (result ≡ Err WriteFault.Write) ↔ (W.failed writer.new ≡ true) }
{
    let text = closed_text_of(alloc, closed).map_err(|_| WriteFault::NoMemory)?;
    write_text(writer, text.as_bytes())
}
