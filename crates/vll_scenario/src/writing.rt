//! Writing a text to a sink in full, and why it was not written.
ghost use Rattle.std.specs.Prelude.{◌≡◌, ◌↔◌, false, true, IfErr, OnErr, OnOk};
ghost use Rattle.std.specs.Io.KnownBytes.{Appends};
ghost use Rattle.vll_scenario.specs.Streams.{AppendsBeginning};

use crate::stream::Sink;
use thiserror::Error;

/// Why a text was not written in full. After `NoMemory` nothing has been written, and after `Write` a prefix of it.
#[derive(Clone, Copy, PartialEq, Eq, Debug, Error)]
pub enum WriteFault {
    #[error("no memory")]
    NoMemory,
    /// A write or a flush failed, or a write took no bytes.
    #[error("write")]
    Write,
}

/// Writes a text in full, and flushes.
pub fn write_text<W: Sink>(writer: &mut W, text: &[u8]) -> Result<(), WriteFault>
    requires { W.failed writer.old ≡ false }
    ensures ok { OnOk result
        (Appends (W.contents writer.old) (W.contents writer.new) text.now) }
    ensures err { OnErr result
        (AppendsBeginning (W.contents writer.old) (W.contents writer.new) text.now) }
    ensures fault { IfErr result (λ fault. fault ≡ WriteFault.Write) }
    ensures failed { (result ≡ Err WriteFault.Write) ↔ (W.failed writer.new ≡ true) }
{
    let mut rest = text;
    'pieces: while !rest.is_empty() {
        match writer.write(rest) {
            Ok(count) if count > 0 => rest = &rest[count..],
            _ => return Err(WriteFault::Write),
        }
    }
    writer.flush().map_err(|_| WriteFault::Write)
}
