//! Reading the bytes of a source to their end, up to the most that a scenario may have.
ghost use Rattle.std.specs.Prelude.{◌≡◌, ◌↔◌, false, true, IfOk};
ghost use Rattle.vll_scenario.specs.Bytes.{ReadsAll, ReadsSome, ReadsTooMany};

use crate::fault::ScenarioFault;
use crate::limits::MOST_BYTES;
use crate::stream::Source;
use std::alloc::{AllocError, Global};

// How many bytes are asked for at a time.
const PIECE: usize = 8_192;

const _: () = prove!(PIECE == 8_192);

/// Why the bytes of a source were not read to their end.
#[derive(Debug, Drop)]
pub enum ReadFault {
    /// The source failed.
    Read,
    /// More bytes came than a scenario may have.
    Size,
    NoMemory,
}

impl From<AllocError> for ReadFault {
    ghost use Rattle.std.specs.Prelude.{◌≡◌};
    ghost use Rattle.vll_scenario.specs.declared.reading.bytes.ReadFault.TheVariants.{NoMemory};

    ghost from_gives = { λ _ e. e ≡ NoMemory };

    fn from(_: AllocError) -> ReadFault {
        ReadFault::NoMemory
    }
}

impl From<ReadFault> for ScenarioFault {
    ghost use Rattle.std.specs.Prelude.{◌≡◌};
    ghost use Rattle.vll_scenario.specs.Bytes.{fault_of};

    ghost from_gives = { λ f e. e ≡ fault_of f };

    fn from(fault: ReadFault) -> ScenarioFault {
        match fault {
            ReadFault::Read => ScenarioFault::Read,
            ReadFault::Size => ScenarioFault::Size,
            ReadFault::NoMemory => ScenarioFault::NoMemory,
        }
    }
}

/// Reads a source to its end. Once more than `MOST_BYTES` bytes have come, it reads no further.
pub fn read_bytes<S: Source>(alloc: Global, source: &mut S) -> Result<Vec<u8>, ReadFault>
    requires { S.failed source.old ≡ false }
    ensures ok { IfOk result
        (λ v. ReadsAll (S.remaining source.old) (S.remaining source.new) v.items) }
    ensures size { result ≡ Err ReadFault.Size
        → ReadsTooMany (S.remaining source.old) (S.remaining source.new) }
    ensures some { ReadsSome (S.remaining source.old) (S.remaining source.new) }
    ensures failed { (result ≡ Err ReadFault.Read) ↔ (S.failed source.new ≡ true) }
{
    let mut bytes = Vec::new(alloc);
    let mut piece = [0; PIECE];
    'pieces: while bytes.len() <= MOST_BYTES {
        let Ok(count) = source.read(&mut piece) else {
            return Err(ReadFault::Read);
        };
        if count == 0 {
            return Ok(bytes);
        }
        bytes.extend_from_slice(&piece[..count])?;
    }
    Err(ReadFault::Size)
}
