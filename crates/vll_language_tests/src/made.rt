//! The claims and cells of calls.
ghost use Rattle.vll_record.specs.Headline.Claim.{with_claim};

use vll_record::{Claim, Claims, MOST_CLAIMS, Mode, RecordId};

pub(crate) fn read(record: u32) -> Claim {
    Claim {
        id: RecordId(record),
        mode: Mode::Read,
    }
}

pub(crate) fn write(record: u32) -> Claim {
    Claim {
        id: RecordId(record),
        mode: Mode::Write,
    }
}

pub(crate) fn one_claim(claim: Claim) -> Claims {
    let mut claims = Claims::new();
    claims.add(claim);
    claims
}

pub(crate) fn two_claims(first: Claim, second: Claim) -> Claims {
    let mut claims = Claims::new();
    claims.add(first);
    claims.add(second);
    claims
}

// The cells of a call with two key positions.
pub(crate) fn cells(first: u8, second: u8) -> [u8; MOST_CLAIMS] {
    let mut cells = [0; MOST_CLAIMS];
    cells[0] = first;
    cells[1] = second;
    cells
}
