//! The journal line of an entered call.
ghost use Rattle.std.specs.Prelude.{◌≡◌, [], None};

use vll_proc::{Call, MOST_ARGS, Reply};
use vll_record::{Claims, MOST_CLAIMS};

/// A line of the journal: a call, the client that entered it, and its reply once it is finished.
#[derive(Clone, Copy)]
pub struct Line {
    pub client: u32,
    pub call: Call,
    pub reply: Option<Reply>,
}

impl Line {
    /// Returns the line of a call that has neither claims nor a reply. Unused places of a journal are filled with it.
    pub(crate) fn blank() -> Line
        ensures claims { result.call.claims ≡ [] }
        ensures reply { result.reply ≡ None }
    {
        let call = Call {
            number: 0,
            arg_count: 0,
            args: [0; MOST_ARGS],
            found: None,
            claims: Claims::new(),
            cells: [0; MOST_CLAIMS],
        };
        Line {
            client: 0,
            call,
            reply: None,
        }
    }
}
