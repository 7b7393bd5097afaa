//! The records as an engine's calls leave them.
ghost use Rattle.std.specs.Prelude.{◌≡◌, All, length};
ghost use Rattle.vll_check.specs.Calls.{IsReady};
ghost use Rattle.vll_counters.specs.Headline.Views.{calls_in};
ghost use Rattle.vll_proc.specs.Headline.Serial.{end};

use vll_check::Library;
use vll_core::Line;
use vll_serial::make;

/// The records as the first calls of an engine have left them, and room for the lines of its calls.
#[derive(Drop)]
pub(crate) struct Snapshot {
    pub(crate) values: Vec<u64>,
    /// How many calls these are.
    pub(crate) calls: u64,
    pub(crate) room: Vec<Line>,
}

impl Snapshot {
    /// The records of an engine in which no call was made.
    pub(crate) fn new(values: Vec<u64>, room: Vec<Line>) -> Snapshot
        ensures { result ≡ record { values = values; calls = 0; room = room } }
    {
        Snapshot {
            values,
            calls: 0,
            room,
        }
    }
}

/// Makes the calls of lines on the records, one after the other.
pub(crate) fn make_all(library: &Library, records: &mut [u64], lines: &[Line])
    requires ready { All (λ l. IsReady library.now l.call) lines.now }
    requires records { library.now.records ≡ length records.old }
    ensures { records.new ≡ end library.now.procs (calls_in lines.now) records.old }
{
    for line in lines {
        let _ = make(library, records, &line.call);
    }
}
