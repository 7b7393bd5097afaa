//! The line of a record in an outcome.
ghost use Rattle.std.specs.Prelude.{◌≡◌, ◌++◌, OnOk, string_bytes};
ghost use Rattle.vll_replay.specs.Headline.Text.{record_line};

use std::alloc::AllocError;

/// Appends the line of a record of an outcome, with its number, its value and its pair word. After `AllocError` a
/// prefix of the line may have been appended.
pub fn push_record_line(
    text: &mut String,
    index: usize,
    value: u64,
    pair: u64,
) -> Result<(), AllocError>
    ensures { OnOk result (string_bytes text.new
        ≡ string_bytes text.old ++ record_line (index, (value, pair))) }
{
    writeln!(text, "record {index} value {value} pair {pair}")
}
