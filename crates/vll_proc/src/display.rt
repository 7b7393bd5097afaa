//! How reasons, outputs and replies are printed: in the words of an outcome, and outputs as a list for debugging.
ghost use Rattle.std.specs.Fmt.{DisplaysOnOk};
ghost use Rattle.std.specs.List.{flat_map};
ghost use Rattle.std.specs.Prelude.{Some};
ghost use Rattle.vll_proc.specs.Headline.Text.{output_text, reason_text, reply_text};
ghost use Rattle.vll_proc.specs.Text.{outputs_text};

use crate::call::{Reason, Reply};
use crate::outputs::Outputs;
use std::fmt;

/// As in `aborted overflow`, without the first word.
impl fmt::Display for Reason {
    ghost output = { λ why. Some (reason_text why) };

    fn fmt<W: fmt::Write>(&self, f: &mut fmt::Formatter<W>) -> fmt::Result {
        match self {
            Reason::Code(code) => write!(f, "code {code}"),
            Reason::Overflow => f.write_str("overflow"),
            Reason::Underflow => f.write_str("underflow"),
            Reason::ZeroDivisor => f.write_str("zero divisor"),
            Reason::Moved => f.write_str("moved"),
        }
    }
}

// Writes each of these numbers after a space.
fn write_each<W: fmt::Write>(outputs: &[u64], f: &mut fmt::Formatter<W>) -> fmt::Result
    ensures { DisplaysOnOk W.write_str_gives f.old result (Some (flat_map output_text outputs.now)) f.new }
{
    for output in outputs {
        write!(f, " {output}")?;
    }
    Ok(())
}

/// The numbers, separated by spaces.
impl fmt::Display for Outputs {
    ghost output = { λ outputs. Some (outputs_text outputs) };

    fn fmt<W: fmt::Write>(&self, f: &mut fmt::Formatter<W>) -> fmt::Result {
        match self.as_slice().split_first() {
            None => Ok(()),
            Some((first, more)) => {
                write!(f, "{first}")?;
                write_each(more, f)
            }
        }
    }
}

impl fmt::Debug for Outputs {
    fn fmt<W: fmt::Write>(&self, f: &mut fmt::Formatter<W>) -> fmt::Result {
        let outputs = self.as_slice();
        write!(f, "{outputs:?}")
    }
}

/// As in the line of a call: `committed 70`, or `aborted overflow`.
impl fmt::Display for Reply {
    ghost output = { λ reply. Some (reply_text reply) };

    fn fmt<W: fmt::Write>(&self, f: &mut fmt::Formatter<W>) -> fmt::Result {
        match self {
            Reply::Committed(outputs) => {
                f.write_str("committed")?;
                write_each(outputs.as_slice(), f)
            }
            Reply::Aborted(why) => write!(f, "aborted {why}"),
        }
    }
}
