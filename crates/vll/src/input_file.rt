//! The file that a scenario is read from.
ghost use Rattle.std.specs.Prelude.{◌≡◌, false};
ghost use Rattle.std.specs.Io.{ReadsAtMost};
ghost use Rattle.std.specs.Io.KnownBytes.{Keeps, ReadConsumes};
ghost use Rattle.vll_scenario.specs.Plain.{plain_failed};

use std::rt::Files;
use std::{fs, io};
use vll_scenario::Plain;

/// A file that was opened, or why it could not be. Then each read of it fails for this reason.
#[derive(Drop)]
pub(crate) enum InputFile<F> {
    Open(F),
    Unopened(io::Error),
}

impl<F: io::Read> io::Read for InputFile<F> {
    fn read(&mut self, buf: &mut [u8]) -> io::Result<usize> {
        match self {
            InputFile::Open(file) => file.read(buf),
            InputFile::Unopened(why) => Err(*why),
        }
    }
}

// Opens the file with this path.
pub(crate) fn opened<R: Files>(rt: &R, path: &str) -> Plain<InputFile<R::File>>
    ensures { plain_failed result ≡ false }
{
    let file = match fs::open(rt, path) {
        Ok(file) => InputFile::Open(file),
        Err(why) => InputFile::Unopened(why),
    };
    Plain::new(file)
}
