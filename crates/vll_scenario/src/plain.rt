//! A source over any reader of std, and a sink over any writer of std.
ghost use Rattle.std.specs.Prelude.{◌≡◌, false};
ghost use Rattle.std.specs.Io.{ReadsAtMost, WritesAtMost};
ghost use Rattle.std.specs.Io.KnownBytes.{Keeps, ReadConsumes, WriteAppends};
ghost use Rattle.vll_scenario.specs.Plain.{plain_failed, plain_failure, plain_inner};

use crate::stream::{Sink, Source};
use std::io;
use std::io::ErrorKind;

/// A reader or a writer of std that keeps why it failed.
#[derive(Drop)]
pub struct Plain<T> {
    inner: T,
    failure: Option<io::Error>,
}

impl<T> Plain<T> {
    /// Wraps a reader or a writer, which counts as not failed.
    pub fn new(inner: T) -> Plain<T>
        ensures inner { plain_inner result ≡ inner }
        ensures failed { plain_failed result ≡ false }
    {
        Plain {
            inner,
            failure: None,
        }
    }

    /// Returns why it failed the last time, if it has.
    pub fn failure(&self) -> Option<io::Error>
        ensures { result ≡ plain_failure self.now }
    {
        self.failure
    }
}

impl<R: io::Read> Source for Plain<R> {
    ghost remaining = { λ p. R.remaining (plain_inner p) };

    ghost failed = { plain_failed };

    fn read(&mut self, buf: &mut [u8]) -> io::Result<usize> {
        let read = self.inner.read(buf);
        if let Err(why) = read {
            self.failure = Some(why);
        }
        read
    }

    fn has_failed(&self) -> bool {
        self.failure.is_some()
    }
}

impl<W: io::Write> Sink for Plain<W> {
    ghost contents = { λ p. W.contents (plain_inner p) };

    ghost failed = { plain_failed };

    fn write(&mut self, buf: &[u8]) -> io::Result<usize> {
        let written = self.inner.write(buf);
        match written {
            Ok(0) if !buf.is_empty() => self.failure = Some(ErrorKind::WriteZero.into()),
            Err(why) => self.failure = Some(why),
            Ok(_) => {}
        }
        written
    }

    fn flush(&mut self) -> io::Result<()> {
        let flushed = self.inner.flush();
        if let Err(why) = flushed {
            self.failure = Some(why);
        }
        flushed
    }

    fn has_failed(&self) -> bool {
        self.failure.is_some()
    }
}
