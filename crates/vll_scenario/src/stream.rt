//! The source of bytes that a scenario is read from, and the sink that texts are written to.
ghost use Rattle.std.specs.Prelude.{◌≡◌, Bool, true, ◌||◌, ◌&&◌, ◌==◌, not, List, ℕ, length, Option, IfOk, OnOk, OnErr};
ghost use Rattle.std.specs.Io.{ReadsAtMost, WritesAtMost};
ghost use Rattle.std.specs.Io.KnownBytes.{Appends, Keeps, ReadConsumes, WriteAppends};

use std::io;

/// A source of bytes, in the manner of std's `Read`. An implementation may make its bytes known to contracts.
pub trait Source {
    // The bytes still to be read, if they are known.
    ghost remaining: { Self → Option (List ℕ) };

    ghost failed: { Self → Bool };

    /// Reads up to `buf.len()` bytes into `buf`, and returns how many: 0 only at the end, or if `buf` is empty. After
    /// an error `has_failed` is true; an `Ok` leaves it unchanged.
    fn read(&mut self, buf: &mut [u8]) -> io::Result<usize>
        ensures bound { ReadsAtMost result buf.new }
        ensures bytes { ReadConsumes (remaining self.old) (remaining self.new) result buf.new }
        ensures ok { OnOk result (failed self.new ≡ failed self.old) }
        ensures err { OnErr result (failed self.new ≡ true) };

    /// Reports whether a read has failed.
    fn has_failed(&self) -> bool
        ensures { result ≡ failed self.now };
}

/// A sink for bytes, in the manner of std's `Write`. An implementation may make its bytes known to contracts.
pub trait Sink {
    // The bytes that were written, if they are known.
    ghost contents: { Self → Option (List ℕ) };

    ghost failed: { Self → Bool };

    /// Writes some bytes from the front of `buf`, and returns how many. After an error, or if it takes none of a `buf`
    /// that is not empty, `has_failed` is true; any other `Ok` leaves it unchanged.
    fn write(&mut self, buf: &[u8]) -> io::Result<usize>
        ensures bound { WritesAtMost result buf.now }
        ensures bytes { WriteAppends (contents self.old) (contents self.new) result buf.now }
        ensures ok { IfOk result (λ n. failed self.new
            ≡ (failed self.old || (n == 0 && not (length buf.now == 0)))) }
        ensures err { OnErr result (failed self.new ≡ true) };

    /// Passes on any buffered bytes. After an error `has_failed` is true; an `Ok` leaves it unchanged.
    fn flush(&mut self) -> io::Result<()>
        ensures bytes { Keeps (contents self.old) (contents self.new) }
        ensures ok { OnOk result (failed self.new ≡ failed self.old) }
        ensures err { OnErr result (failed self.new ≡ true) };

    /// Reports whether a write or a flush has failed.
    fn has_failed(&self) -> bool
        ensures { result ≡ failed self.now };
}
