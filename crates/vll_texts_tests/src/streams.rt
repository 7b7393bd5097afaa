//! A reader and a writer that take a byte at a time, and stop at a given place.
use std::io;
use std::io::{Read, Write};

/// Gives its text a byte at a time, and then ends or fails.
#[derive(Drop)]
pub(crate) struct Slow<'a> {
    pub(crate) text: &'a [u8],
    pub(crate) breaks: bool,
}

impl<'a> Read for Slow<'a> {
    fn read(&mut self, buf: &mut [u8]) -> io::Result<usize> {
        match (self.text.split_first(), buf.first_mut()) {
            (Some((byte, rest)), Some(place)) => {
                *place = *byte;
                self.text = rest;
                Ok(1)
            }
            _ if self.breaks => Err(broken()),
            _ => Ok(0),
        }
    }
}

/// Takes a byte at a time while there is room, and compares what it takes with a text.
#[derive(Drop)]
pub(crate) struct Narrow<'a> {
    /// The rest of the text, which is still to come.
    rest: &'a [u8],
    /// How many bytes it still takes.
    room: usize,
    /// What happens to a write when there is no room.
    full: Full,
    /// Whether a flush succeeds.
    flushes: bool,
    /// Whether a byte came that differs from the text.
    strayed: bool,
}

/// What happens to a write to a writer without room.
#[derive(Clone, Copy)]
pub(crate) enum Full {
    Fails,
    TakesNothing,
}

impl<'a> Narrow<'a> {
    /// Makes a writer that has room for `room` bytes, and compares what it takes with a text.
    pub(crate) fn new(text: &'a str, room: usize, full: Full, flushes: bool) -> Narrow<'a> {
        Narrow {
            rest: text.as_bytes(),
            room,
            full,
            flushes,
            strayed: false,
        }
    }

    /// Whether all that was taken is the text without its last `count` bytes.
    pub(crate) fn lacks(&self, count: usize) -> bool {
        self.rest.len() == count && !self.strayed
    }
}

impl<'a> Write for Narrow<'a> {
    fn write(&mut self, buf: &[u8]) -> io::Result<usize> {
        let Some(byte) = buf.first() else {
            return Ok(0);
        };
        if self.room == 0 {
            return match self.full {
                Full::Fails => Err(broken()),
                Full::TakesNothing => Ok(0),
            };
        }
        self.room -= 1;
        match self.rest.split_first() {
            Some((next, rest)) if *next == *byte => self.rest = rest,
            _ => self.strayed = true,
        }
        Ok(1)
    }

    fn flush(&mut self) -> io::Result<()> {
        if self.flushes { Ok(()) } else { Err(broken()) }
    }
}

fn broken() -> io::Error {
    io::Error::from(io::ErrorKind::BrokenPipe)
}
