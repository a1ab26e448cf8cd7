//! The source and the sink over std's readers and writers. Contracts do not know their octets.

ghost use Rattle.std.specs.Prelude.{◌≡◌, None};

use crate::{Failed, Sink, Source};
use std::io::{Read, Write};
use std::marker::Model;

/// A source over a reader of std. It counts each error as a fault.
#[derive(Drop)]
pub struct StdSource<I> {
    reader: I,
    faults: u64,
}

// Contracts see the count of faults.
impl<I> Model for StdSource<I> {
    ghost use Rattle.std.specs.Prelude.{ℕ};

    ghost Value = { ℕ };

    ghost view = { λ s. s.faults };
}

impl<I: Read> StdSource<I> {
    /// Returns a source without faults so far.
    pub fn new(reader: I) -> StdSource<I>
        ensures { result ≡ 0 }
    {
        StdSource { reader, faults: 0 }
    }
}

impl<I: Read> Source for StdSource<I> {
    ghost left = { λ s. None };

    ghost faults = { λ s. s };

    fn read(&mut self, buffer: &mut [u8]) -> Result<usize, Failed> {
        match self.reader.read(buffer) {
            Ok(count) => Ok(count),
            Err(_) => {
                self.faults = self.faults.saturating_add(1);
                Err(Failed)
            }
        }
    }
}

/// A sink over a writer of std. It counts each error as a fault, and each write that took no octets.
#[derive(Drop)]
pub struct StdSink<O> {
    writer: O,
    faults: u64,
}

// Contracts see the count of faults.
impl<O> Model for StdSink<O> {
    ghost use Rattle.std.specs.Prelude.{ℕ};

    ghost Value = { ℕ };

    ghost view = { λ s. s.faults };
}

impl<O: Write> StdSink<O> {
    /// Returns a sink without faults so far.
    pub fn new(writer: O) -> StdSink<O>
        ensures { result ≡ 0 }
    {
        StdSink { writer, faults: 0 }
    }
}

impl<O: Write> Sink for StdSink<O> {
    ghost held = { λ s. None };

    ghost faults = { λ s. s };

    fn write(&mut self, octets: &[u8]) -> Result<usize, Failed> {
        match self.writer.write(octets) {
            Ok(count) if count > 0 => Ok(count),
            _ => {
                self.faults = self.faults.saturating_add(1);
                Err(Failed)
            }
        }
    }
}
