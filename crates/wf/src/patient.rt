//! A reader and a writer over descriptors that may be set not to block. If the system has no octets, or no
//! room for them, for now, they wait and try again, as a descriptor that blocks would.

use std::io::{self, ErrorKind, Read, Write};
use std::thread;
use std::time::{Clock, Duration};

/// How many milliseconds to wait between two tries.
const PAUSE: u64 = 1;

/// A reader or a writer, and the clock by which it waits.
#[derive(Drop)]
pub struct Patient<I, C> {
    inner: I,
    clock: C,
}

impl<I, C> Patient<I, C> {
    /// Wraps a reader or a writer.
    pub fn new(inner: I, clock: C) -> Self {
        Patient { inner, clock }
    }
}

// Returns whether a call failed only because it would have had to wait.
fn would_wait(done: &io::Result<usize>) -> bool {
    match done {
        Ok(_) => false,
        Err(error) => error.kind() == ErrorKind::WouldBlock,
    }
}

impl<I: Read, C: Clock> Read for Patient<I, C> {
    fn read(&mut self, buffer: &mut [u8]) -> io::Result<usize> {
        for _ in 0..u64::MAX {
            let done = self.inner.read(buffer);
            if !would_wait(&done) {
                return done;
            }
            thread::sleep(&self.clock, Duration::from_millis(PAUSE));
        }
        self.inner.read(buffer)
    }
}

impl<I: Write, C: Clock> Write for Patient<I, C> {
    fn write(&mut self, octets: &[u8]) -> io::Result<usize> {
        for _ in 0..u64::MAX {
            let done = self.inner.write(octets);
            if !would_wait(&done) {
                return done;
            }
            thread::sleep(&self.clock, Duration::from_millis(PAUSE));
        }
        self.inner.write(octets)
    }

    fn flush(&mut self) -> io::Result<()> {
        self.inner.flush()
    }
}
