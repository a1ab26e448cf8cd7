//! A source and a sink that keep the lines from which a fault is explained: the lines read last, and the line
//! written last.

use arrayvec::ArrayVec;
use std::mem;
use wf_io::{Failed, Sink, Source};

/// The most octets of a block.
const BLOCK: usize = 4096;

// The octets that were read last, in two blocks that together hold at least the last 4096 octets. About the
// octets before them it keeps the number of lines that ended, and up to 161 octets of the line that was
// begun.
#[derive(Drop)]
struct Window {
    ended: u64,
    begun: ArrayVec<u8, 161>,
    older: ArrayVec<u8, 4096>,
    newer: ArrayVec<u8, 4096>,
}

impl Window {
    fn new() -> Self {
        Window {
            ended: 0,
            begun: ArrayVec::new(),
            older: ArrayVec::new(),
            newer: ArrayVec::new(),
        }
    }

    // Drops the older block, counts its lines, and starts a new block.
    fn pass(&mut self) {
        let older = mem::replace(
            &mut self.older,
            mem::replace(&mut self.newer, ArrayVec::new()),
        );
        let octets = older.as_slice();
        let ended = octets.iter().filter(|octet| **octet == b'\n').count();
        self.ended = self.ended.saturating_add(ended as u64);
        let mut begun = octets;
        if let Some(last) = octets.iter().rposition(|octet| *octet == b'\n') {
            self.begun.clear();
            begun = &octets[last + 1..];
        }
        let count = begun.len().min(self.begun.remaining_capacity());
        let _ = self.begun.try_extend_from_slice(&begun[..count]);
    }

    // Adds octets that were read.
    fn note(&mut self, octets: &[u8]) {
        for piece in octets.chunks(BLOCK) {
            if self.newer.remaining_capacity() < piece.len() {
                self.pass();
            }
            let _ = self.newer.try_extend_from_slice(piece);
        }
    }

    // Returns the line of this number, if it is still known.
    fn line(&mut self, number: u64) -> Option<&[u8]> {
        for octet in self.older.as_slice().iter().chain(self.newer.as_slice()) {
            if *octet != b'\n' {
                let _ = self.begun.try_push(*octet);
            } else if self.ended.saturating_add(1) == number {
                break;
            } else {
                self.ended = self.ended.saturating_add(1);
                self.begun.clear();
            }
        }
        if self.ended.saturating_add(1) == number {
            Some(self.begun.as_slice())
        } else {
            None
        }
    }
}

/// A source that keeps the octets that it returned last.
#[derive(Drop)]
pub struct NotedSource<S> {
    source: S,
    window: Window,
}

impl<S: Source> NotedSource<S> {
    /// Wraps a source. Nothing is kept yet.
    #[inline(never)]
    pub fn new(source: S) -> Self {
        NotedSource {
            source,
            window: Window::new(),
        }
    }

    /// Returns the line of this number, counted from 1, without its octet 10 and cut to 161 octets. It is
    /// known if it has begun and did not end before the last 4096 octets that were read. Call this once only:
    /// it forgets the earlier lines.
    pub fn line(&mut self, number: u64) -> Option<&[u8]> {
        self.window.line(number)
    }
}

impl<S: Source> Source for NotedSource<S> {
    ghost left = { λ n. S.left n.source };

    ghost faults = { λ n. S.faults n.source };

    fn read(&mut self, buffer: &mut [u8]) -> Result<usize, Failed> {
        let count = self.source.read(buffer)?;
        self.window.note(&buffer[..count]);
        Ok(count)
    }
}

/// A sink that keeps the line that was written last.
#[derive(Drop)]
pub struct NotedSink<K> {
    sink: K,
    tail: Tail,
}

// The line that was written last, cut to 64 octets, and whether it has ended.
#[derive(Drop)]
struct Tail {
    line: ArrayVec<u8, 64>,
    ended: bool,
}

const TAIL: usize = 64;

impl Tail {
    fn new() -> Self {
        Tail {
            line: ArrayVec::new(),
            ended: true,
        }
    }

    fn take(&mut self, octet: u8) {
        if self.ended {
            self.line.clear();
        }
        self.ended = octet == b'\n';
        if !self.ended && !self.line.is_full() {
            self.line.push(octet);
        }
    }

    // Adds octets that were written. The last 64 of them are enough for a fault line.
    fn note(&mut self, octets: &[u8]) {
        let from = octets.len().saturating_sub(TAIL);
        for octet in &octets[from..] {
            self.take(*octet);
        }
    }
}

impl<K: Sink> NotedSink<K> {
    /// Wraps a sink. Nothing is kept yet.
    pub fn new(sink: K) -> Self {
        NotedSink {
            sink,
            tail: Tail::new(),
        }
    }

    /// Returns the line that was written last, without its octet 10. It is complete if it has at most 63
    /// octets.
    pub fn line(&self) -> &[u8] {
        self.tail.line.as_slice()
    }
}

impl<K: Sink> Sink for NotedSink<K> {
    ghost held = { λ n. K.held n.sink };

    ghost faults = { λ n. K.faults n.sink };

    fn write(&mut self, octets: &[u8]) -> Result<usize, Failed> {
        let count = self.sink.write(octets)?;
        self.tail.note(&octets[..count]);
        Ok(count)
    }
}
