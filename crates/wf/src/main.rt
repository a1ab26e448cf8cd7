//! The program `wf`. It runs the command that the command line asks for, over the real standard input and
//! output, and ends with its status.
//!
//! If the words are no command, `advice` explains this on standard error. If a trace or a script has a fault,
//! `explain` describes it there, from the lines that `NotedSource` and `NotedSink` have kept.
#![tactic(auto)]

mod calls;
mod explained;
mod forms;
mod heads;
mod noted;
mod octets;
mod patient;
mod saying;
mod unknown;

use crate::explained::explain;
use crate::noted::{NotedSink, NotedSource};
use crate::patient::Patient;
use crate::unknown::advice;
use std::alloc::AllocError;
use std::env;
use std::io::ErrorKind;
use std::process::ExitCode;
use wf_gate::Free;
use wf_io::{Line, Source, StdSink, StdSource, write_line};
use wf_run::help::{command_from, usage};
use wf_run::{Status, run};

/// How many octets of the stack a command uses at most, with some to spare.
const MOST_STACK: usize = 98_304;

// Returns the words after the program's name. If one of them is not UTF-8, the words are no command.
fn words(rt: &HostRuntime) -> Result<Vec<String>, Status> {
    let args = env::args(rt).map_err(|error| match error.kind() {
        ErrorKind::OutOfMemory => Status::NoMemory,
        _ => Status::Usage,
    })?;
    args.skip(1)
        .collect(rt.alloc())
        .map_err(|_: AllocError| Status::NoMemory)
}

// Says on standard error why a run did not succeed.
#[inline(never)]
fn say(rt: &HostRuntime, status: Status, advice: &str) {
    let message = match status {
        Status::Usage => {
            let _ = eprint!(rt; "{advice}{}", usage());
            return;
        }
        Status::BadTrace =>
            "wf: the input has a fault: the last line of the output says which (see wf help faults)",
        other => other.message(),
    };
    if !message.is_empty() {
        let _ = eprintln!(rt; "{message}");
    }
}

// Explains the fault of a trace or a script on standard error. `told` is the last line of the output.
#[inline(never)]
fn say_fault<S: Source>(
    rt: &HostRuntime,
    words: &[String],
    told: &[u8],
    source: &mut NotedSource<S>,
) {
    let mut line = Line::new();
    explain(command_from(words), told, source, &mut line);
    let mut errors = StdSink::new(rt.stderr());
    let _ = write_line(&mut errors, &line);
}

// Uses, once and before anything is read, as much of the stack as the deepest command does. If the stack has
// no room for it, the system ends the program here, and never in the middle of a command. Returns whether an
// octet of it is 0, as all are.
#[inline(never)]
fn has_stack(place: usize) -> bool {
    let room = [0; MOST_STACK];
    room.get(place % MOST_STACK).copied() == Some(0u8)
}

fn main(rt: HostRuntime) -> ExitCode {
    let status = match words(&rt) {
        Ok(words) if !has_stack(words.len()) => Status::NoMemory,
        Ok(words) => {
            let mut source = NotedSource::new(StdSource::new(Patient::new(rt.stdin(), &rt)));
            let mut sink = NotedSink::new(StdSink::new(Patient::new(rt.stdout(), &rt)));
            let status = run(&rt, rt.alloc(), &words, &mut source, &mut sink, &Free);
            say(&rt, status, advice(&words));
            if status == Status::BadTrace {
                say_fault(&rt, &words, sink.line(), &mut source);
            }
            status
        }
        Err(status) => {
            say(&rt, status, "");
            status
        }
    };
    ExitCode::from(status.code())
}
