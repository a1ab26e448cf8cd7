//! Runs the command that the words of a command line ask for.

ghost use Rattle.std.specs.Prelude.{◌≡◌, ◌≤◌, ◌↔◌, ℕ, IfSome, Some, None, map, string_bytes};
ghost use Rattle.wf_trace.specs.CommandEnds.{CommandEnds, CommandWrites, TellsFault};
ghost use Rattle.wf_run.specs.Commands.{command_of, HasCallsInRange};
ghost use Rattle.wf_run.specs.Telling.{TellingStatusSays};
ghost use Rattle.wf_run.specs.Topics.{help_text, version_text};
ghost use Rattle.wf_run.specs.declared.help.topic.Topic.{Topic};
ghost use Rattle.wf_trace_laws.specs.Endings.{TraceAnswered};
ghost use Rattle.wf_run_replay.specs.Outcome.{StatusSays};
ghost use Rattle.wf_run_replay.specs.CaptureOutcome.{CaptureOutcome};
ghost use Rattle.wf_run_scripts.specs.SessionOutcome.{SessionOutcome, SessionAnswered};
ghost use Rattle.wf_run_scripts.specs.UplinkOutcome.{UplinkOutcome, UplinkAnswered};
ghost use Rattle.wf_report.specs.ListingOutcome.{FramesOutcome, FramesAnswered};
ghost use Rattle.wf_run_histories.specs.Lives.{LiveStatusSays};
ghost use Rattle.wf_run_histories.specs.declared.soak.soaks.SoakKind.{SoakKind as KindOfSoak};
ghost use Rattle.wf_run.specs.Outcome.{SoakStatusSays, ProgramLaws};
ghost use Rattle.wf_run.specs.Runs.{RunEnds};

use crate::help::{Command, command_from, help, version};
use std::alloc::Global;
use std::sync::Wait;
use std::thread::Threads;
use wf_gate::Turnstile;
use wf_io::{Sink, Source, Status};
use wf_report::captures::listing::frames;
use wf_report::summary;
use wf_run_histories::live::lived;
use wf_run_histories::soak::{SoakKind, soak};
use wf_run_replay::capture::capture;
use wf_run_replay::replay;
use wf_run_scripts::session::session;
use wf_run_scripts::uplink::uplink;

/// Runs the soak of a seed, a number of calls, 1 to 1,000,000, and a kind, and writes its summary.
///
/// `Status::NoMemory` means that memory ran out, and `Status::WriteFault` that the sink failed.
#[inline(never)]
pub fn soaked<K: Sink>(alloc: Global, seed: u64, calls: u32, kind: SoakKind, sink: &mut K) -> Status
    requires { (1 ≤ calls) × (calls ≤ 1000000) }
    ensures ends { CommandWrites K.held K.faults (λ status written.
        SoakStatusSays status seed calls kind written) sink.old sink.new result }
{
    let Ok(cell) = soak(alloc, seed, calls, kind) else {
        return Status::NoMemory;
    };
    match summary(&cell, sink) {
        Ok(()) => Status::Done,
        Err(_) => Status::WriteFault,
    }
}

/// Runs the command that the words ask for, on this source and sink.
///
/// The commands are `replay`, `replay --pcap`, `soak SEED CALLS`, also with the word `device` or
/// `agreements`, `live SEED SENDERS FRAMES`, `session`, `uplink` and `frames`. `help` and `help COMMAND`, or
/// `--help` or `-h` anywhere, write the help, and `--version` writes the version. Only `live` creates threads
/// and may wait; it calls the turnstile around each call at its gate.
pub fn run<R: Threads + Wait + Sync, S: Source, K: Sink, T: Turnstile + Sync>(
    rt: &R,
    alloc: Global,
    words: &[String],
    source: &mut S,
    sink: &mut K,
    turnstile: &T,
) -> Status
    ensures usage { (result ≡ Status.Usage) ↔ (command_of (map string_bytes words.now) ≡ None) }
    ensures untouched { result ≡ Status.Usage → (source.new ≡ source.old) × (sink.new ≡ sink.old) }

    // the commands that read the source
    ensures replay { command_of (map string_bytes words.now) ≡ Some Command.Replay →
        CommandEnds S.left S.faults K.held K.faults StatusSays TraceAnswered
        source.old source.new sink.old sink.new result }
    ensures capture { command_of (map string_bytes words.now) ≡ Some Command.Capture →
        CommandEnds S.left S.faults K.held K.faults CaptureOutcome TraceAnswered
        source.old source.new sink.old sink.new result }
    ensures session { command_of (map string_bytes words.now) ≡ Some Command.Session →
        CommandEnds S.left S.faults K.held K.faults SessionOutcome SessionAnswered
        source.old source.new sink.old sink.new result }
    ensures uplink { command_of (map string_bytes words.now) ≡ Some Command.Uplink →
        CommandEnds S.left S.faults K.held K.faults UplinkOutcome UplinkAnswered
        source.old source.new sink.old sink.new result }
    ensures frames { command_of (map string_bytes words.now) ≡ Some Command.Frames →
        CommandEnds S.left S.faults K.held K.faults FramesOutcome FramesAnswered
        source.old source.new sink.old sink.new result }

    // the commands that do not read it
    ensures soak { (seed calls : ℕ) (kind : KindOfSoak) →
        command_of (map string_bytes words.now) ≡ Some (Command.Soak seed calls kind) →
        (source.new ≡ source.old) × CommandWrites K.held K.faults
        (λ status written. SoakStatusSays status seed calls kind written) sink.old sink.new result }
    ensures live { (seed senders frames : ℕ) →
        command_of (map string_bytes words.now) ≡ Some (Command.Live seed senders frames) →
        (source.new ≡ source.old) × CommandWrites K.held K.faults
        (λ status written. LiveStatusSays status seed senders frames written) sink.old sink.new result }
    ensures help { (topic : Topic) → command_of (map string_bytes words.now) ≡ Some (Command.Help topic) →
        (source.new ≡ source.old) × CommandWrites K.held K.faults
        (λ status written. TellingStatusSays status (help_text topic) written) sink.old sink.new result }
    ensures version { command_of (map string_bytes words.now) ≡ Some Command.Version →
        (source.new ≡ source.old) × CommandWrites K.held K.faults
        (λ status written. TellingStatusSays status version_text written) sink.old sink.new result }

    // all commands
    ensures laws { ProgramLaws (S.left source.old) }
    ensures read { TellsFault Status.ReadFault (S.faults source.old) (S.faults source.new) result }
    ensures write { TellsFault Status.WriteFault (K.faults sink.old) (K.faults sink.new) result }
{
    carry_out(rt, alloc, command_from(words), source, sink, turnstile)
}

// Lists a capture. It is a separate function, so that its stack does not add to that of other commands.
#[inline(never)]
fn listed<S: Source, K: Sink>(alloc: Global, source: &mut S, sink: &mut K) -> Status
    ensures ends { CommandEnds S.left S.faults K.held K.faults FramesOutcome FramesAnswered
        source.old source.new sink.old sink.new result }
{
    frames(alloc, source, sink)
}

// Runs a command, or does nothing if there is none.
#[inline(never)]
fn carry_out<R: Threads + Wait + Sync, S: Source, K: Sink, T: Turnstile + Sync>(
    rt: &R,
    alloc: Global,
    command: Option<Command>,
    source: &mut S,
    sink: &mut K,
    turnstile: &T,
) -> Status
    requires { IfSome command HasCallsInRange }
    ensures ends { RunEnds command S.left S.faults K.held K.faults
        source.old source.new sink.old sink.new result }
{
    match command {
        None => Status::Usage,
        Some(Command::Replay) => replay(alloc, source, sink),
        Some(Command::Capture) => capture(alloc, source, sink),
        Some(Command::Soak { seed, calls, kind }) => soaked(alloc, seed, calls, kind, sink),
        Some(
            Command::Live {
                seed,
                senders,
                frames,
            },
        ) => lived(rt, alloc, seed, senders, frames, sink, turnstile),
        Some(Command::Session) => session(alloc, source, sink),
        Some(Command::Uplink) => uplink(alloc, source, sink),
        Some(Command::Frames) => listed(alloc, source, sink),
        Some(Command::Help(topic)) => help(topic, sink),
        Some(Command::Version) => version(sink),
    }
}
