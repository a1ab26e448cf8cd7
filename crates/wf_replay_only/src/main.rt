//! The command `wf replay` alone, as a program. It compiles sooner than the whole program.
#![tactic(auto)]

use std::process::ExitCode;
use wf_io::{StdSink, StdSource};
use wf_run_replay::replay;

fn main(rt: HostRuntime) -> ExitCode {
    let mut source = StdSource::new(rt.stdin());
    let mut sink = StdSink::new(rt.stdout());
    let status = replay(rt.alloc(), &mut source, &mut sink);
    let message = status.message();
    if !message.is_empty() {
        let _ = eprintln!(rt; "{message}");
    }
    ExitCode::from(status.code())
}
