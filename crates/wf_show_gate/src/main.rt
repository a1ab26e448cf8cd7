//! Shows a gate before a machine that is not a cell: a counter of octets.
//!
//! Without arguments two seats make calls, and the program prints their replies. `wf_show_gate gate N` makes
//! N calls through a gate that nobody else uses, and `wf_show_gate bare N` makes the same calls directly to
//! the machine: both print the last sum. `wf_show_gate gate N T` makes N calls in each of T threads, with a
//! seat for each, and prints the sum of their last sums; `wf_show_gate burst N T` makes them in bursts of 16.
#![tactic(auto)]

mod counter;
mod crowd;
mod runs;
mod seats;

use anyhow::{Result, bail};
use crowd::Way;
use std::env;

const USAGE: &str = "usage: wf_show_gate [gate CALLS [THREADS] | burst CALLS THREADS | bare CALLS]";

fn main(rt: HostRuntime) -> Result<()> {
    let words: Vec<String> = env::args(&rt)?.skip(1).collect(rt.alloc())?;
    if words.is_empty() {
        let lines = seats::show(&rt, rt.alloc())?;
        print!(rt; "{lines}")?;
        return Ok(());
    }
    let sum = match words.as_slice() {
        [way, calls] if way.as_str() == "gate" => runs::gated(&rt, rt.alloc(), calls.parse()?)?,
        [way, calls] if way.as_str() == "bare" => runs::bare(calls.parse()?),
        [way, calls, threads] if way.as_str() == "gate" => {
            crowd::crowded(
                &rt,
                rt.alloc(),
                Way::Single,
                threads.parse()?,
                calls.parse()?,
            )?
        }
        [way, calls, threads] if way.as_str() == "burst" => {
            crowd::crowded(
                &rt,
                rt.alloc(),
                Way::Burst,
                threads.parse()?,
                calls.parse()?,
            )?
        }
        _ => bail!(USAGE),
    };
    println!(rt; "{sum}")?;
    Ok(())
}
