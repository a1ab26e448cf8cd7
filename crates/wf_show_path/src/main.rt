//! A small program over a path and a peer; docs/USING.md describes it, and shows what it writes.
#![tactic(auto)]

use anyhow::{Result, bail, ensure};
use std::alloc::Global;
use wf_frame::{Answer, Brief, Class, Config, Frame, Ids, Limits};
use wf_octets::header::{GREATEST_MPDU, base_address, station_address};
use wf_octets::seq12::Seq12;
use wf_path::{Path, PathAsk, PathJob};
use wf_queue_parts::chain::Parcel;
use wf_recv_peer::Peer;

/// The station, the TID of its frames, its window, and the sequence number of its first frame.
const STATION: u16 = 3;

const TID: u8 = 5;

const WINDOW: u16 = 64;

const START: u16 = 100;

const JOIN: PathAsk = PathAsk::Join {
    station: STATION,
    window: WINDOW,
    start: START,
    exponent: 3,
    weight: 1,
};

/// The access point's path, the answer to its last call, and the receive half of its station.
#[derive(Drop)]
struct Air {
    path: Path,
    answer: Answer,
    station: Peer,
}

impl Air {
    fn new(alloc: Global) -> Result<Air> {
        let mut station = Peer::new(alloc, station_address(STATION), base_address())?;
        station.reset(Seq12::of(u64::from(START)), WINDOW);
        Ok(Air {
            path: Path::new(alloc, Config::standard())?,
            answer: Answer::new(),
            station,
        })
    }

    /// Makes a call of the path, and prints the answer. Returns the frame that was refused or reaped, if any.
    fn call(&mut self, rt: &HostRuntime, job: PathJob) -> Result<Option<Parcel>> {
        ensure!(self.path.has_small_counts(), "the path ran for too long");
        let back = self.path.call(job, &mut self.answer);
        println!(rt; "{:?}", self.answer.brief)?;
        Ok(back)
    }

    /// Enqueues a frame for the station.
    fn enqueue(&mut self, rt: &HostRuntime, flow: u32) -> Result<()> {
        let frame = Frame::sample(rt.alloc(), STATION, TID, flow, 4)?;
        let Ok(parcel) = Parcel::new(rt.alloc(), frame) else {
            bail!("out of memory");
        };
        let _ = self.call(rt, PathJob::Give(parcel))?;
        Ok(())
    }

    /// Pulls an exchange, loses the transmission with the index `lost`, and ends it by the station's
    /// BlockAck.
    fn exchange(&mut self, rt: &HostRuntime, lost: Option<u16>) -> Result<()> {
        let _ = self.call(rt, PathJob::Pull(Class::Vi, Limits::NONE))?;
        let Brief::Send { exchange, .. } = self.answer.brief else {
            bail!("nothing to send");
        };
        let count = self.path.sent(exchange).map_or(0, |sent| sent.count);
        for index in 0..count {
            self.transmit(rt, exchange, index, lost == Some(index))?;
        }
        self.hear(rt, exchange)
    }

    /// Writes the octets of a transmission, and passes them to the station unless they are lost.
    fn transmit(&mut self, rt: &HostRuntime, exchange: u64, index: u16, lost: bool) -> Result<()> {
        let mut buffer = [0; GREATEST_MPDU];
        let size = self.path.mpdu(exchange, index, &mut buffer)?;
        let octets = &buffer[..size];
        show(rt, if lost { "lost" } else { "sent" }, octets)?;
        if !lost {
            let id = self.path.frame_id(exchange, index).unwrap_or(0);
            let mut up = Ids::new();
            let _ = self.station.receive(octets, id, &mut up)?;
            println!(rt; "the station passes up {} frames", up.len())?;
        }
        Ok(())
    }

    /// Ends the exchange by the octets of the station's BlockAck.
    fn hear(&mut self, rt: &HostRuntime, exchange: u64) -> Result<()> {
        let mut buffer = [0; 52];
        let size = self.station.answer(TID, &mut buffer);
        let octets = buffer.get(..size).unwrap_or(&[]);
        show(rt, "heard", octets)?;
        ensure!(self.path.has_small_counts(), "the path ran for too long");
        let brief = self.path.done_bytes(exchange, Some(octets), None)?;
        println!(rt; "{brief:?}")?;
        Ok(())
    }

    /// The station joins and gets three frames, the second of them on its second transmission; then all three
    /// are reaped.
    fn play(&mut self, rt: &HostRuntime) -> Result<()> {
        let _ = self.call(rt, PathJob::Call(JOIN))?;
        for flow in 0..3 {
            self.enqueue(rt, flow)?;
        }
        self.exchange(rt, Some(1))?;
        self.exchange(rt, None)?;
        for _ in 0..3 {
            let _ = self.call(rt, PathJob::Reap)?;
        }
        Ok(())
    }
}

/// Prints octets in hexadecimal.
fn show(rt: &HostRuntime, word: &str, octets: &[u8]) -> Result<()> {
    print!(rt; "{word} ")?;
    for octet in octets {
        print!(rt; "{octet:02x}")?;
    }
    println!(rt)?;
    Ok(())
}

fn main(rt: HostRuntime) -> Result<()> {
    let mut air = Air::new(rt.alloc())?;
    air.play(&rt)
}
