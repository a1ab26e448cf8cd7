//! Parcels and chains may be sent to another thread.

use std::alloc::AllocError;
use std::marker::Send;
use wf_frame::Frame;
use wf_queue_parts::chain::{Chain, Parcel};

// Accepts only values that may be sent to another thread.
fn crosses<T: Send>(_value: &T) {}

#[test]
fn parcels_and_chains_cross_threads(rt: HostRuntime) -> Result<(), AllocError> {
    let frame = Frame::sample(rt.alloc(), 1, 0, 7, 40)?;
    let parcel = Parcel::new(rt.alloc(), frame).map_err(|refused| refused.0)?;
    crosses(&parcel);
    let mut chain = Chain::new();
    chain.push_back(parcel);
    crosses(&chain);
    Ok(())
}
