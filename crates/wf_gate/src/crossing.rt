//! Compile-time checks: threads may share a `Gate`, and a `Seat` may be sent to another thread, if the
//! machine may be sent to another thread.
use crate::gate::Gate;
use crate::seat::Seat;
use wf_machine::Machine;

fn is_shared<T: Sync>() {}

fn is_sent<T: Send>() {}

fn gate_is_shared<M: Machine + Send + Drop>() {
    is_shared::<Gate<M>>();
}

fn seat_is_sent<M: Machine + Send + Drop>() {
    is_sent::<Seat<M>>();
}
