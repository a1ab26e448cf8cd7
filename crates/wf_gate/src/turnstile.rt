//! A hook around each call of a worker at a gate, with which a test can order the threads' calls.

/// Is called before and after each call of a worker at a gate.
pub trait Turnstile {
    /// Is called before worker number `worker` makes a call.
    fn before(&self, worker: u32);

    /// Is called after worker number `worker` has made its call.
    fn after(&self, worker: u32);
}

/// A turnstile that does nothing.
#[derive(Clone, Copy, Debug, PartialEq, Eq)]
pub struct Free;

impl Turnstile for Free {
    fn before(&self, worker: u32) {
        let _ = worker;
    }

    fn after(&self, worker: u32) {
        let _ = worker;
    }
}
