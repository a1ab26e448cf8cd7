//! Tests that only a proved program can have: threads that call through a gate, and values that may be sent
//! to another thread. For example, `two_threads` makes eight calls in each of two threads. They are in this
//! crate, and not in those that they test, so that no function of those is proved twice. All other rows of
//! tests are texts in checks/, and run unproved.
#![tactic(auto)]

#[cfg(test)]
mod alike;
#[cfg(test)]
mod chains;
#[cfg(test)]
mod gates;
