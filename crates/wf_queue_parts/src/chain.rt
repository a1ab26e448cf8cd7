//! Lists of frames in owned nodes, linked by raw pointers. A push allocates nothing.
//!
//! No other crate uses a pointer, except wf_c, whose handles store a box as `Unboxed`. Twelve small functions
//! here use one; nine of them are proved by hand.

mod chain;
mod node;
mod parcel;
mod run;
mod unboxed;

pub use chain::Chain;
pub use parcel::Parcel;
pub use unboxed::Unboxed;
