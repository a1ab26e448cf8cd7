//! The words that the other definitions share: tables, lists and sets of unbounded whole numbers
//! (specs/Table, specs/Lists), the greatest length of a frame (specs/Lengths), and the bounds on calls
//! (specs/Bounds).
//!
//! This crate contains no code. For example, `at d t k` is the value of table t at k, and `put d t k v` is
//! the table with the value v at k.
#![tactic(auto)]
