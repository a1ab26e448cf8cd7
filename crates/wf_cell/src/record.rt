//! A record, `Record`: a cell with the entries of its history in memory, for callers that read them after the
//! calls. A cell alone allocates nothing for them. `machine` makes a record a `Machine` too. Only
//! `Record::new` and `Record::of` allocate, for as many entries as the setting `calls`.

mod machine;
mod record;

pub use record::Record;
