//! Bytes from outside and to outside: a source and a sink, modelled on std's `Read` and `Write`.
//!
//! A source or a sink may tell its bytes, and counts its faults. The traits say what each call
//! does to both. Beside them stand ones in memory for tests, adapters of std's readers and
//! writers, and loops that read or write everything.
#![tactic(auto)]

mod memory_sink;
mod memory_source;
mod read_whole;
mod sink;
mod source;
mod std_edge;
mod write_whole;

pub use evac_model::{ByteList, Failed, NumberList, OutOfMemory};
pub use memory_sink::{MemSink, SureSink};
pub use memory_source::{MemSource, SureSource};
pub use read_whole::{ReadAllFault, read_all};
pub use sink::Sink;
pub use source::Source;
pub use std_edge::{StdSink, StdSource};
pub use write_whole::write_all;
