//! The outside as traits: files that are read whole under a cap, and a sink that takes bytes. Each
//! tells its state: what is held or written, and how often it was loaded or put to and failed. Each trait
//! has a fake in memory, whose bytes contracts can name, and an adapter to the host, which tells no bytes
//! and reads and writes by functions over any reader and any writer.
#![tactic(auto)]

mod faults;
mod files;
mod host_files;
mod host_sink;
mod log;
mod mem_files;
mod mem_sink;
mod sink;
mod streams;

pub use faults::{LoadFault, PutFault};
pub use files::Files;
pub use host_files::HostFiles;
pub use host_sink::HostSink;
pub use mem_files::MemFiles;
pub use mem_sink::MemSink;
pub use sink::Sink;
pub use streams::{read_whole, write_whole};
