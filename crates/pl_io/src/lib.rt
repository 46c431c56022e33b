//! What comes in and goes out: files that are read, sinks that are written, and the two loops that read
//! a file to its end and write bytes to theirs.
//!
//! An object of the outside is known by two things that it tells: bytes, where it tells them, and a
//! count of its faults. What is promised: bytes that come are those that are told, bytes that go are
//! appended in order, and no call says that it failed unless the object's own count rose.
#![tactic(auto)]

mod mem_files;
mod mem_sink;
mod outside;
mod real;
mod whole;

pub use mem_files::MemFiles;
pub use mem_sink::MemSink;
pub use outside::{Failed, Files, Sink};
pub use real::{RealFiles, RealSink};
pub use whole::{ReadFault, WriteFault, read_all, write_all};
