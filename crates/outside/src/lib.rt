//! The outside as the program sees it: sources that give bytes, sinks that take them, and files by their paths.
//!
//! Each object has a written meaning, its ghost members: the bytes a source has left, the bytes a sink has taken and
//! their number, what stands under each path of files. An object may tell this or keep silent about it; the objects in
//! memory tell all, the adapters of real devices tell nothing. Beside it each object counts its faults (files list the
//! calls that failed, with their paths). The count never falls, and a call answers a fault only where the count rose in
//! that very call. So a caller who hands an object in can see from the object itself whether a reported fault is true,
//! and what came before it.
//!
//! Whole numbers come from a source through a reader with a buffer. What it answers is said of the bytes that are still
//! to come, those in the buffer among them: the first item between separators, if it is a number of 64 bits.
//!
//! A device may take less than it is given. The `put_` calls write a whole piece over any sink, and say after a fault
//! exactly how much of it went out.
#![tactic(auto)]

mod disk;
mod fault;
mod files;
mod item;
mod line;
mod memory;
mod put;
mod reader;
mod sink;
mod source;
mod standard;

pub use disk::DiskFiles;
pub use fault::{Failed, FileFault, ReadFault, WriteFault};
pub use files::{Files, MAX_FILE_LEN};
pub use line::{LinePart, put_line};
pub use memory::{CleanFiles, CleanSink, CleanSource, MemFiles, MemSink, MemSource};
pub use put::{put_bool, put_bytes, put_int, put_number};
pub use reader::IntReader;
pub use sink::Sink;
pub use source::Source;
pub use standard::{StdSink, StdSource};
