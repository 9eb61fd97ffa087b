//! Objects in memory: those that fail at listed calls, and those that never fail.

mod clean;
mod clean_files;
mod copying;
mod entries;
mod listed;
mod listed_files;

pub use clean::{CleanSink, CleanSource};
pub use clean_files::CleanFiles;
pub use listed::{MemSink, MemSource};
pub use listed_files::MemFiles;
