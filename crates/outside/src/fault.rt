//! The faults of the outside.

use thiserror::Error;

/// A device failed.
#[derive(Clone, Copy, Debug, PartialEq, Eq, Error)]
#[error("the device failed")]
pub struct Failed;

/// Why a file was not read or written.
#[derive(Clone, Copy, Debug, PartialEq, Eq, Error)]
pub enum FileFault {
    /// The file is missing, unreadable or too long, or can't be written.
    #[error("the file can't be read or written")]
    Failed,
    #[error("no memory")]
    NoMemory,
}

/// A piece was not taken as a whole.
#[derive(Clone, Copy, Debug, PartialEq, Eq, Error)]
#[error("write fault after {gone} bytes")]
pub struct WriteFault {
    /// How many bytes of the piece were taken.
    pub gone: u64,
}

/// The source failed. The bytes that were read of the item are gone.
#[derive(Clone, Copy, Debug, PartialEq, Eq, Error)]
#[error("read fault")]
pub struct ReadFault;
