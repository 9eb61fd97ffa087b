//! What a call of the program comes to.
ghost use Rattle.std.specs.Prelude.{◌≡◌};
ghost use Rattle.gostk.specs.Answer.{status_of};

use crate::refusal::Refusal;
use limits::LimitFault;

/// Why a program panicked.
#[derive(Debug, Drop)]
pub enum Reason {
    DivideByZero,
    /// A pointer that is nil was followed.
    NilPointer,
    /// The count of a shift, which is below 0.
    ShiftCount(i64),
    /// An index, and the length of what has no such element.
    IndexOutOfRange { index: i64, length: i64 },
    /// The upper bound of a slicing and the capacity, or the lower bound and the upper one, between which it doesn't lie.
    SliceHigh { high: i64, capacity: i64 },
    SliceLow { low: i64, high: i64 },
    /// The length of a slice that can't be made, or its capacity and its length.
    MakeLength(i64),
    MakeCapacity { capacity: i64, length: i64 },
    /// The status of an exit, which is not from 0 to 125.
    ExitCode(i64),
    /// The bytes of a string, a number, or a truth value.
    Text(Vec<u8>),
    Int(i64),
    Bool(bool),
}

/// What a call of the program comes to, a case for each row of the table of answers.
#[derive(Debug, Drop)]
pub enum Answer<'a> {
    /// The text was accepted, and its program ended with this status.
    Ended(u8),
    /// The text was accepted, and its program panicked.
    Panicked(Reason),
    /// The words are no command, or ask for help: the text to show.
    Usage(String),
    /// The numbers of the options are no limits.
    Limits(LimitFault),
    /// The file that is to run is not source.
    SourceOnly,
    /// The text of the file is refused.
    Refused { file: &'a str, refusal: Refusal },
    /// The file was not read, or the input failed where the program asked for an item.
    ReadFault,
    /// The output was not written.
    WriteFault,
    /// The program had not ended after this number of instructions.
    Steps(u64),
    /// A call would have passed the limit of the stack: the words in use, those asked for, and the limit.
    StackLimit { used: u64, asked: u64, limit: u64 },
    /// Words would have passed the limit of the heap: those taken, those asked for, and the limit.
    HeapLimit { used: u64, asked: u64, limit: u64 },
    /// Memory was refused.
    NoMemory,
}

impl Answer<'_> {
    /// The exit status.
    pub fn status(&self) -> u8
        ensures { result ≡ status_of self.now }
    {
        match self {
            Answer::Ended(status) => *status,
            Answer::Panicked(_) => 2,
            Answer::Usage(_) | Answer::Limits(_) | Answer::SourceOnly => 200,
            Answer::Refused { .. } => 201,
            Answer::ReadFault => 203,
            Answer::WriteFault => 204,
            Answer::Steps(_) => 205,
            Answer::HeapLimit { .. } => 206,
            Answer::StackLimit { .. } => 207,
            Answer::NoMemory => 209,
        }
    }
}
