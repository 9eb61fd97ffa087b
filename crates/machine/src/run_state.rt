//! Where a run stands, and how it ends.
ghost use Rattle.std.specs.Prelude.{◌≡◌, ◌+◌, ◌<◌, ◌^◌, Some, None};

/// Where a run stands: the place of the next instruction, counted over all code, and the index of the frame's lowest word.
#[derive(Clone, Copy, Debug, PartialEq, Eq)]
pub struct RunState {
    pub pc: usize,
    pub base: usize,
}

/// Why a program panics.
#[derive(Clone, Copy, Debug, PartialEq, Eq)]
pub enum Panic {
    DivideByZero,
    /// The count of a shift, which is below 0.
    ShiftCount(i64),
    /// Memory was to be reached by the address 0.
    NilPointer,
    /// An index, and the length of the array or slice that has no such element.
    IndexOutOfRange { index: i64, length: i64 },
    /// The upper bound of a slicing, which is not from 0 to the capacity.
    SliceHigh { high: i64, capacity: i64 },
    /// The lower bound of a slicing, which is not from 0 to the upper one.
    SliceLow { low: i64, high: i64 },
    /// The length of a slice that was to be made, which is not from 0 to 2^40.
    MakeLength(i64),
    /// Its capacity, which is not from 0 to 2^40, or is less than the length.
    MakeCapacity { capacity: i64, length: i64 },
    /// The status of an exit, which is not from 0 to 125.
    ExitCode(i64),
    /// A panic with a string, by its number, with a number, or with a truth value.
    Text(u32),
    Int(i64),
    Bool(bool),
}

/// How a run ends.
#[derive(Clone, Copy, Debug, PartialEq, Eq)]
pub enum Ending {
    /// The program ended by itself, with this status, which is at most 125. As a `u8` it would leave a gap after it that
    /// each step writes.
    Exit(u32),
    /// The program panicked.
    Panic(Panic),
    /// The source failed in a read of the input.
    ReadFault,
    /// The sink failed.
    WriteFault,
    /// A call needed a larger block of words, or an instruction words of the heap, and memory for them was refused.
    NoMemory,
    /// A frame would have passed the limit of the stack: the words in use, those asked for, and the limit.
    StackLimit { used: u64, asked: u64, limit: u64 },
    /// Words would have passed the limit of the heap: those taken, those asked for, and the limit.
    HeapLimit { used: u64, asked: u64, limit: u64 },
    /// An incoming word at this address lies past the end of the stack, or the words from this address on that were to be
    /// reached lie neither in the heap nor in the stack.
    WildAddress(u64),
    /// A return met this return place, and it was not its frame's.
    WildReturn(u64),
    /// A return met this link to the frame above, and it was not its frame's.
    WildLink(u64),
    /// Three words were to be a slice's header, and with this length they are none.
    WildHeader(u64),
}

/// Where a run goes on, or how it ended and where.
#[derive(Clone, Copy, Debug, PartialEq, Eq)]
pub struct Next {
    pub at: RunState,
    pub ending: Option<Ending>,
}

impl Next {
    // The run goes on at a place, with a frame at an index.
    #[inline(always)]
    pub(crate) fn to(pc: usize, base: usize) -> Next
        ensures { result ≡ record { at = record { pc = pc; base = base }; ending = None } }
    {
        Next {
            at: RunState { pc, base },
            ending: None,
        }
    }

    // The run goes on at the next place.
    #[inline(always)]
    pub(crate) fn on(at: RunState) -> Next
        requires { at.pc < 2 ^ 40 }
        ensures { result ≡ record { at = record { pc = at.pc + 1; base = at.base }; ending = None } }
    {
        Next {
            at: RunState {
                pc: at.pc + 1,
                base: at.base,
            },
            ending: None,
        }
    }

    // The program panics at a place.
    #[inline(always)]
    pub(crate) fn panicked(at: RunState, panic: Panic) -> Next
        ensures { result ≡ record { at = at; ending = Some (Ending.Panic panic) } }
    {
        Next::ended(at, Ending::Panic(panic))
    }

    // The run ends at a place.
    #[inline(always)]
    pub(crate) fn ended(at: RunState, ending: Ending) -> Next
        ensures { result ≡ record { at = at; ending = Some ending } }
    {
        Next {
            at,
            ending: Some(ending),
        }
    }
}
