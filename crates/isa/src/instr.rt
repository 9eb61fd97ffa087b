//! Instructions.
ghost use Rattle.std.specs.Prelude.{◌≡◌};
ghost use Rattle.isa.specs.Bin.{bin_of, bit_of, of_numbers, un_of};

/// An operation on two words, which are read as numbers with a sign. A comparison gives 1 where it holds, else 0.
#[derive(Clone, Copy, Debug, PartialEq, Eq)]
pub enum BinOp {
    Add,
    Sub,
    Mul,
    Div,
    Rem,
    And,
    Or,
    Xor,
    AndNot,
    ShiftLeft,
    ShiftRight,
    Equal,
    NotEqual,
    Less,
    LessEqual,
    Greater,
    GreaterEqual,
}

/// An operation on one word.
#[derive(Clone, Copy, Debug, PartialEq, Eq)]
pub enum UnOp {
    Negate,
    Complement,
    /// 1 where the word is 0, else 0.
    IsZero,
}

/// Why an operation on two words gives nothing.
#[derive(Clone, Copy, Debug, PartialEq, Eq)]
pub enum BinFault {
    DivideByZero,
    /// The count of a shift, which is below 0.
    ShiftCount(i64),
}

/// What a move tells of a run. The machine does the same for each.
#[derive(Clone, Copy, Debug, PartialEq, Eq)]
pub enum MoveEvent {
    Silent,
    /// A variable is read at b.
    Read,
    /// A variable is written at a.
    Write,
}

/// What a store tells of a run. The machine does the same for each.
#[derive(Clone, Copy, Debug, PartialEq, Eq)]
pub enum StoreEvent {
    Silent,
    /// A variable is written.
    Write,
}

/// Which answer two lists of words are to give.
#[derive(Clone, Copy, Debug, PartialEq, Eq)]
pub enum Sameness {
    Equal,
    Different,
}

/// Where words go between slots and incoming words.
#[derive(Clone, Copy, Debug, PartialEq, Eq)]
pub enum Direction {
    ToSlots,
    FromSlots,
}

/// What an append puts behind a slice's elements.
#[derive(Clone, Copy, Debug, PartialEq, Eq)]
pub enum Added {
    /// The elements in slots.
    Slots,
    /// The elements of a slice.
    Slice,
}

/// An instruction of 16 bytes. Its slots are words of the running frame, counted from the frame's lowest word, 0; they
/// never name the frame's two highest words, the link and the return place. The result goes to slot a. Incoming words
/// are the arguments and results of the running function, which stand after the end of its frame: word 0 is the first
/// argument's, and after the arguments come the results.
///
/// A slice's header is three words: the address of its first element, its length and its capacity. A site is the number of
/// the place in the source where a variable or an array is made; nothing that a run does depends on it.
#[derive(Clone, Copy, Debug, PartialEq, Eq)]
pub enum Instr {
    /// The slot gets this word.
    Const {
        a: u16,
        word: u64,
    },
    /// The n slots from a on get zeros.
    Zero {
        a: u16,
        n: u16,
    },
    /// The n slots from a on get the words of the slots from b on, as through a copy.
    Move {
        event: MoveEvent,
        a: u16,
        b: u16,
        n: u16,
    },
    /// The slot a gets 1 where the n slots from b on have the words of those from c on, as it is wanted, or have others; else 0.
    Same {
        wanted: Sameness,
        a: u16,
        b: u16,
        c: u16,
        n: u16,
    },
    /// The slot a gets what the operation gives of the words of b and c; where it gives nothing, the program panics.
    Bin {
        op: BinOp,
        a: u16,
        b: u16,
        c: u16,
    },
    /// The slot a gets what the operation gives of the word of b.
    Un {
        op: UnOp,
        a: u16,
        b: u16,
    },
    /// Goes on at a place of the same function, counted over all code.
    Jump {
        to: u32,
    },
    /// Goes on there if the slot's word is 0.
    JumpZero {
        a: u16,
        to: u32,
    },
    /// Calls a function. Its arguments stand in the lowest slots, and after them it leaves its results.
    Call {
        func: u32,
    },
    /// The n slots from a on get the incoming words from b on, or these get the words of the slots.
    Incoming {
        direction: Direction,
        a: u16,
        b: u16,
        n: u16,
    },
    /// The n slots from a on get the n words from the address on that lies off after the word of b, as through a copy. Where
    /// that word is 0, the program panics.
    Load {
        a: u16,
        b: u16,
        off: u16,
        n: u16,
    },
    /// The n words from the address on that lies off after the word of a get the n words of the slots from c on, as through
    /// a copy. Where the word of a is 0, the program panics.
    Store {
        event: StoreEvent,
        a: u16,
        off: u16,
        c: u16,
        n: u16,
    },
    /// The slot a gets the address of slot b.
    Address {
        a: u16,
        b: u16,
    },
    /// The slot a gets the address that lies off after the word of b, modulo 2^64. Where that word is 0, the program panics.
    Offset {
        a: u16,
        b: u16,
        off: u16,
    },
    /// The slot a gets the address of an element of w words, modulo 2^64: the one with the index in slot c of an array of len
    /// elements that begins at the word of b. Where that word is 0, or the array has no such element, the program panics.
    Index {
        a: u16,
        b: u16,
        c: u16,
        len: u16,
        w: u16,
    },
    /// The slot a gets the address of an element of w words, modulo 2^64: the one with the index in slot c of the slice whose
    /// header stands in the slots from b on. Where the slice has no such element, the program panics.
    SliceIndex {
        a: u16,
        b: u16,
        c: u16,
        w: u16,
    },
    /// The slots from a on get the header of a part of the slice of elements of w words whose header stands in those from b on:
    /// from the index in slot c up to the one in slot c + 1, with all the capacity behind its beginning. Where the upper index is
    /// not from 0 to the capacity, or else the lower one not from 0 to the upper one, the program panics.
    Slice {
        a: u16,
        b: u16,
        c: u16,
        w: u16,
    },
    /// A variable of the site is born in the n slots from a on, which get zeros.
    Born {
        a: u16,
        n: u16,
        site: u32,
    },
    /// The slot a gets the address of n new words of the heap, all zero.
    Alloc {
        a: u16,
        n: u16,
        site: u32,
    },
    /// The slot a gets the address of a new array on the heap, all zero, which makes the slots from a on the header of a slice
    /// of elements of w words: its length and its capacity stand in a + 1 and a + 2. Where the length is not from 0 to 2^40, or
    /// else the capacity not from the length to 2^40, the program panics.
    Make {
        a: u16,
        w: u16,
        site: u32,
    },
    /// Elements of w words are put behind those of the slice whose header stands in the slots from b on, and the slots from a on
    /// get the header of the longer slice: d elements that stand in the slots from c on, or those of the slice whose header
    /// stands there, and then d is 0. Where the capacity doesn't suffice, the elements move to a new array on the heap, of the
    /// greater of the length that is needed and twice the capacity.
    Append {
        added: Added,
        a: u16,
        b: u16,
        c: u16,
        d: u16,
        w: u16,
        site: u32,
    },
    /// The elements of w words of the slice whose header stands in the slots from c on are copied over those of the slice with
    /// the header from b on, as many as both have, as through a copy. The slot a gets their number.
    Copy {
        a: u16,
        b: u16,
        c: u16,
        w: u16,
    },
    /// Prints the slot's number in decimal.
    PrintInt {
        a: u16,
    },
    /// Prints `true` or `false`; every word but 0 is true.
    PrintBool {
        a: u16,
    },
    /// Prints a string, by its number.
    PrintText {
        text: u32,
    },
    /// Prints a space.
    PrintSpace,
    /// Prints a newline.
    PrintLine,
    /// The slot a gets the number that the next item of the input spells, and the slot a + 1 gets 1; both get 0 where the
    /// item spells none, and where the input has ended.
    ReadInt {
        a: u16,
    },
    /// Returns to the frame above, after the call; from the highest frame the run ends.
    Return,
    /// Ends the run with the slot's number as its status, if that is from 0 to 125; else the program panics.
    Exit {
        a: u16,
    },
    /// The program panics with a string, with the slot's number, or with its truth value.
    PanicText {
        text: u32,
    },
    PanicInt {
        a: u16,
    },
    PanicBool {
        a: u16,
    },
}

/// 1 where it holds, else 0.
#[inline(always)]
pub fn bit(holds: bool) -> u64
    ensures { result ≡ bit_of holds }
{
    if holds { 1 } else { 0 }
}

#[inline(always)]
fn quotient(a: i64, b: i64) -> Result<u64, BinFault>
    ensures { result ≡ of_numbers BinOp.Div a b }
{
    if b == 0 {
        return Err(BinFault::DivideByZero);
    }
    Ok(a.wrapping_div(b).cast_unsigned())
}

#[inline(always)]
fn remainder(a: i64, b: i64) -> Result<u64, BinFault>
    ensures { result ≡ of_numbers BinOp.Rem a b }
{
    if b == 0 {
        return Err(BinFault::DivideByZero);
    }
    Ok(a.wrapping_rem(b).cast_unsigned())
}

#[inline(always)]
fn shifted_left(a: i64, b: i64) -> Result<u64, BinFault>
    ensures { result ≡ of_numbers BinOp.ShiftLeft a b }
{
    if b < 0 {
        return Err(BinFault::ShiftCount(b));
    }
    if b > 63 {
        return Ok(0);
    }
    Ok((a << b).cast_unsigned())
}

#[inline(always)]
fn shifted_right(a: i64, b: i64) -> Result<u64, BinFault>
    ensures { result ≡ of_numbers BinOp.ShiftRight a b }
{
    if b < 0 {
        return Err(BinFault::ShiftCount(b));
    }
    if b > 63 {
        return Ok((a >> 63).cast_unsigned());
    }
    Ok((a >> b).cast_unsigned())
}

/// What an operation on two words gives; sums, differences and products modulo 2^64.
///
/// `DivideByZero` where a quotient or remainder is by 0, `ShiftCount` where a shift is by a count below 0.
#[inline(always)]
pub fn bin(op: BinOp, x: u64, y: u64) -> Result<u64, BinFault>
    ensures { result ≡ bin_of op x y }
{
    let a = x.cast_signed();
    let b = y.cast_signed();
    match op {
        BinOp::Add => Ok(a.wrapping_add(b).cast_unsigned()),
        BinOp::Sub => Ok(a.wrapping_sub(b).cast_unsigned()),
        BinOp::Mul => Ok(a.wrapping_mul(b).cast_unsigned()),
        BinOp::Div => quotient(a, b),
        BinOp::Rem => remainder(a, b),
        BinOp::And => Ok((a & b).cast_unsigned()),
        BinOp::Or => Ok((a | b).cast_unsigned()),
        BinOp::Xor => Ok((a ^ b).cast_unsigned()),
        BinOp::AndNot => Ok((a & !b).cast_unsigned()),
        BinOp::ShiftLeft => shifted_left(a, b),
        BinOp::ShiftRight => shifted_right(a, b),
        BinOp::Equal => Ok(bit(a == b)),
        BinOp::NotEqual => Ok(bit(a != b)),
        BinOp::Less => Ok(bit(a < b)),
        BinOp::LessEqual => Ok(bit(a <= b)),
        BinOp::Greater => Ok(bit(b < a)),
        BinOp::GreaterEqual => Ok(bit(b <= a)),
    }
}

/// What an operation on one word gives; the negative modulo 2^64.
#[inline(always)]
pub fn un(op: UnOp, x: u64) -> u64
    ensures { result ≡ un_of op x }
{
    match op {
        UnOp::Negate => x.cast_signed().wrapping_neg().cast_unsigned(),
        UnOp::Complement => (!x.cast_signed()).cast_unsigned(),
        UnOp::IsZero => bit(x == 0),
    }
}
