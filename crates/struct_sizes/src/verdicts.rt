//! What is found of structs and types.

/// What is wrong with a number of words.
#[derive(Clone, Copy, Debug, PartialEq, Eq)]
pub enum SizeFault {
    ZeroSize,
    TooLarge,
}

/// What is told of a struct.
#[derive(Clone, Copy, Debug, PartialEq, Eq)]
pub enum StructFault {
    HoldsItself,
    Size(SizeFault),
}

/// What is said of a struct that is refused: what is told of it, if anything is; and whether each struct at fault that it mentions, in
/// any number of steps, mentions it in turn, so that nothing else has to be mended before it. Then an array of its fields that fails
/// is to be told where it stands, also if its element is refused.
#[derive(Clone, Copy, Debug, PartialEq, Eq)]
pub struct Refusal {
    pub told: Option<StructFault>,
    pub is_source: bool,
}

/// A struct has its words, or is refused.
#[derive(Clone, Copy, Debug, PartialEq, Eq)]
pub enum Verdict {
    Sized(u32),
    Refused(Refusal),
}

/// What is wrong with an array: the place of its prefix in its type, and its size.
#[derive(Clone, Copy, Debug, PartialEq, Eq)]
pub struct LevelFault {
    pub level: usize,
    pub kind: SizeFault,
}

/// Why a type is refused: its base is a refused struct, or an array in it has no such size.
#[derive(Clone, Copy, Debug, PartialEq, Eq)]
pub enum TypeRefusal {
    Base,
    Level(LevelFault),
}

/// What is found of all structs, by their numbers: their words, where they're known, up to one more than the limit; and whether they
/// are refused.
#[derive(Drop)]
pub struct Verdicts {
    pub words: Vec<Option<u32>>,
    pub verdicts: Vec<Verdict>,
}
