//! Bases of numbers.

/// The base of an integer literal, or of the digits of an escape.
#[derive(Clone, Copy, Debug, PartialEq, Eq)]
pub enum Base {
    Binary,
    Octal,
    Decimal,
    Hexadecimal,
}

impl Base {
    ghost use Rattle.std.specs.Prelude.{◌≡◌, ◌≤◌};
    ghost use Rattle.scan_go.specs.Numbers.{radix, writing_radix};

    pub fn radix(self) -> u32
        ensures value { result ≡ radix self }
        ensures least { 2 ≤ result }
        ensures most { result ≤ 16 }
    {
        match self {
            Base::Binary => 2,
            Base::Octal => 8,
            Base::Decimal => 10,
            Base::Hexadecimal => 16,
        }
    }

    /// The radix of the digits that a literal of this base is written with, where it need not be a good one.
    pub fn writing_radix(self) -> u32
        ensures value { result ≡ writing_radix self }
        ensures least { 2 ≤ result }
        ensures most { result ≤ 16 }
    {
        match self {
            Base::Hexadecimal => 16,
            _ => 10,
        }
    }
}
