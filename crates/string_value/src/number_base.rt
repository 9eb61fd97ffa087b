//! Bases of numbers.

/// The base of an escape's digits.
#[derive(Clone, Copy, Debug, PartialEq, Eq)]
pub enum Base {
    Octal,
    Hexadecimal,
}

impl Base {
    ghost use Rattle.std.specs.Prelude.{◌≡◌, ◌≤◌};
    ghost use Rattle.string_value.specs.Digits.{radix};

    pub fn radix(self) -> u32
        ensures value { result ≡ radix self }
        ensures least { 2 ≤ result }
        ensures most { result ≤ 16 }
    {
        match self {
            Base::Octal => 8,
            Base::Hexadecimal => 16,
        }
    }
}
