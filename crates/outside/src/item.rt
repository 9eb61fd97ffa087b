//! An item as it is read.
ghost use Rattle.std.specs.Prelude.{◌≡◌, ◌≤◌, ◌^◌, true};
ghost use Rattle.outside.specs.Items.{is_separator};

/// What is known of the bytes of an item so far.
#[derive(Clone, Copy)]
pub(crate) struct Item {
    /// Whether it has a byte.
    pub any: bool,
    pub negative: bool,
    /// Whether it has a digit.
    pub digits: bool,
    /// Whether it is digits alone, after a minus or without one, and their value is at most 2^63.
    pub good: bool,
    pub value: u64,
}

/// Whether the byte separates items.
pub(crate) fn is_separator(b: u8) -> bool
    ensures { result ≡ is_separator b }
{
    b == b' ' || b == b'\t' || b == b'\r' || b == b'\n'
}

impl Item {
    ghost use Rattle.outside.specs.ItemSoFar.{start, push, number_so_far};

    pub fn new() -> Item
        ensures { result ≡ start }
    {
        Item {
            any: false,
            negative: false,
            digits: false,
            good: true,
            value: 0,
        }
    }

    /// The item with one more byte.
    pub fn pushed(self, b: u8) -> Item
        requires { self.value ≤ 2 ^ 63 }
        ensures push { result ≡ push self b }
        ensures small { result.value ≤ 2 ^ 63 }
        ensures any { result.any ≡ true }
    {
        if !self.any && b == b'-' {
            return Item {
                any: true,
                negative: true,
                digits: false,
                good: true,
                value: 0,
            };
        }
        if b.is_ascii_digit() {
            let digit = u64::from(b - b'0');
            if self.value <= ((1 << 63) - digit) / 10 {
                return Item {
                    any: true,
                    negative: self.negative,
                    digits: true,
                    good: self.good,
                    value: 10 * self.value + digit,
                };
            }
        }
        Item {
            any: true,
            negative: self.negative,
            digits: self.digits,
            good: false,
            value: self.value,
        }
    }

    /// The number that the item is, if it is one.
    pub fn number(self) -> Option<i64>
        requires { self.value ≤ 2 ^ 63 }
        ensures { result ≡ number_so_far self }
    {
        if !self.good || !self.digits {
            return None;
        }
        if self.value < 1 << 63 {
            let n = self.value as i64;
            return Some(if self.negative { -n } else { n });
        }
        if self.negative {
            return Some(i64::MIN);
        }
        None
    }
}
