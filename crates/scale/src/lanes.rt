//! Lanes: 64 two-way values in one number, one charge to a bit.
pub mod scale;

ghost use Rattle.std.specs.Prelude.{◌≡◌, decimal, Some};

use std::fmt;

#[derive(Clone, Copy, PartialEq, Eq, Debug)]
pub struct Lanes {
    bits: u64,
}

/// Lane i of the value is bit i of the number.
impl From<u64> for Lanes {
    ghost from_gives = { λ bits value. value.bits ≡ bits };

    fn from(bits: u64) -> Lanes {
        Lanes { bits }
    }
}

impl Lanes {
    pub fn bits(self) -> u64
        ensures the_number { result ≡ self.bits }
    {
        self.bits
    }
}

impl fmt::Display for Lanes {
    ghost output = { λ value. Some (decimal value.bits) };

    fn fmt<W: fmt::Write>(&self, f: &mut fmt::Formatter<W>) -> fmt::Result {
        write!(f, "{}", self.bits)
    }
}
