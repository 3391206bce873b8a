//! Margins: whole numbers from -30,000, which is no, to 30,000, which is yes.
pub mod scale;

ghost use Rattle.std.specs.Prelude.{◌≡◌, pos, negsuc, ◌≤ℤ◌, MatchResult, Some, ◌++◌, codes};
ghost use Rattle.std.specs.Fmt.{signed_decimal};

use std::error::Error;
use std::fmt;

/// How far a statement holds or fails. No margin lies outside its bounds.
#[derive(Clone, Copy, PartialEq, Eq, PartialOrd, Ord, Debug)]
pub struct Margin {
    level: i16,
    ghost low: { negsuc 29999 ≤ℤ level },
    ghost high: { level ≤ℤ pos 30000 },
}

/// A level that no margin has.
#[derive(Clone, Copy, PartialEq, Eq, Debug)]
pub struct OutOfBounds {
    pub level: i16,
}

impl TryFrom<i16> for Margin {
    type Error = OutOfBounds;

    ghost try_from_gives = { λ level r. MatchResult r (λ u. u.level ≡ level) (λ e. (e.level ≡ level) × (negsuc 29999 ≤ℤ level → level ≤ℤ pos 30000 → ⊥)) };

    fn try_from(level: i16) -> Result<Margin, OutOfBounds> {
        if level < -30_000 || level > 30_000 {
            return Err(OutOfBounds { level });
        }
        Ok(Margin { level })
    }
}

impl Margin {
    pub fn level(self) -> i16
        ensures the_level { result ≡ self.level }
    {
        self.level
    }
}

impl fmt::Display for Margin {
    ghost output = { λ margin. Some (signed_decimal margin.level) };

    fn fmt<W: fmt::Write>(&self, f: &mut fmt::Formatter<W>) -> fmt::Result {
        write!(f, "{}", self.level)
    }
}

impl fmt::Display for OutOfBounds {
    ghost output = { λ e. Some (signed_decimal e.level ++ codes " is not from -30000 to 30000") };

    fn fmt<W: fmt::Write>(&self, f: &mut fmt::Formatter<W>) -> fmt::Result {
        write!(f, "{} is not from -30000 to 30000", self.level)
    }
}

impl Error for OutOfBounds {}
