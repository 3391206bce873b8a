//! Two-way: no and yes.
ghost use Rattle.std.specs.Prelude.{◌≡◌, Bool, Some};
ghost use Rattle.scale.specs.TwoWay.{two_way, held, yes_no};
ghost use Rattle.scale.specs.Laws.{two_way_laws};

use super::Scale;
use std::fmt;

/// No is below yes.
#[derive(Clone, Copy, PartialEq, Eq, PartialOrd, Ord, Debug)]
pub enum TwoWay {
    No,
    Yes,
}

impl From<bool> for TwoWay {
    ghost from_gives = { λ b value. held value ≡ b };

    fn from(b: bool) -> TwoWay {
        if b { TwoWay::Yes } else { TwoWay::No }
    }
}

impl fmt::Display for TwoWay {
    ghost output = { λ value. Some (yes_no (held value)) };

    fn fmt<W: fmt::Write>(&self, f: &mut fmt::Formatter<W>) -> fmt::Result {
        f.write_str(match self {
            TwoWay::No => "no",
            TwoWay::Yes => "yes",
        })
    }
}

impl Scale for TwoWay {
    ghost Value = { Bool };

    ghost ops = { two_way };

    ghost means = { held };

    ghost lawful = { two_way_laws };

    // Both by cases: `max` and `min` of the derived order take three times as long.
    fn join(self, other: TwoWay) -> TwoWay {
        match self {
            TwoWay::No => other,
            TwoWay::Yes => TwoWay::Yes,
        }
    }

    fn meet(self, other: TwoWay) -> TwoWay {
        match self {
            TwoWay::No => TwoWay::No,
            TwoWay::Yes => other,
        }
    }

    fn opposite(self) -> TwoWay {
        match self {
            TwoWay::No => TwoWay::Yes,
            TwoWay::Yes => TwoWay::No,
        }
    }

    fn yes() -> TwoWay {
        Self::Yes
    }

    fn no() -> TwoWay {
        Self::No
    }
}
