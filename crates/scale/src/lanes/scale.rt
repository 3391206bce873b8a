//! Lanes as a scale: every operation works lane by lane.
ghost use Rattle.std.specs.Prelude.{Bool};
ghost use Rattle.scale.specs.Lanes.{Lane, lanes as all_lanes, lane_of};
ghost use Rattle.scale.specs.Laws.{lanes_laws};

use super::super::Scale;
use super::Lanes;

impl Scale for Lanes {
    ghost Value = { Lane → Bool };

    ghost ops = { all_lanes };

    ghost means = { lane_of };

    ghost lawful = { lanes_laws };

    fn join(self, other: Lanes) -> Lanes {
        Lanes {
            bits: self.bits | other.bits,
        }
    }

    fn meet(self, other: Lanes) -> Lanes {
        Lanes {
            bits: self.bits & other.bits,
        }
    }

    fn opposite(self) -> Lanes {
        Lanes { bits: !self.bits }
    }

    fn yes() -> Lanes {
        Lanes { bits: u64::MAX }
    }

    fn no() -> Lanes {
        Lanes { bits: 0 }
    }
}
