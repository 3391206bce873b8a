//! Translations from scale to scale, which keep all five operations.
ghost use Rattle.std.specs.Prelude.{◌≡◌, ◌≤◌, MatchOption};
ghost use Rattle.scale.specs.Algebra.{Translation};
ghost use Rattle.scale.specs.TwoWay.{two_way, held};
ghost use Rattle.scale.specs.Translations.{firm, OneLane};

use super::{Lanes, Scale, TwoWay};

/// No or yes on another scale.
pub fn firm_value<S: Scale>(value: TwoWay) -> S
    ensures no_or_yes { S.Scale.means result ≡ firm S.Scale.ops (held value) }
    ensures a_translation { Translation two_way S.Scale.ops (firm S.Scale.ops) }
{
    match value {
        TwoWay::No => S::no(),
        TwoWay::Yes => S::yes(),
    }
}

/// Lane i of a value, for i below 64.
pub fn lane_of(value: Lanes, i: usize) -> Option<TwoWay>
    ensures the_lane { MatchOption result (64 ≤ i) (λ v. OneLane value i v) }
{
    if i >= 64 {
        return None;
    }
    Some(TwoWay::from((value.bits() >> i) & 1 == 1))
}
