//! Scales of truth: what a scale is, and the four that the recorder has.
#![tactic(auto)]

mod lanes;
mod light;
mod margin;
mod translate;
mod two_way;

ghost use Rattle.std.specs.Prelude.{◌≡◌};
ghost use Rattle.scale.specs.Algebra.{Algebra, Laws};

pub use lanes::Lanes;
pub use light::Light;
pub use margin::{Margin, OutOfBounds};
pub use translate::{firm_value, lane_of};
pub use two_way::TwoWay;

/// A scale of truth. Each operation answers a value decided by the values it takes, and refuses nothing.
// On an ordered scale join is the greater and meet the lesser. Each such scale says so itself: a blanket impl would be
// that of lanes too, which are not ordered.
pub trait Scale: Copy {
    /// The values that stored ones mean.
    ghost Value: { Type 0 };

    /// The five operations on them.
    ghost ops: { Algebra Value };

    /// Which value a stored one means.
    ghost means: { Self → Value };

    fn join(self, other: Self) -> Self
        ensures joined { means result ≡ ops.join (means self) (means other) };

    fn meet(self, other: Self) -> Self
        ensures met { means result ≡ ops.meet (means self) (means other) };

    fn opposite(self) -> Self
        ensures turned { means result ≡ ops.opposite (means self) };

    fn yes() -> Self
        ensures is_yes { means result ≡ ops.yes };

    fn no() -> Self
        ensures is_no { means result ≡ ops.no };

    ghost lawful: { Laws ops };
}
