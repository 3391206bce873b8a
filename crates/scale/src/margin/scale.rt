//! Margins as a scale.
ghost use Rattle.scale.specs.declared.margin.Margin.{Margin as Measured};
ghost use Rattle.scale.specs.Margins.{margins};
ghost use Rattle.scale.specs.Laws.{margins_laws};

use super::super::Scale;
use super::Margin;

impl Scale for Margin {
    ghost Value = { Measured };

    ghost ops = { margins };

    ghost means = { λ u. u };

    ghost lawful = { margins_laws };

    fn join(self, other: Margin) -> Margin {
        self.max(other)
    }

    fn meet(self, other: Margin) -> Margin {
        self.min(other)
    }

    fn opposite(self) -> Margin {
        Margin { level: -self.level }
    }

    fn yes() -> Margin {
        Margin { level: 30_000 }
    }

    fn no() -> Margin {
        Margin { level: -30_000 }
    }
}
