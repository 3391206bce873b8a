//! Lights: no, unknown and yes, for charges whose probes may fail.
ghost use Rattle.std.specs.Prelude.{Some};
ghost use Rattle.scale.specs.declared.light.Light.{Light as Shown};
ghost use Rattle.scale.specs.Lights.{lights, light_word};
ghost use Rattle.scale.specs.Laws.{lights_laws};

use super::Scale;
use std::fmt;

/// Unknown stands between no and yes.
#[derive(Clone, Copy, PartialEq, Eq, PartialOrd, Ord, Debug)]
pub enum Light {
    No,
    Unknown,
    Yes,
}

impl fmt::Display for Light {
    ghost output = { λ light. Some (light_word light) };

    fn fmt<W: fmt::Write>(&self, f: &mut fmt::Formatter<W>) -> fmt::Result {
        f.write_str(match self {
            Light::No => "no",
            Light::Unknown => "unknown",
            Light::Yes => "yes",
        })
    }
}

impl Scale for Light {
    ghost Value = { Shown };

    ghost ops = { lights };

    ghost means = { λ u. u };

    ghost lawful = { lights_laws };

    fn join(self, other: Light) -> Light {
        self.max(other)
    }

    fn meet(self, other: Light) -> Light {
        self.min(other)
    }

    fn opposite(self) -> Light {
        match self {
            Light::No => Light::Yes,
            Light::Unknown => Light::Unknown,
            Light::Yes => Light::No,
        }
    }

    fn yes() -> Light {
        Self::Yes
    }

    fn no() -> Light {
        Self::No
    }
}
