//! A worked case: a rule, a charge, and the verdicts that it should have.
use rule::Row;
use scale::{Light, TwoWay};

/// The samples of a charge on one of the scales, and the rule's value at each. On the other three there is one signal.
// A list of readings and one of values, as they are written; numbers on lanes and margins, since a static calls no `From`.
#[derive(Clone, Copy, Debug)]
pub enum Charge {
    OnTwoWay {
        signals: usize,
        /// A sample each: bit n is signal n.
        letters: &'static [u64],
        verdicts: &'static [TwoWay],
    },
    OnLights {
        readings: &'static [Light],
        values: &'static [Light],
    },
    OnLanes {
        readings: &'static [u64],
        values: &'static [u64],
    },
    OnMargins {
        readings: &'static [i16],
        values: &'static [i16],
    },
}

/// A rule and a charge, with what comes out.
#[derive(Clone, Copy, Debug)]
pub struct Case {
    /// The rule as it is written.
    pub text: &'static str,
    /// The rows that reading it lays.
    pub rows: &'static [Row],
    pub charge: Charge,
}
