//! The list of worked cases.
ghost use Rattle.std.specs.Prelude.{◌≡◌, ◌<◌, ◌≤◌, ◌↔◌, map, IsSome, MatchOption};
ghost use Rattle.cases.specs.Examples.{examples, AllHold};
ghost use Rattle.cases.specs.Shown.{shown, nth};

use super::case::{Case, Charge};
use rule::{BinaryOperator, Row, UnaryOperator};
use scale::{Light, TwoWay};

static CASES: [Case; 10] = [
    Case {
        text: "p : Yp",
        rows: &[Row::Signal(0), Row::Unary(UnaryOperator::Yesterday, 0)],
        charge: Charge::OnTwoWay {
            signals: 1,
            letters: &[1, 0],
            verdicts: &[TwoWay::No, TwoWay::Yes],
        },
    },
    Case {
        text: "p : Zp",
        rows: &[Row::Signal(0), Row::Unary(UnaryOperator::WeakYesterday, 0)],
        charge: Charge::OnTwoWay {
            signals: 1,
            letters: &[0, 1, 0],
            verdicts: &[TwoWay::Yes, TwoWay::No, TwoWay::Yes],
        },
    },
    Case {
        text: "p : Op",
        rows: &[Row::Signal(0), Row::Unary(UnaryOperator::Once, 0)],
        charge: Charge::OnTwoWay {
            signals: 1,
            letters: &[0, 1, 0],
            verdicts: &[TwoWay::No, TwoWay::Yes, TwoWay::Yes],
        },
    },
    Case {
        text: "p : Hp",
        rows: &[Row::Signal(0), Row::Unary(UnaryOperator::Historically, 0)],
        charge: Charge::OnTwoWay {
            signals: 1,
            letters: &[1, 0, 1],
            verdicts: &[TwoWay::Yes, TwoWay::No, TwoWay::No],
        },
    },
    Case {
        text: "p q : (p S q)",
        rows: &[
            Row::Signal(0),
            Row::Signal(1),
            Row::Binary(BinaryOperator::Since, 0, 1),
        ],
        charge: Charge::OnTwoWay {
            signals: 2,
            letters: &[2, 1, 0],
            verdicts: &[TwoWay::Yes, TwoWay::Yes, TwoWay::No],
        },
    },
    Case {
        text: "p q : (p W q)",
        rows: &[
            Row::Signal(0),
            Row::Signal(1),
            Row::Binary(BinaryOperator::WeakSince, 0, 1),
        ],
        charge: Charge::OnTwoWay {
            signals: 2,
            letters: &[1, 1, 0, 1],
            verdicts: &[TwoWay::Yes, TwoWay::Yes, TwoWay::No, TwoWay::No],
        },
    },
    Case {
        text: "p : (p | !p)",
        rows: &[
            Row::Signal(0),
            Row::Signal(0),
            Row::Unary(UnaryOperator::Not, 1),
            Row::Binary(BinaryOperator::Or, 0, 2),
        ],
        charge: Charge::OnLights {
            readings: &[Light::Unknown],
            values: &[Light::Unknown],
        },
    },
    Case {
        text: "p : (p -> Yp)",
        rows: &[
            Row::Signal(0),
            Row::Signal(0),
            Row::Unary(UnaryOperator::Yesterday, 1),
            Row::Binary(BinaryOperator::Implies, 0, 2),
        ],
        charge: Charge::OnMargins {
            readings: &[5],
            values: &[-5],
        },
    },
    Case {
        text: "hot door stamp : (stamp -> (!door S hot))",
        rows: &[
            Row::Signal(2),
            Row::Signal(1),
            Row::Unary(UnaryOperator::Not, 1),
            Row::Signal(0),
            Row::Binary(BinaryOperator::Since, 2, 3),
            Row::Binary(BinaryOperator::Implies, 0, 4),
        ],
        charge: Charge::OnTwoWay {
            signals: 3,
            letters: &[4, 1, 4, 2, 4],
            verdicts: &[
                TwoWay::No,
                TwoWay::Yes,
                TwoWay::Yes,
                TwoWay::Yes,
                TwoWay::No,
            ],
        },
    },
    Case {
        text: "p : Op",
        rows: &[Row::Signal(0), Row::Unary(UnaryOperator::Once, 0)],
        charge: Charge::OnLanes {
            readings: &[5, 2],
            values: &[5, 7],
        },
    },
];

/// The worked cases, in the order in which they are listed.
#[tactic(auto, using(crate::proofs::Holding::all_hold))]
pub fn worked_cases() -> &'static [Case]
    ensures the_cases { map shown result.now ≡ examples }
    ensures all_hold { AllHold }
{
    &CASES
}

/// Case k of the list, counted from 0.
pub fn worked_case(k: usize) -> Option<Case>
    ensures the_case { MatchOption result (10 ≤ k) (λ c. shown c ≡ nth k) }
    ensures in_the_list { IsSome result ↔ (k < 10) }
    ensures all_hold { AllHold }
{
    worked_cases().get(k).copied()
}
