//! The naive evaluator: a rule's value at a sample, straight from the definitions, with no memory from sample to sample.
//! It takes time exponential in the depth of a rule, and is what the monitors are run beside in tests.
#![tactic(auto)]

ghost use Rattle.std.specs.Prelude.{◌≡◌, ◌<◌, length};
ghost use Rattle.meaning.specs.Meaning.{value, unary_value, binary_value, join_of, meet_of, up_to, after, always as always_value, since as since_value};
ghost use Rattle.meaning.specs.Spelled.{said};
ghost use Rattle.evaluator.specs.Flat.{flat};

use rule::{BinaryOperator, Row, Rule, UnaryOperator};
use scale::{Scale, TwoWay, firm_value};

/// The formula that one row of a rule spells, over a charge whose readings stand sample after sample.
// One slice of readings and no list of samples: that is how they lie in lent memory.
#[derive(Drop)]
struct Formula<'a, S> {
    rule: &'a Rule<'a>,
    readings: &'a [S],
    row: usize,
    ghost within: { row < length rule.now.rows.now },
}

impl<S: Scale> Formula<'_, S> {
    ghost use Rattle.evaluator.specs.Rows.{signal_value, row_value};

    /// The formula of row a, an operand of this one.
    // That the operand's row comes earlier is what ends the recursion; each rule's rows have it by their type.
    fn operand(&self, a: usize) -> Self
        requires { a < self.now.row }
        ensures same_rule { result.rule.now ≡ self.now.rule.now }
        ensures same_readings { result.readings.now ≡ self.now.readings.now }
        ensures the_row { result.row ≡ a }
    {
        Formula {
            rule: self.rule,
            readings: self.readings,
            row: a,
        }
    }

    /// What signal n reads at sample t, and no past the end of the readings.
    fn reading(&self, t: usize, n: usize) -> S
        ensures at_its_place { S.Scale.means result ≡ signal_value S.Scale.ops S.Scale.means self.now t n }
    {
        t.checked_mul(self.rule.signals())
            .and_then(|first| first.checked_add(n))
            .and_then(|place| self.readings.get(place))
            .copied()
            .unwrap_or(S::no())
    }

    // A loop for each of the four below, and no fold over a step. Tried: a closure in a cycle of calls becomes three more
    // functions of the cycle, each with a contract and a measure to write.

    /// The join of its values at the samples up to t.
    #[cycle(evaluation)]
    fn once(&self, t: usize) -> S
        ensures joined { S.Scale.means result ≡ join_of S.Scale.ops (up_to t) (row_value S.Scale.ops S.Scale.means self.now) }
    {
        let mut all = S::no();
        for k in 0..=t {
            all = self.value_at(k).join(all);
        }
        all
    }

    /// The meet of its values at the samples up to t.
    #[cycle(evaluation)]
    fn always(&self, t: usize) -> S
        ensures met { S.Scale.means result ≡ always_value S.Scale.ops (row_value S.Scale.ops S.Scale.means self.now) t }
    {
        let mut all = S::yes();
        for k in 0..=t {
            all = self.value_at(k).meet(all);
        }
        all
    }

    /// The meet of its values at the samples after k, up to t.
    #[cycle(evaluation)]
    #[tactic(auto, using(crate::proofs::Ranges::after_none))]
    fn always_after(&self, k: usize, t: usize) -> S
        ensures met { S.Scale.means result ≡ meet_of S.Scale.ops (after k t) (row_value S.Scale.ops S.Scale.means self.now) }
    {
        let mut all = S::yes();
        // `k + 1` could overflow, and `j + 1` cannot. Tried: `(k..=t).skip(1)`, where no lemma says what it yields.
        for j in k..t {
            all = self.value_at(j + 1).meet(all);
        }
        all
    }

    /// This formula since the other, at sample t.
    #[cycle(evaluation)]
    fn since(&self, other: &Self, t: usize) -> S
        ensures joined { S.Scale.means result ≡ since_value S.Scale.ops (row_value S.Scale.ops S.Scale.means self.now) (row_value S.Scale.ops S.Scale.means other.now) t }
    {
        let mut all = S::no();
        for k in 0..=t {
            all = other.value_at(k).meet(self.always_after(k, t)).join(all);
        }
        all
    }

    /// Its value at sample t.
    #[cycle(evaluation)]
    #[tactic(auto, using(crate::proofs::Operands::by_operands))]
    fn value_at(&self, t: usize) -> S
        ensures of_the_row { S.Scale.means result ≡ row_value S.Scale.ops S.Scale.means self.now t }
    {
        match self.rule.rows()[self.row] {
            Row::Constant(b) => firm_value(TwoWay::from(b)),
            Row::Signal(n) => self.reading(t, n),
            Row::Unary(operator, a) => self.operand(a).unary(operator, t),
            Row::Binary(operator, a, b) => self.operand(a).binary(operator, &self.operand(b), t),
        }
    }

    /// The operator over this formula, at sample t.
    #[cycle(evaluation)]
    fn unary(&self, operator: UnaryOperator, t: usize) -> S
        ensures by_the_meaning { S.Scale.means result ≡ unary_value S.Scale.ops operator (row_value S.Scale.ops S.Scale.means self.now) t }
    {
        match operator {
            UnaryOperator::Not => self.value_at(t).opposite(),
            UnaryOperator::Yesterday if t == 0 => S::no(),
            UnaryOperator::WeakYesterday if t == 0 => S::yes(),
            UnaryOperator::Yesterday | UnaryOperator::WeakYesterday => self.value_at(t - 1),
            UnaryOperator::Once => self.once(t),
            UnaryOperator::Historically => self.always(t),
        }
    }

    /// The operator over this formula and the other, at sample t.
    #[cycle(evaluation)]
    fn binary(&self, operator: BinaryOperator, other: &Self, t: usize) -> S
        ensures by_the_meaning { S.Scale.means result ≡ binary_value S.Scale.ops operator (row_value S.Scale.ops S.Scale.means self.now) (row_value S.Scale.ops S.Scale.means other.now) t }
    {
        let x = self.value_at(t);
        let y = other.value_at(t);
        match operator {
            BinaryOperator::And => x.meet(y),
            BinaryOperator::Or => x.join(y),
            BinaryOperator::Implies => x.opposite().join(y),
            BinaryOperator::Iff => x.opposite().join(y).meet(y.opposite().join(x)),
            BinaryOperator::Xor => x.meet(y.opposite()).join(x.opposite().meet(y)),
            BinaryOperator::Since => self.since(other, t),
            BinaryOperator::WeakSince => self.since(other, t).join(self.always(t)),
        }
    }
}

/// The rule's value at sample t of a charge whose readings stand sample after sample.
#[tactic(auto, unfolding(crate::specs::Rows::row_value))]
pub fn evaluate<S: Scale>(rule: &Rule, readings: &[S], t: usize) -> S
    ensures by_the_meaning { S.Scale.means result ≡ value S.Scale.ops (said rule.now.rows.now) (flat S.Scale.ops S.Scale.means rule.now.signals readings.now) t }
{
    let last = Formula {
        rule,
        readings,
        row: rule.rows().len() - 1,
    };
    last.value_at(t)
}
