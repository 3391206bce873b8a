//! A row: one occurrence of a formula, over the rows before it.
ghost use Rattle.std.specs.Prelude.{◌≡◌, count_by, Some};
ghost use Rattle.rule.specs.Rows.{remembering};
ghost use Rattle.rule.specs.Fit.{row_fits};
ghost use Rattle.rule.specs.Symbols.{row_text};

use super::operator::{BinaryOperator, UnaryOperator};
use std::fmt;

/// One occurrence of a formula. An operand is the number of an earlier row, and no pointer to it: rows lie in strips that
/// a recorder lends, which has no heap for a tree.
#[derive(Clone, Copy, Debug, PartialEq, Eq)]
pub enum Row {
    Constant(bool),
    /// The reading of the signal of this number.
    Signal(usize),
    Unary(UnaryOperator, usize),
    Binary(BinaryOperator, usize, usize),
}

impl Row {
    /// Whether the row's value rests on earlier samples, so that a monitor keeps a value for it.
    pub fn remembers(self) -> bool
        ensures by_operator { result ≡ remembering self }
    {
        match self {
            Row::Constant(_) | Row::Signal(_) => false,
            Row::Unary(operator, _) => !matches!(operator, UnaryOperator::Not),
            Row::Binary(operator, _, _) => matches!(
                operator,
                BinaryOperator::Since | BinaryOperator::WeakSince
            ),
        }
    }

    /// Whether the row may be row k of a rule over so many signals.
    pub(crate) fn fits(self, k: usize, signals: usize) -> bool
        ensures by_definition { result ≡ row_fits signals k self }
    {
        match self {
            Row::Constant(_) => true,
            Row::Signal(n) => n < signals,
            Row::Unary(_, a) => a < k,
            Row::Binary(_, a, b) => a < k && b < k,
        }
    }
}

/// How many of the rows remember.
pub fn count_remembering(rows: &[Row]) -> usize
    ensures counts { result ≡ count_by remembering rows.now }
{
    // A loop: with `filter` and `count` here, a rule took 1.7 times as long to take up.
    let mut n = 0;
    for row in rows {
        if row.remembers() {
            n += 1;
        }
    }
    n
}

impl fmt::Display for Row {
    ghost output = { λ row. Some (row_text row) };

    fn fmt<W: fmt::Write>(&self, f: &mut fmt::Formatter<W>) -> fmt::Result {
        match self {
            Row::Constant(true) => write!(f, "const yes"),
            Row::Constant(false) => write!(f, "const no"),
            Row::Signal(n) => write!(f, "signal {n}"),
            Row::Unary(operator, a) => write!(f, "{operator} {a}"),
            Row::Binary(operator, a, b) => write!(f, "{operator} {a} {b}"),
        }
    }
}
