//! The operators of the logic, and how they are written. docs/LANGUAGE.md says what each means.
ghost use Rattle.std.specs.Prelude.{Some};
ghost use Rattle.rule.specs.Symbols.{unary_bytes, binary_bytes};

use std::fmt;

/// The operators over one row.
#[derive(Clone, Copy, Debug, PartialEq, Eq)]
pub enum UnaryOperator {
    /// `!`
    Not,
    /// `Y`: yesterday, no at the first sample.
    Yesterday,
    /// `Z`: weak yesterday, yes at the first sample.
    WeakYesterday,
    /// `O`
    Once,
    /// `H`
    Historically,
}

/// The operators over two rows.
#[derive(Clone, Copy, Debug, PartialEq, Eq)]
pub enum BinaryOperator {
    /// `&`
    And,
    /// `|`
    Or,
    /// `->`
    Implies,
    /// `<->`
    Iff,
    /// `^`
    Xor,
    /// `S`
    Since,
    /// `W`: since, or always so far.
    WeakSince,
}

impl fmt::Display for UnaryOperator {
    ghost output = { λ operator. Some (unary_bytes operator) };

    fn fmt<W: fmt::Write>(&self, f: &mut fmt::Formatter<W>) -> fmt::Result {
        f.write_str(match self {
            UnaryOperator::Not => "!",
            UnaryOperator::Yesterday => "Y",
            UnaryOperator::WeakYesterday => "Z",
            UnaryOperator::Once => "O",
            UnaryOperator::Historically => "H",
        })
    }
}

impl fmt::Display for BinaryOperator {
    ghost output = { λ operator. Some (binary_bytes operator) };

    fn fmt<W: fmt::Write>(&self, f: &mut fmt::Formatter<W>) -> fmt::Result {
        f.write_str(match self {
            BinaryOperator::And => "&",
            BinaryOperator::Or => "|",
            BinaryOperator::Implies => "->",
            BinaryOperator::Iff => "<->",
            BinaryOperator::Xor => "^",
            BinaryOperator::Since => "S",
            BinaryOperator::WeakSince => "W",
        })
    }
}
