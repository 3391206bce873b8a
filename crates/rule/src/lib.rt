//! Rules as rows: operators, rows, the rule that a monitor works on, and the refusals of every call.
#![tactic(auto)]

mod operator;
mod refusal;
mod row;
mod rule;

pub use operator::{BinaryOperator, UnaryOperator};
pub use refusal::{Fault, Layer, Refusal};
pub use row::{Row, count_remembering};
pub use rule::Rule;
