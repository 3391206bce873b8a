//! Charges worked through by hand.
#![tactic(auto)]

mod case;
mod list;

pub use case::{Case, Charge};
pub use list::{worked_case, worked_cases};
