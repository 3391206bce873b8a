//! The worked cases as text.
#![tactic(auto)]

mod line;
mod listing;

pub use listing::list_cases;
