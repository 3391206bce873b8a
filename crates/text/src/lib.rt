//! Rule texts: bytes to tokens to rows.
#![tactic(auto)]

mod cursor;
mod formula;
mod header;
mod reading;
mod span;
mod strip;
mod token;

pub use reading::{MOST_NAMES, MOST_ROWS, read};
pub use span::{Counts, Span};
