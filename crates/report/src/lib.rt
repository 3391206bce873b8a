//! The texts that the tools print, made by functions on values.
#![tactic(auto)]

mod excerpt;
mod listing;
mod read_text;
mod refused;
mod told;
mod usage;
mod visible;

pub use read_text::ReadText;
pub use told::{check_text, list_rows};
pub use usage::{HELP, WRONG_USAGE};
