//! The listing of the worked cases.
ghost use Rattle.std.specs.Prelude.{◌≡◌, IfOk, string_bytes};
ghost use Rattle.case_report.specs.Lines.{case_lines};

use super::line::push_case_line;
use cases::worked_cases;
use std::alloc::{AllocError, Global};

/// The worked cases, one a line, numbered from 1: the rule, and what it gives for which readings on which scale.
pub fn list_cases(heap: Global) -> Result<String, AllocError>
    ensures listed { IfOk result (λ s. string_bytes s ≡ case_lines) }
{
    // A loop of its own, as for other listings: one over a closure that writes a line would be longer.
    let mut listing = String::new(heap);
    for (k, case) in worked_cases().iter().enumerate() {
        push_case_line(&mut listing, k + 1, case)?;
    }
    Ok(listing)
}
