//! The report of a refusal.
ghost use Rattle.std.specs.Prelude.{◌≡◌, IfOk, string_bytes};
ghost use Rattle.report.specs.Reports.{placed, refusal_report};

use super::excerpt::Excerpt;
use rule::{Fault, Refusal};
use std::alloc::{AllocError, Global};

/// Whether the refusal tells a place in the text, which is then shown.
fn has_place(refusal: Refusal) -> bool
    ensures by_definition { result ≡ placed refusal }
{
    matches!(
        refusal,
        Refusal::NoToken
            | Refusal::OutOfPlace
            | Refusal::LongName
            | Refusal::RepeatedName
            | Refusal::ManyNames
            | Refusal::UndeclaredName
            | Refusal::UnfitRows
    )
}

/// What was refused and where, the place in the text if there is one, and what to do about it.
pub(crate) fn refusal_report(heap: Global, text: &[u8], fault: Fault) -> Result<String, AllocError>
    ensures report { IfOk result (λ s. string_bytes s ≡ refusal_report text.now fault) }
{
    let mut report = String::new(heap);
    writeln!(report, "{fault}")?;
    if has_place(fault.refusal) {
        let place = fault.place;
        write!(report, "{}", Excerpt { text, place })?;
    }
    writeln!(report, "{}", fault.refusal)?;
    Ok(report)
}
