//! A text that was read, and its reports.
ghost use Rattle.std.specs.Prelude.{◌≡◌, IfOk, string_bytes};

use super::listing::{first, row_listing, signal_listing};
use super::refused::refusal_report;
use rule::{Fault, Row, count_remembering};
use std::alloc::{AllocError, Global};
use text::{Counts, Span};

/// A text, and what came of reading it: its rule stands in the first places of `rows` and `names`, or a fault says why
/// the text was refused.
// The counts of the outcome and whole strips, as `text::read` leaves them in lent memory, and as the definition of what
// is reported takes them.
#[derive(Clone, Copy, Debug)]
pub struct ReadText<'a> {
    pub text: &'a [u8],
    pub outcome: Result<Counts, Fault>,
    pub rows: &'a [Row],
    pub names: &'a [Span],
}

impl ReadText<'_> {
    ghost use Rattle.report.specs.Reports.{check_report, rows_report};

    /// The report of a check: the signals and counts of the rule, or why the text was refused, and where.
    pub fn check_report(self, heap: Global) -> Result<String, AllocError>
        ensures report { IfOk result (λ s. string_bytes s ≡ check_report self.entry.text.now self.entry.outcome self.entry.rows.now self.entry.names.now) }
    {
        match self.outcome {
            Ok(counts) => {
                let mut report = signal_listing(heap, self.text, first(self.names, counts.names))?;
                let rows = first(self.rows, counts.rows);
                writeln!(
                    report,
                    "rows {}\nremember {}",
                    rows.len(),
                    count_remembering(rows)
                )?;
                Ok(report)
            }
            Err(fault) => refusal_report(heap, self.text, fault),
        }
    }

    /// The rows of the rule, one a line, or why the text was refused, and where.
    pub fn rows_report(self, heap: Global) -> Result<String, AllocError>
        ensures report { IfOk result (λ s. string_bytes s ≡ rows_report self.entry.text.now self.entry.outcome self.entry.rows.now) }
    {
        match self.outcome {
            Ok(counts) => row_listing(heap, first(self.rows, counts.rows)),
            Err(fault) => refusal_report(heap, self.text, fault),
        }
    }
}
