//! The listings of signals and of rows, a line each.
ghost use Rattle.std.specs.Prelude.{◌≡◌, take, IfOk, string_bytes};
ghost use Rattle.report.specs.Lines.{numbered, row_line};
ghost use Rattle.report.specs.Reports.{spanned, signal_line};

use super::visible::Visible;
use rule::Row;
use std::alloc::{AllocError, Global};
use text::Span;

/// The first `count` items, or all where there are fewer.
pub(crate) fn first<T>(items: &[T], count: usize) -> &[T]
    ensures by_definition { result.now ≡ take count items.now }
{
    items.get(..count).unwrap_or(items)
}

/// The bytes of a span, as far as they lie within the text.
fn bytes_at(text: &[u8], span: Span) -> &[u8]
    ensures by_definition { result.now ≡ spanned text.now span }
{
    first(text.get(span.start..).unwrap_or(&[]), span.len)
}

/// The signals, one a line, each with its number.
pub(crate) fn signal_listing(
    heap: Global,
    text: &[u8],
    names: &[Span],
) -> Result<String, AllocError>
    ensures lines { IfOk result (λ s. string_bytes s ≡ numbered (signal_line text.now) 0 names.now) }
{
    // Two short loops and no shared one: over a closure that writes a line it would be longer, with clauses on the closure.
    let mut listing = String::new(heap);
    for (n, span) in names.iter().enumerate() {
        let name = Visible(bytes_at(text, *span));
        writeln!(listing, "signal {n} {name}")?;
    }
    Ok(listing)
}

/// The rows, one a line, each with its number.
pub(crate) fn row_listing(heap: Global, rows: &[Row]) -> Result<String, AllocError>
    ensures lines { IfOk result (λ s. string_bytes s ≡ numbered row_line 0 rows.now) }
{
    let mut listing = String::new(heap);
    for (k, row) in rows.iter().enumerate() {
        writeln!(listing, "{k}: {row}")?;
    }
    Ok(listing)
}
