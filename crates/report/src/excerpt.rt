//! The line of a text that a place lies on, with a caret under the place.
ghost use Rattle.std.specs.Prelude.{◌≡◌, ◌≤◌, length, Some};
ghost use Rattle.std.specs.List.{before_first, after_last};
ghost use Rattle.report.specs.Excerpts.{is_break, last_end, excerpt};

use super::visible::Visible;
use std::fmt;

/// A place in a text, shown as the line that it lies on and a line with a caret under it.
#[derive(Clone, Copy)]
pub(crate) struct Excerpt<'a> {
    pub(crate) text: &'a [u8],
    pub(crate) place: usize,
}

/// What stands before the first line break.
fn until_break(bytes: &[u8]) -> &[u8]
    ensures by_definition { result.now ≡ before_first is_break bytes.now }
{
    bytes.split(|b| *b == b'\n').next().unwrap_or(bytes)
}

/// What stands after the last line break.
fn last_line(bytes: &[u8]) -> &[u8]
    ensures by_definition { result.now ≡ after_last is_break bytes.now }
{
    bytes.rsplit(|b| *b == b'\n').next().unwrap_or(bytes)
}

/// Where the last line ends: before the line break at the end of the text, if there is one.
fn last_end(bytes: &[u8]) -> usize
    ensures by_definition { result ≡ last_end bytes.now }
    ensures within { result ≤ length bytes.now }
{
    bytes.strip_suffix(b"\n").unwrap_or(bytes).len()
}

impl fmt::Display for Excerpt<'_> {
    ghost output = { λ e. Some (excerpt e.text.now e.place) };

    fn fmt<W: fmt::Write>(&self, f: &mut fmt::Formatter<W>) -> fmt::Result {
        // A place past the last line's end is shown at that end.
        let (before, after) = self.text.split_at(self.place.min(last_end(self.text)));
        let front = last_line(before);
        let column = front.len();
        writeln!(
            f,
            "{}{}\n{:column$}^",
            Visible(front),
            Visible(until_break(after)),
            ""
        )
    }
}
