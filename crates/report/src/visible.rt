//! Bytes of a text as a user sees them.
ghost use Rattle.std.specs.Prelude.{◌≡◌, ◌<◌, ◌≤◌, length, map, Some};
ghost use Rattle.report.specs.Excerpts.{visible};

use std::{fmt, str};

/// How many bytes are written at once: a call of the formatter for each byte would take over four times as long.
const PIECE: usize = 64;

/// Bytes that may be no text, each shown as one character, so that a caret below them stays in place.
#[derive(Clone, Copy)]
pub(crate) struct Visible<'a>(pub(crate) &'a [u8]);

/// The byte that a byte is shown as.
fn visible_byte(b: u8) -> u8
    ensures by_definition { result ≡ visible b }
    ensures one_byte { result < 128 }
{
    match b {
        b'\t' => b' ',
        b' '..=b'~' => b,
        _ => b'.',
    }
}

/// The bytes as they are shown: a text that is written into the first of the places.
// Asked of its one caller, which has the pieces from `chunks`: a type for a piece would be no plainer.
fn show<'p>(bytes: &[u8], places: &'p mut [u8; PIECE]) -> &'p str
    requires one_piece { length bytes.now ≤ PIECE }
    ensures as_shown { result.now ≡ map visible bytes.now }
{
    for (k, b) in bytes.iter().enumerate() {
        places[k] = visible_byte(*b);
    }
    str::from_utf8(&places[..bytes.len()]).unwrap()
}

impl fmt::Display for Visible<'_> {
    ghost output = { λ bytes. Some (map visible bytes.0.now) };

    fn fmt<W: fmt::Write>(&self, f: &mut fmt::Formatter<W>) -> fmt::Result {
        let mut places = [0; PIECE];
        for piece in self.0.chunks(PIECE) {
            f.write_str(show(piece, &mut places))?;
        }
        Ok(())
    }
}
