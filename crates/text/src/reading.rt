//! Reading a whole rule text into lent strips.
ghost use Rattle.std.specs.Prelude.{◌≡◌, length};
ghost use Rattle.text.specs.Texts.{Outcome, Due, outcome, Cleared, Left};
ghost use Rattle.text.specs.Readers.{TextTold, AttemptTold};

use super::formula::formula;
use super::header::Header;
use super::span::{Counts, Span};
use super::strip::Strip;
use rule::{Fault, Refusal, Row};

/// The most bytes that a text may have.
const MOST_BYTES: usize = 1024;
/// The most rows that a text may lay.
pub const MOST_ROWS: usize = 64;
/// The most names that a header may have.
pub const MOST_NAMES: usize = 16;

/// Reads a text into strips that are just long enough. A refused one may leave them half filled.
// Tried: arrays, which say both lengths. Of an array that was lent the check does not know that it is still as long.
fn parse(text: &[u8], rows: &mut [Row], names: &mut [Span]) -> Result<Counts, Fault>
    requires sixty_four_rows { length rows.old ≡ 64 }
    requires sixteen_names { length names.old ≡ 16 }
    ensures text_read { TextTold text.now rows.old rows.new names.old names.new result }
{
    let mut spans = Strip {
        places: names,
        filled: 0,
    };
    let from = Header::read(text, &mut spans)?;
    let header = Header {
        text,
        names: spans.laid(),
    };
    let mut rows = Strip {
        places: rows,
        filled: 0,
    };
    let done = formula(from, header, &mut rows)?;
    done.after.end()?;
    Ok(Counts {
        names: spans.filled,
        rows: rows.filled,
    })
}

/// Reads a text; a refusal may leave the places that a reading may fill in any state.
fn attempt(text: &[u8], rows: &mut [Row], names: &mut [Span]) -> Result<Counts, Fault>
    ensures attempted { AttemptTold text.now rows.old rows.new names.old names.new result }
{
    if rows.len() < MOST_ROWS || names.len() < MOST_NAMES {
        return Err(Refusal::ShortStrip.into());
    }
    if text.len() > MOST_BYTES {
        return Err(Refusal::LongText.into());
    }
    parse(text, &mut rows[..MOST_ROWS], &mut names[..MOST_NAMES])
}

/// Sets the first `most` places, as far as there are so many.
fn clear<T: Copy>(strip: &mut [T], most: usize, value: T)
    ensures cleared { Cleared most value strip.old strip.new }
{
    let end = most.min(strip.len());
    // `fill` asks that a clone is the value itself, which `T: Copy` does not say.
    for place in &mut strip[..end] {
        *place = value;
    }
}

/// Reads a rule text into the first places of the strips, which need 64 places for rows and 16 for names, and answers
/// how many of each it fills. A refused reading sets those 64 and 16 places, as far as there are so many, to the
/// constant no and to zero.
pub fn read(text: &[u8], rows: &mut [Row], names: &mut [Span]) -> Result<Counts, Fault>
    ensures outcome_is_due { Due text.now (length rows.old) (length names.old) (outcome rows.new names.new result) }
    ensures no_other_is_due { (o : Outcome) → Due text.now (length rows.old) (length names.old) o → o ≡ outcome rows.new names.new result }
    ensures strips_left { Left rows.old rows.new names.old names.new result }
{
    let outcome = attempt(text, rows, names);
    if outcome.is_err() {
        clear(rows, MOST_ROWS, Row::Constant(false));
        clear(names, MOST_NAMES, Span { start: 0, len: 0 });
    }
    outcome
}
