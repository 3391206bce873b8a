//! What is told of a rule text: it is read into strips of its own, and the outcome is reported.
ghost use Rattle.std.specs.Prelude.{◌≡◌, IfOk, string_bytes};
ghost use Rattle.text.specs.Texts.{Due, outcome};
ghost use Rattle.report.specs.Told.{Checked, Listed};

use super::read_text::ReadText;
use rule::Row;
use std::alloc::{AllocError, Global};
use text::{MOST_NAMES, MOST_ROWS, Span, read};

/// Places for the rows and the names that a reading fills.
#[derive(Drop)]
struct Places {
    rows: [Row; MOST_ROWS],
    names: [Span; MOST_NAMES],
}

impl Places {
    const EMPTY: Places = Places {
        rows: [Row::Constant(false); MOST_ROWS],
        names: [Span { start: 0, len: 0 }; MOST_NAMES],
    };

    /// Reads a text into these places.
    fn read<'a>(&'a mut self, text: &'a [u8]) -> ReadText<'a>
        ensures outcome_is_due { Due text.now 64 16 (outcome result.rows.now result.names.now result.outcome) }
        ensures the_text { result.text.now ≡ text.now }
    {
        let Places { rows, names } = self;
        let outcome = read(text, rows, names);
        ReadText {
            text,
            outcome,
            rows,
            names,
        }
    }
}

/// What `rules check` prints of a text.
pub fn check_text(heap: Global, text: &[u8]) -> Result<String, AllocError>
    ensures report_of_what_is_due { IfOk result (λ s. Checked text.now (string_bytes s)) }
{
    let mut places = Places::EMPTY;
    let read_text = places.read(text);
    read_text.check_report(heap)
}

/// What `rules rows` prints of a text.
pub fn list_rows(heap: Global, text: &[u8]) -> Result<String, AllocError>
    ensures report_of_what_is_due { IfOk result (λ s. Listed text.now (string_bytes s)) }
{
    let mut places = Places::EMPTY;
    let read_text = places.read(text);
    read_text.rows_report(heap)
}
