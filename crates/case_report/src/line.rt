//! The line of a worked case.
ghost use Rattle.std.specs.Prelude.{◌≡◌, ◌++◌, OnOk, string_bytes};
ghost use Rattle.cases.specs.Shown.{shown, worked_by};
ghost use Rattle.case_report.specs.Lines.{spaced, outcome, worked_text, case_line};
ghost use Rattle.case_report.specs.Words.{HasWords, word_of};

use cases::{Case, Charge};
use std::alloc::AllocError;
use std::fmt::Display;

// Functions that add to a listing, and no `Display` of a case: it is written in this one listing alone.

/// Adds each item, with a space before it.
fn push_spaced<T: Display>(out: &mut String, items: &[T]) -> Result<(), AllocError>
    ensures adds { HasWords T.output → OnOk result
        (string_bytes out.new ≡ string_bytes out.old ++ spaced (word_of T.output) items.now) }
{
    for item in items {
        write!(out, " {item}")?;
    }
    Ok(())
}

/// Adds what a scale gives for some readings.
fn push_outcome<R: Display, V: Display>(
    out: &mut String,
    scale: &str,
    readings: &[R],
    values: &[V],
) -> Result<(), AllocError>
    ensures adds { HasWords R.output → HasWords V.output → OnOk result
        (string_bytes out.new ≡ string_bytes out.old
        ++ outcome scale.now (word_of R.output) (word_of V.output) readings.now values.now) }
{
    write!(out, "{scale}:")?;
    push_spaced(out, readings)?;
    out.push_str(" gives")?;
    push_spaced(out, values)
}

fn push_charge(out: &mut String, charge: Charge) -> Result<(), AllocError>
    ensures adds { OnOk result
        (string_bytes out.new ≡ string_bytes out.old ++ worked_text (worked_by charge)) }
{
    match charge {
        Charge::OnTwoWay {
            letters,
            verdicts,
            ..
        } => push_outcome(out, "two-way", letters, verdicts),
        Charge::OnLights { readings, values } => push_outcome(out, "lights", readings, values),
        Charge::OnLanes { readings, values } => push_outcome(out, "lanes", readings, values),
        Charge::OnMargins { readings, values } => push_outcome(out, "margins", readings, values),
    }
}

/// Adds the line of a case, its end included.
pub(crate) fn push_case_line(out: &mut String, number: usize, case: &Case) -> Result<(), AllocError>
    ensures adds { OnOk result
        (string_bytes out.new ≡ string_bytes out.old ++ case_line number (shown case.now)) }
{
    write!(out, "{number} {} | ", case.text)?;
    push_charge(out, case.charge)?;
    out.push('\n')
}
