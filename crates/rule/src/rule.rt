//! A rule: lent rows that are fit, and how they are taken up.
ghost use Rattle.std.specs.Prelude.{◌≡◌, ◌≤◌, false, [], ◌∷◌, length, take, MatchBool, count_by, MatchResult, IfOk};
ghost use Rattle.rule.specs.declared.row.Row.TheVariants.{Constant};
ghost use Rattle.rule.specs.Rows.{remembering};
ghost use Rattle.rule.specs.Refusals.{number};
ghost use Rattle.rule.specs.Fit.{Fit, Unfit, Placeless};
ghost use Rattle.std.proofs.Props.{props};
ghost use Rattle.rule.specs.declared.refusal.Refusal.TheVariants.{UnfitRows};
ghost use Rattle.rule.specs.Faults.{fault};

use super::refusal::{Fault, Refusal};
use super::row::{Row, count_remembering};

/// The most signals that a rule may have.
const MOST_SIGNALS: usize = 16;
/// The most rows that a rule may have.
const MOST_ROWS: usize = 384;

/// A rule over lent rows. The last row is the rule itself.
#[derive(Clone, Copy, Debug)]
pub struct Rule<'a> {
    rows: &'a [Row],
    signals: usize,
    memory: usize,
    ghost fit: { Fit signals rows.now } by { Prim.hlevel props },
    ghost memory_counts: { memory ≡ count_by remembering rows.now },
}

fn fits(rows: &[Row], signals: usize) -> bool
    ensures decides { MatchBool result (Fit signals rows.now) (Fit signals rows.now → ⊥) }
{
    if signals < 1 || signals > MOST_SIGNALS || rows.is_empty() || rows.len() > MOST_ROWS {
        return false;
    }
    for (k, row) in rows.iter().enumerate() {
        if !row.fits(k, signals) {
            return false;
        }
    }
    true
}

const NEVER: [Row; 1] = [Row::Constant(false)];

impl<'a> Rule<'a> {
    /// The rule `0` over one signal: a place to take up another.
    pub fn idle() -> Rule<'a>
        ensures constant_no { result.rows.now ≡ Constant false ∷ [] }
        ensures one_signal { result.signals ≡ 1 }
    {
        Rule {
            rows: &NEVER,
            signals: 1,
            memory: 0,
        }
    }

    /// The rule of these rows over so many signals, if they are one.
    pub fn new(rows: &'a [Row], signals: usize) -> Result<Rule<'a>, Fault>
        ensures exactly_if_fit { MatchResult result (λ _. Fit signals rows.now) (λ f. (Fit signals rows.now → ⊥) × (f ≡ fault UnfitRows 0)) }
        ensures over_those_rows { IfOk result (λ rule. (rule.rows.now ≡ rows.now) × (rule.signals ≡ signals)) }
    {
        if !fits(rows, signals) {
            return Err(Refusal::UnfitRows.into());
        }
        let memory = count_remembering(rows);
        Ok(Rule {
            rows,
            signals,
            memory,
        })
    }

    /// Takes up the first `count` rows as the rule, over so many signals. A refusal leaves the rule as it was.
    // The count stands beside the rows, and no shorter slice for both: that too few rows are lent is refused here.
    pub fn take_up(&mut self, rows: &'a [Row], count: usize, signals: usize) -> Result<(), Fault>
        ensures taken_exactly_if_fit { MatchResult result (λ _. (count ≤ length rows.now) × Fit signals (take count rows.now)) (λ f. Unfit rows.now count signals (number f.refusal) × Placeless f) }
        ensures new_rule_or_the_old { MatchResult result (λ _. (self.new.rows.now ≡ take count rows.now) × (self.new.signals ≡ signals)) (λ _. self.new ≡ self.old) }
    {
        let lent = rows.get(..count).ok_or(Refusal::ShortStrip)?;
        *self = Rule::new(lent, signals)?;
        Ok(())
    }

    /// The rows, operands before the rows that use them.
    pub fn rows(&self) -> &'a [Row]
        ensures the_rows { result.now ≡ self.now.rows.now }
    {
        self.rows
    }

    /// How many signals a sample has.
    pub fn signals(&self) -> usize
        ensures the_signals { result ≡ self.now.signals }
    {
        self.signals
    }

    /// How many rows remember, so how many values a monitor keeps from sample to sample.
    pub fn remembering(&self) -> usize
        ensures counts { result ≡ count_by remembering self.now.rows.now }
    {
        self.memory
    }
}
