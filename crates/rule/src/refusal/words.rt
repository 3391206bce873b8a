//! The words in which faults are told.
ghost use Rattle.std.specs.Prelude.{Some};
ghost use Rattle.rule.specs.Reasons.{layer_name, sentence};
ghost use Rattle.rule.specs.Faults.{fault_text};

use super::{Fault, Layer, Refusal};
use std::error::Error;
use std::fmt;

impl fmt::Display for Layer {
    ghost output = { λ layer. Some (layer_name layer) };

    fn fmt<W: fmt::Write>(&self, f: &mut fmt::Formatter<W>) -> fmt::Result {
        f.write_str(match self {
            Layer::Strip => "strip",
            Layer::Text => "text",
            Layer::Letters => "letters",
            Layer::Grammar => "grammar",
            Layer::Rows => "rows",
            Layer::Table => "table",
            Layer::Sample => "sample",
            Layer::Charge => "charge",
            Layer::Field => "field",
        })
    }
}

/// What is wrong, and what to do about it.
impl fmt::Display for Refusal {
    ghost output = { λ refusal. Some (sentence refusal) };

    fn fmt<W: fmt::Write>(&self, f: &mut fmt::Formatter<W>) -> fmt::Result {
        f.write_str(match self {
            Refusal::ShortStrip =>
                "The room for rows or names is too small; tell whoever keeps this program.",
            Refusal::LongText =>
                "The text is longer than 1024 bytes; shorten it or split it into several rules.",
            Refusal::NoToken =>
                "No name and no sign of a rule begins here; correct or remove this character.",
            Refusal::OutOfPlace =>
                "The rule does not go on or end like this; check the colon, the brackets and the operators up to this place.",
            Refusal::LongName => "This name is longer than 12 characters; choose a shorter one.",
            Refusal::RepeatedName =>
                "This name already stands before the colon; name each signal once.",
            Refusal::ManyNames => "A rule has at most 16 signals; leave this one or another out.",
            Refusal::UndeclaredName => "This name is not one of those before the colon.",
            Refusal::UnfitRows =>
                "The rule has more than 64 parts, or parts that do not fit together; shorten it or split it.",
            Refusal::ManySignals => "A table needs a rule of at most 6 signals; use fewer of them.",
            Refusal::ManyStates => "A table has at most 256 states; make the rule remember less.",
            Refusal::ReadingCount =>
                "The sample does not have one reading for each signal; give as many as there are names before the colon.",
            Refusal::FullCharge => "The charge has 1,000,000 samples already; begin a new one.",
            Refusal::NoSample => "The charge has no sample yet; a verdict needs at least one.",
            Refusal::NotInTable =>
                "The table has no such state or letter; make it again from its rule.",
            Refusal::CutShort =>
                "The log ends in the middle of a sample; copy the whole log again.",
            Refusal::NoSuchSignal =>
                "A sample has a reading of a signal that the rule does not have; check that log and rule belong together.",
            Refusal::MissingReading =>
                "A sample lacks the reading of a signal; this scale needs every reading.",
            Refusal::UnfitField =>
                "A reading in the log is no value of this scale; check that log and scale belong together.",
        })
    }
}

impl Error for Refusal {}

/// The number, the place and the layer, as logs have them.
impl fmt::Display for Fault {
    ghost output = { λ fault. Some (fault_text fault) };

    fn fmt<W: fmt::Write>(&self, f: &mut fmt::Formatter<W>) -> fmt::Result {
        let code = self.refusal.code();
        let place = self.place;
        let layer = self.refusal.origin();
        write!(f, "refused {code} at {place} in {layer}")
    }
}

impl Error for Fault {}
