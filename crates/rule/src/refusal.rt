//! Why a call is refused, and where.
mod words;

ghost use Rattle.std.specs.Prelude.{◌≡◌};
ghost use Rattle.rule.specs.Refusals.{number, layer};
ghost use Rattle.rule.specs.Faults.{fault};

/// The reasons for a refusal, each with the number by which users know it. docs/REFUSALS.md has when each is due.
#[derive(Clone, Copy, Debug, PartialEq, Eq)]
pub enum Refusal {
    ShortStrip = 1,
    LongText,
    NoToken,
    OutOfPlace,
    LongName,
    RepeatedName,
    ManyNames,
    UndeclaredName,
    UnfitRows,
    ManySignals,
    ManyStates,
    ReadingCount,
    FullCharge,
    NoSample,
    NotInTable,
    CutShort,
    NoSuchSignal,
    MissingReading,
    UnfitField,
}

/// The part of the module that a refusal comes from.
#[derive(Clone, Copy, Debug, PartialEq, Eq)]
pub enum Layer {
    Strip,
    Text,
    Letters,
    Grammar,
    Rows,
    Table,
    Sample,
    Charge,
    Field,
}

/// A refusal with its place and the number of the sample it concerns, each 0 where none applies.
// 0 is what users are told there, in print and in logs.
#[derive(Clone, Copy, Debug, PartialEq, Eq)]
pub struct Fault {
    pub refusal: Refusal,
    pub place: usize,
    pub sample: usize,
}

impl Refusal {
    /// The number by which users know the refusal.
    pub fn code(self) -> u8
        ensures by_definition { result ≡ number self }
    {
        self as u8
    }

    /// The layer that the refusal comes from.
    pub fn origin(self) -> Layer
        ensures by_definition { result ≡ layer self }
    {
        match self {
            Refusal::ShortStrip => Layer::Strip,
            Refusal::LongText => Layer::Text,
            Refusal::NoToken | Refusal::LongName => Layer::Letters,
            Refusal::OutOfPlace
            | Refusal::RepeatedName
            | Refusal::ManyNames
            | Refusal::UndeclaredName => Layer::Grammar,
            Refusal::UnfitRows => Layer::Rows,
            Refusal::ManySignals | Refusal::ManyStates | Refusal::NotInTable => Layer::Table,
            Refusal::ReadingCount | Refusal::NoSuchSignal | Refusal::MissingReading =>
                Layer::Sample,
            Refusal::FullCharge | Refusal::NoSample => Layer::Charge,
            Refusal::CutShort | Refusal::UnfitField => Layer::Field,
        }
    }
}

impl Fault {
    /// The fault at a place of a text, where there is no sample to speak of.
    pub fn at(refusal: Refusal, place: usize) -> Fault
        ensures at_place { result ≡ fault refusal place }
    {
        Fault {
            refusal,
            place,
            sample: 0,
        }
    }
}

/// The fault of a call that has no place and no sample to tell of.
impl From<Refusal> for Fault {
    ghost from_gives = { λ refusal f. f ≡ fault refusal 0 };

    fn from(refusal: Refusal) -> Fault {
        Fault::at(refusal, 0)
    }
}
