//! The laws of what formulas mean, on any scale.
ghost use Rattle.meaning.specs.Laws.{Recurrences, OnlyThePast, Carried};

use scale::Scale;

/// Does nothing: its contract is the laws that every monitor rests on.
pub fn meaning_stands<S: Scale, U: Scale>()
    ensures recurrences { Recurrences S.Scale.ops }
    ensures only_the_past { OnlyThePast S.Scale.ops }
    ensures carried_by_translations { Carried S.Scale.ops U.Scale.ops }
{}
