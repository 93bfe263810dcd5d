//! What holds of the spelling, whatever the fields.

ghost use Rattle.tree_spelling.specs.Laws.{EachValueHasOneSpelling, NoSpellingBeginsAnother, FaultsAreOne, SpelledHasNoFault, DecodedIsSpelled};
ghost use Rattle.tree_spelling.specs.Worked.{WorkedRows};

/// The laws of the spelling, over every shape. A call does nothing but give them to its caller's
/// proof.
pub fn spelling_laws()
    ensures one_value { EachValueHasOneSpelling }
    ensures no_front { NoSpellingBeginsAnother }
    ensures one_fault { FaultsAreOne }
    ensures spelled { SpelledHasNoFault }
{}

/// What bytes are decoded to, as a function of them, is what they spell, over every shape: a value's items, or a bad
/// place with its fault. So each list of bytes is spelled, or has a bad place.
pub fn decoding_law()
    ensures { DecodedIsSpelled }
{}

/// Bodies that were worked through by hand are decoded so.
pub fn worked_bodies()
    ensures { WorkedRows }
{}
