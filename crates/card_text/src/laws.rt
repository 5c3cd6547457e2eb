// The claims of specs/, each the contract of a function that does nothing.
ghost use Rattle.card_text.specs.Strict.{OneDigit, DigitsAlone, SameWithout, StrictAccepts, TolerantAccepts, RefusedNone, AtMost37};

/// Blanks before a number's digits count nothing, and none can stand in a subfield of one digit.
pub fn blanks_count_nothing()
    ensures alone { DigitsAlone }
    ensures one { OneDigit }
{}

/// Without blanks the two ways of reading are one, and what the strict one accepts has none.
pub fn strict_reading_is_reading_without_blanks()
    ensures same { SameWithout }
    ensures accepts { StrictAccepts }
    ensures tolerant { TolerantAccepts }
{}

/// The total of blanks is at most 37, and none is told in a refusal.
pub fn at_most_37_blanks()
    ensures most { AtMost37 }
    ensures refused { RefusedNone }
{}
