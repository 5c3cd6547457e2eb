// The claims of specs/, each the contract of a function that does nothing.
ghost use Rattle.card.specs.NoDrift.{NoDrift};
ghost use Rattle.card.specs.Places.{GivesExactly, OnlyPixel, RefusesExactly, AskedAlike};
ghost use Rattle.card.specs.Copies.{AnswerAlike, AlikeExactly, PlaceAlike, BytesAlike, RoundedAgain, MovedRefused};
ghost use Rattle.card.specs.Contained.{FoundContains, RefusedContains, CentreInside, AskedBack};
ghost use Rattle.card.specs.Ranges.{AnsweredInRange};
ghost use Rattle.card.specs.Overview.{PixelNearest, OverviewNearest, OverviewRefused};
ghost use Rattle.card.specs.Offset.{Exact};

/// Down any list of cards of one scale, zone and factor a position does not drift.
pub fn positions_do_not_drift()
    ensures walk { NoDrift }
    ensures gives { GivesExactly }
    ensures only { OnlyPixel }
    ensures refuses { RefusesExactly }
    ensures asked { AskedAlike }
{}

/// Which cards answer alike, and what makes them so.
pub fn copies_answer_alike()
    ensures alike { AnswerAlike }
    ensures exactly { AlikeExactly }
    ensures place { PlaceAlike }
    ensures bytes { BytesAlike }
{}

/// A stored angle that is rounded again is that of no tile, and its card is refused.
pub fn rounded_angles_are_refused()
    ensures tile { RoundedAgain }
    ensures card { MovedRefused }
{}

/// The pixel of a position is the one that contains it.
pub fn pixels_contain_their_positions()
    ensures found { FoundContains }
    ensures refused { RefusedContains }
    ensures centre { CentreInside }
    ensures back { AskedBack }
{}

/// Answered positions are in range.
pub fn positions_are_in_range()
    ensures { AnsweredInRange }
{}

/// The pixel whose corner is nearest, and so an overview's.
pub fn corner_pixels_are_nearest()
    ensures pixel { PixelNearest }
    ensures overview { OverviewNearest }
    ensures refused { OverviewRefused }
{}

/// An offset holds whole hundredths, exactly.
pub fn offsets_are_exact()
    ensures { Exact }
{}
