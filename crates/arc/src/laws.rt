// The claims of specs/, each the contract of a function that does nothing.
ghost use Rattle.arc.specs.AsPrinted.{CodeAsPrinted, TableAsPrinted};
ghost use Rattle.arc.specs.Pixels.{SpacingIs, SpacingFalls, ColumnsAtLeast, RowsAtLeast};
ghost use Rattle.arc.specs.Refusals.{NeverZero, TellsApart};
ghost use Rattle.arc.specs.Scales.{ScaleRefused, FactorRefused, ProductRefused, ProductServed, ScaleIs, ScaleAtOne};
ghost use Rattle.arc.specs.Spacing.{GridsIs};
ghost use Rattle.arc.specs.TownScales.{BelowRefused, TownRefused, WrittenFrom};

/// No refusal has the number of an answer, and number and place tell one refusal from every other.
#[tactic(auto, using(crate::proofs::Refused::claims))]
pub fn refusals_have_numbers()
    ensures never_zero { NeverZero }
    ensures tells_apart { TellsApart }
{}

/// The zone table is the printed one.
pub fn table_is_as_printed()
    ensures table { TableAsPrinted }
    ensures code { CodeAsPrinted }
{}

/// Which scales and factors are served, and what each of the others is refused with.
#[tactic(auto, using(crate::proofs::ScaleLaws::claims))]
pub fn scales_are_served()
    ensures scale { ScaleRefused }
    ensures factor { FactorRefused }
    ensures product { ProductRefused }
    ensures served { ProductServed }
    ensures is { ScaleIs }
    ensures at_one { ScaleAtOne }
{}

/// What a count of pixels is, for each unit and scale.
#[tactic(auto, using(crate::proofs::PixelLaws::claims))]
pub fn pixels_are_near()
    ensures is { SpacingIs }
    ensures falls { SpacingFalls }
    ensures columns { ColumnsAtLeast }
    ensures rows { RowsAtLeast }
{}

/// A and B of an answer lie on the grid.
pub fn answers_lie_on_the_grid()
    ensures { GridsIs }
{}

/// Which scales are written.
#[tactic(auto, using(crate::proofs::TownScales::claims))]
pub fn town_scales_are_not_written()
    ensures below { BelowRefused }
    ensures town { TownRefused }
    ensures from { WrittenFrom }
{}
