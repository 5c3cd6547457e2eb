// The claims of specs/, each the contract of a function that does nothing.
ghost use Rattle.fordcask.specs.FactorOne.{FactorOne};
ghost use Rattle.fordcask.specs.Totals.{RefusedCardTellsNone};
ghost use Rattle.fordcask.specs.InStore.{TileIsPart, BitsTileIsPart, CorrectedTileIsPart, CorrectedBitsTileIsPart};

/// The bytes that a tile's block names are the part of the store that look-up hands back.
pub fn blocks_name_parts()
    ensures list { TileIsPart }
    ensures bits { BitsTileIsPart }
    ensures corrected_list { CorrectedTileIsPart }
    ensures corrected_bits { CorrectedBitsTileIsPart }
{}

/// A card that is refused tells no blanks.
pub fn refused_cards_tell_no_blanks()
    ensures { RefusedCardTellsNone }
{}

/// A factor of 1 is a chart: each question answers as by the scale alone.
pub fn factor_one_is_a_chart()
    ensures { FactorOne }
{}
