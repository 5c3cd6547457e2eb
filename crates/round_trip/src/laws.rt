// The claims of specs/ and of card_text's specs/RoundTrips.antt, each the contract of a function that does nothing.
ghost use Rattle.card_text.specs.RoundTrips.{ReadsBack, WritesBack, WrittenScale, TownNotWritten, HeldNotWritten};
ghost use Rattle.card_text.specs.RoundTrips.{TextReadBack, ReadIsText, TextIsRead};
ghost use Rattle.round_trip.specs.Aligned.{AlignedBack};

/// What was written is read back to its record, with no blanks.
#[tactic(auto, using(crate::proofs::ReadBack::claims))]
pub fn written_cards_are_read_back()
    ensures card { ReadsBack }
    ensures text { TextReadBack }
{}

/// What was read is written back: the same bytes exactly where no blanks were met, and the same card always.
pub fn read_cards_are_written_back()
    ensures card { WritesBack }
    ensures text { ReadIsText }
    ensures again { TextIsRead }
{}

/// Cards are written from 1:10,000 up, and refused at a town scale even where they were read.
pub fn town_scales_are_not_written()
    ensures scale { WrittenScale }
    ensures town { TownNotWritten }
    ensures held { HeldNotWritten }
{}

/// Every aligned origin can stand on a card, and is read back from it.
pub fn aligned_origins_are_read_back()
    ensures { AlignedBack }
{}
