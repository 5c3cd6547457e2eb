// The claims of specs/, each the contract of a function that does nothing.
ghost use Rattle.tiles.specs.Check.{EachOnce, OnceAccepted, UpToCount};
ghost use Rattle.tiles.specs.LookUp.{OneTile, OneEntry, PartIs, PartsApart};
ghost use Rattle.tiles.specs.Window.{WholeView, WholeImage};
ghost use Rattle.tiles.specs.Corrected.{StandbyAlike, ZeroAsBase, ZeroWindow, BaseNotConsulted, WindowNotConsulted, EitherPartIs, MissingInBoth};
ghost use Rattle.tiles.specs.Corrected.{SetsOne, OtherPixels, OtherWindows, FromNewEntry};
ghost use Rattle.tiles.specs.AsList.{BitsHaveList, NumberAsList, PartAsList, BandsAsList, WindowAsList};
ghost use Rattle.tiles.specs.AsList.{SourceAsList, EitherPartAsList, EitherBandsAsList, CorrectedWindowAsList};
ghost use Rattle.tiles.specs.Orders.{NumberOrder, BitsNumberOrder, SourceOrder, BitsSourceOrder};
ghost use Rattle.tiles.specs.Orders.{WindowOrder, BitsWindowOrder, CorrectedWindowOrder, CorrectedBitsWindowOrder};

/// A list is accepted by its check just where each number from 1 to the count is that of one tile, and none is above it.
#[tactic(auto, using(crate::proofs::Claims::checking))]
pub fn accepted_lists_place_each_number_once()
    ensures once { EachOnce }
    ensures accepted { OnceAccepted }
    ensures up_to_count { UpToCount }
{}

/// A look-up asks one tile, one entry; what is stored has its part of the store, apart from every other.
#[tactic(auto, using(crate::proofs::Claims::looking_up))]
pub fn look_ups_ask_one_tile()
    ensures one_tile { OneTile }
    ensures one_entry { OneEntry }
    ensures part { PartIs }
    ensures apart { PartsApart }
{}

/// The window over the whole image misses none just where every tile is stored.
#[tactic(auto, using(crate::proofs::Claims::viewing))]
pub fn whole_window_is_every_tile()
    ensures view { WholeView }
    ensures image { WholeImage }
{}

/// With corrections beside: where one stands the base is not asked, where none does the base answers.
#[tactic(auto, using(crate::proofs::Claims::correcting))]
pub fn corrections_come_first()
    ensures standby { StandbyAlike }
    ensures zero { ZeroAsBase }
    ensures zero_window { ZeroWindow }
    ensures base { BaseNotConsulted }
    ensures window { WindowNotConsulted }
    ensures part { EitherPartIs }
    ensures missing { MissingInBoth }
{}

/// Setting a correction touches its entry alone, and look-ups in its tile answer from it.
#[tactic(auto, using(crate::proofs::Claims::setting))]
pub fn setting_touches_one_tile()
    ensures one { SetsOne }
    ensures pixels { OtherPixels }
    ensures windows { OtherWindows }
    ensures from_entry { FromNewEntry }
{}

/// Presence bits are answered as their list is.
#[tactic(auto, using(crate::proofs::Claims::as_list))]
pub fn bits_answer_as_the_list()
    ensures list { BitsHaveList }
    ensures number { NumberAsList }
    ensures part { PartAsList }
    ensures bands { BandsAsList }
    ensures window { WindowAsList }
{}

/// Presence bits with corrections beside are answered as their list with these is.
#[tactic(auto, using(crate::proofs::Claims::corrected_as_list))]
pub fn corrected_bits_answer_as_the_list()
    ensures source { SourceAsList }
    ensures part { EitherPartAsList }
    ensures bands { EitherBandsAsList }
    ensures window { CorrectedWindowAsList }
{}

/// Which refusal of a look-up comes first.
#[tactic(auto, using(crate::proofs::Claims::orders))]
pub fn look_ups_refuse_in_order()
    ensures number { NumberOrder }
    ensures bits { BitsNumberOrder }
    ensures source { SourceOrder }
    ensures bits_source { BitsSourceOrder }
{}

/// Which refusal of a window comes first.
#[tactic(auto, using(crate::proofs::Claims::window_orders))]
pub fn windows_refuse_in_order()
    ensures list { WindowOrder }
    ensures bits { BitsWindowOrder }
    ensures corrected { CorrectedWindowOrder }
    ensures corrected_bits { CorrectedBitsWindowOrder }
{}
