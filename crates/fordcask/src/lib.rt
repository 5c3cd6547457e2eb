//! The library for C: numbers and slices in, a block of numbers out. The crate fordcask_c exports these functions (bindings/c/fordcask.h).
//! C has no generics and no lists with their length: so there is a function for each form of an index, and each takes its numbers one by one.
#![tactic(auto)]

mod bits;
mod card_lists;
mod cards;
mod corrected_bits;
mod corrections;
mod indexes;
pub mod laws;
mod parts;
mod plain;
mod read;
mod told_card;
mod told_plain;
mod told_tiles;

pub use bits::{
    fordcask_bits_bands, fordcask_bits_tile, fordcask_bits_window, fordcask_to_bits,
    fordcask_to_list,
};
pub use card_lists::{
    fordcask_corner_pixels, fordcask_corner_positions, fordcask_pixels, fordcask_positions,
};
pub use cards::{
    fordcask_corner_pixel, fordcask_corner_position, fordcask_overview_pixel, fordcask_pixel,
    fordcask_place, fordcask_position, fordcask_read_card, fordcask_read_strict,
    fordcask_write_card,
};
pub use corrected_bits::{
    fordcask_corrected_bits_bands, fordcask_corrected_bits_tile, fordcask_corrected_bits_window,
};
pub use corrections::{
    fordcask_corrected_bands, fordcask_corrected_tile, fordcask_corrected_window,
    fordcask_set_correction,
};
pub use indexes::{fordcask_bands, fordcask_index_check, fordcask_tile, fordcask_window};
pub use parts::{
    BandsOnCard, CardParts, ConstantParts, CorrectedTile, CoverParts, OffsetParts, OriginParts,
    OverviewOnCards, PixelOnCard, PlaceOnCard, PositionOnCard, RecordParts, RectangleParts,
    RefusalParts, SpacingParts, TileParts, VerdictParts, WindowOnCard, ZoneParts,
};
pub use plain::{
    fordcask_align, fordcask_basic_zone, fordcask_cover, fordcask_offset, fordcask_rectangle,
    fordcask_spacing,
};
