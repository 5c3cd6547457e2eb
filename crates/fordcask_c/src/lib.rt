//! The static library for C: each function of the library fordcask under its own name (bindings/c/fordcask.h). No crate can stand on a static library, and
//! `ask` asks what C asks: so an export calls the library's function of its name, and states its clauses again.
#![tactic(auto)]

mod bits;
mod card_lists;
mod cards;
mod corrected_bits;
mod corrections;
mod indexes;
mod plain;

pub use bits::{
    fordcask_bits_bands, fordcask_bits_tile, fordcask_bits_window, fordcask_to_bits,
    fordcask_to_list,
};
pub use card_lists::{
    fordcask_corner_pixels, fordcask_corner_positions, fordcask_pixels, fordcask_positions,
};
pub use cards::{
    fordcask_corner_pixel, fordcask_corner_position, fordcask_overview_pixel, fordcask_pixel,
    fordcask_place, fordcask_position, fordcask_read_card, fordcask_read_strict,
    fordcask_write_card,
};
pub use corrected_bits::{
    fordcask_corrected_bits_bands, fordcask_corrected_bits_tile, fordcask_corrected_bits_window,
};
pub use corrections::{
    fordcask_corrected_bands, fordcask_corrected_tile, fordcask_corrected_window,
    fordcask_set_correction,
};
pub use indexes::{fordcask_bands, fordcask_index_check, fordcask_tile, fordcask_window};
pub use plain::{
    fordcask_align, fordcask_basic_zone, fordcask_cover, fordcask_offset, fordcask_rectangle,
    fordcask_spacing,
};
