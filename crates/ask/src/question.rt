//! The questions by their names (docs/ASKING.md), in three functions, since no function here has 40 lines.
use crate::fault::{BadLine, Fault};
use crate::stated::Form::{Bits, List};
use crate::words::Words;
use crate::{cards, corrected, indexes, listed, look_up, plain, windows};
use std::str;

/// Answers a question; another line is bad.
pub fn ask(rt: &HostRuntime, line: &[u8], store: &[u8]) -> Result<(), Fault> {
    let line = str::from_utf8(line).or(Err(BadLine))?;
    let (name, words) = line.split_once(' ').ok_or(BadLine)?;
    let words = &mut Words::of(words);
    match name {
        "spacing" => plain::spacing(rt, words),
        "b_constant" => plain::b_constant(rt, words),
        "basic_zone" => plain::basic_zone(rt, words),
        "cover" => plain::cover(rt, words),
        "rectangle" => plain::rectangle(rt, words),
        "align" => plain::align(rt, words),
        "offset" => plain::offset(rt, words),
        _ => on_card(rt, name, words, store),
    }
}

/// Answers a question on a card.
fn on_card(rt: &HostRuntime, name: &str, words: &mut Words<'_>, store: &[u8]) -> Result<(), Fault> {
    match name {
        "read_card" => cards::read_card(rt, words),
        "read_strict" => cards::read_strict(rt, words),
        "write_card" => cards::write_card(rt, words),
        "extents" => cards::extents(rt, words),
        "place" => cards::place(rt, words),
        "position" => cards::position(rt, words),
        "corner_position" => cards::corner_position(rt, words),
        "pixel" => cards::pixel(rt, words),
        "corner_pixel" => cards::corner_pixel(rt, words),
        "judge_pixel" => cards::judge_pixel(rt, words),
        "overview_pixel" => cards::overview_pixel(rt, words),
        "positions" => listed::positions(rt, words),
        "corner_positions" => listed::corner_positions(rt, words),
        "pixels" => listed::pixels(rt, words),
        "corner_pixels" => listed::corner_pixels(rt, words),
        _ => on_index(rt, name, words, store),
    }
}

/// Answers a question on a card's tile index.
fn on_index(
    rt: &HostRuntime,
    name: &str,
    words: &mut Words<'_>,
    store: &[u8],
) -> Result<(), Fault> {
    match name {
        "index_check" => indexes::index_check(rt, words),
        "to_bits" => indexes::to_bits(rt, words),
        "to_list" => indexes::to_list(rt, words),
        "set_correction" => indexes::set_correction(rt, words),
        "stored_number" => look_up::ask(rt, List, words, store, look_up::number),
        "tile" => look_up::ask(rt, List, words, store, look_up::tile),
        "bands" => look_up::ask(rt, List, words, store, look_up::bands),
        "window" => windows::window(rt, List, words),
        "bits_number" => look_up::ask(rt, Bits, words, store, look_up::number),
        "bits_tile" => look_up::ask(rt, Bits, words, store, look_up::tile),
        "bits_bands" => look_up::ask(rt, Bits, words, store, look_up::bands),
        "bits_window" => windows::window(rt, Bits, words),
        "corrected_number" => corrected::ask(rt, List, words, store, corrected::number),
        "corrected_tile" => corrected::ask(rt, List, words, store, corrected::tile),
        "corrected_bands" => corrected::ask(rt, List, words, store, corrected::bands),
        "corrected_window" => windows::corrected_window(rt, List, words),
        "corrected_bits_number" => corrected::ask(rt, Bits, words, store, corrected::number),
        "corrected_bits_tile" => corrected::ask(rt, Bits, words, store, corrected::tile),
        "corrected_bits_bands" => corrected::ask(rt, Bits, words, store, corrected::bands),
        "corrected_bits_window" => windows::corrected_window(rt, Bits, words),
        _ => Err(Fault::BadLine),
    }
}
