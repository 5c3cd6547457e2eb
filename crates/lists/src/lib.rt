// Lists of pixels and of positions of one card, in either pair.
#![tactic(auto)]

ghost use Rattle.std.specs.Prelude.{◌≡◌, true, ◌+◌, ◌*◌, ◌≤◌, ◌<◌, length, set};
ghost use Rattle.card.specs.declared.Pair.{Pair};
ghost use Rattle.lists.specs.Entries.{entry_told, Agrees, ChartedEntries, AskedEntries};
ghost use Rattle.lists.specs.Lists.{entries, lists_fit, lists_verdict, entry_at, values_left, numbers_left};
ghost use Rattle.lists.specs.Lists.{asked_report, report_at, position_report_at, pixel_report_at};

use arc::Refusal;
use card::{Card, Pair};
use engine::Engine;

mod axis;
mod engine;

/// What is asked of each entry of a list: the position of a pixel, or the pixel at a position.
// An enum, which the library for C hands on: two tests of it here are plainer than a trait, two types and its law.
#[derive(Clone, Copy)]
pub enum Asked {
    Positions,
    Pixels,
}

// Whether the lists' lengths are right: whole entries handed in, and room for their answers.
fn lists_fit(handed: usize, fill: usize, numbers: usize) -> bool
    ensures { result ≡ lists_fit handed fill numbers }
{
    handed % 2 == 0 && handed <= fill && handed / 2 <= numbers
}

// A row and a column, or a latitude and a longitude.
#[derive(Clone, Copy)]
struct Entry {
    first: i64,
    second: i64,
}

// Entry i of a list.
fn entry_at(list: &[i64], i: usize) -> Entry
    requires { 2 * i + 1 < length list.now }
    ensures { result ≡ entry_at list.now i }
{
    Entry {
        first: list[2 * i],
        second: list[2 * i + 1],
    }
}

// Entry i of a list that is filled: by index, since std does not say what a slice cut in pairs ends as.
fn put_entry(list: &mut [i64], i: usize, entry: Entry)
    requires { 2 * i + 1 < length list.old }
    ensures { list.new ≡ set (set list.old (2 * i) entry.first) (2 * i + 1) entry.second }
{
    list[2 * i] = entry.first;
    list[2 * i + 1] = entry.second;
}

impl Asked {
    // What the card tells of an entry.
    fn of_card(self, engine: Engine, entry: Entry) -> Result<Entry, Refusal>
        ensures { entry_told result ≡ asked_report engine.pair self engine.card entry.first entry.second }
    {
        let pair = engine.pair();
        let card = engine.card();
        match self {
            Asked::Positions => {
                let position = card.position_in(pair, entry.first, entry.second)?;
                Ok(Entry {
                    first: position.lat,
                    second: position.lon,
                })
            }
            Asked::Pixels => {
                let pixel = card.pixel_in(pair, entry.first, entry.second)?;
                Ok(Entry {
                    first: pixel.row,
                    second: pixel.column,
                })
            }
        }
    }

    // The same without a division, where the entry is on the chart.
    fn on_chart(self, engine: Engine, entry: Entry) -> Option<Entry>
        ensures { Agrees result (asked_report engine.pair self engine.card entry.first entry.second) }
    {
        match self {
            Asked::Positions => engine.position(entry.first, entry.second),
            Asked::Pixels => engine.pixel(entry.first, entry.second),
        }
    }
}

// The entries of the list from one on, as far as the engine answers them; the first that it does not, or how many they are.
fn fill_charted(
    engine: Engine,
    asked: Asked,
    list: &[i64],
    values: &mut [i64],
    from: usize,
) -> usize
    requires fit { length list.now ≤ length values.old }
    requires from_within { from ≤ entries (length list.now) }
    ensures { ChartedEntries (report_at engine.pair asked engine.card list.now) (entries (length list.now)) from result
        values.old values.new }
{
    for i in from..list.len() / 2 {
        let Some(charted) = asked.on_chart(engine, entry_at(list, i)) else {
            return i;
        };
        put_entry(values, i, charted);
    }
    list.len() / 2
}

// The entries of the list from one on, asked of the card up to the first that it does not refuse; the entry after them.
fn fill_asked(
    engine: Engine,
    asked: Asked,
    list: &[i64],
    values: &mut [i64],
    numbers: &mut [u32],
    from: usize,
) -> usize
    requires fit { lists_fit (length list.now) (length values.old) (length numbers.old) ≡ true }
    requires from_within { from < entries (length list.now) }
    ensures told { AskedEntries (report_at engine.pair asked engine.card list.now) (entries (length list.now)) from result
        values.old values.new numbers.old numbers.new }
    ensures further { from < result }
{
    for i in from..list.len() / 2 {
        match asked.of_card(engine, entry_at(list, i)) {
            Ok(answer) => {
                put_entry(values, i, answer);
                numbers[i] = 0;
                return i + 1;
            }
            Err(refusal) => {
                let nothing = Entry {
                    first: 0,
                    second: 0,
                };
                put_entry(values, i, nothing);
                numbers[i] = refusal.number();
            }
        }
    }
    list.len() / 2
}

// What is told of each entry: by the engine, and by the card where the engine stops.
fn fill(engine: Engine, asked: Asked, list: &[i64], values: &mut [i64], numbers: &mut [u32])
    requires { lists_fit (length list.now) (length values.old) (length numbers.old) ≡ true }
    ensures values { values.new
        ≡ values_left (report_at engine.pair asked engine.card) list.now values.old numbers.old }
    ensures numbers { numbers.new
        ≡ numbers_left (report_at engine.pair asked engine.card) list.now values.old numbers.old }
{
    let n = list.len() / 2;
    numbers[..n].fill(0);
    let mut i = fill_charted(engine, asked, list, values, 0);
    // not a `for`: engine and card take turns, and each goes on by as many entries as it answers
    while i < n {
        i = fill_asked(engine, asked, list, values, numbers, i);
        i = fill_charted(engine, asked, list, values, i);
    }
}

/// The answers to the entries of a list, in either pair; a number is 0 where its entry is answered. Refuses `Length`, and then both lists stay.
pub fn answer_list(
    pair: Pair,
    card: Card,
    asked: Asked,
    list: &[i64],
    values: &mut [i64],
    numbers: &mut [u32],
) -> Result<(), Refusal>
    ensures answer { result ≡ lists_verdict (length list.now) (length values.old) (length numbers.old) }
    ensures values { values.new ≡ values_left (report_at pair asked card) list.now values.old numbers.old }
    ensures numbers { numbers.new
        ≡ numbers_left (report_at pair asked card) list.now values.old numbers.old }
{
    if !lists_fit(list.len(), values.len(), numbers.len()) {
        return Err(Refusal::Length);
    }
    fill(Engine::of(pair, card), asked, list, values, numbers);
    Ok(())
}

/// The positions of the centres of a list of pixels; a number is 0 where its pixel is answered. Refuses `Length`, and then both lists stay.
pub fn positions(
    card: Card,
    pixels: &[i64],
    positions: &mut [i64],
    numbers: &mut [u32],
) -> Result<(), Refusal>
    ensures answer { result ≡ lists_verdict (length pixels.now) (length positions.old) (length numbers.old) }
    ensures positions { positions.new
        ≡ values_left (position_report_at Pair.Centre card) pixels.now positions.old numbers.old }
    ensures numbers { numbers.new
        ≡ numbers_left (position_report_at Pair.Centre card) pixels.now positions.old numbers.old }
{
    let asked = Asked::Positions;
    answer_list(Pair::Centre, card, asked, pixels, positions, numbers)
}

/// The pixels that contain a list of positions, likewise.
pub fn pixels(
    card: Card,
    positions: &[i64],
    pixels: &mut [i64],
    numbers: &mut [u32],
) -> Result<(), Refusal>
    ensures answer { result ≡ lists_verdict (length positions.now) (length pixels.old) (length numbers.old) }
    ensures pixels { pixels.new
        ≡ values_left (pixel_report_at Pair.Centre card) positions.now pixels.old numbers.old }
    ensures numbers { numbers.new
        ≡ numbers_left (pixel_report_at Pair.Centre card) positions.now pixels.old numbers.old }
{
    let asked = Asked::Pixels;
    answer_list(Pair::Centre, card, asked, positions, pixels, numbers)
}
