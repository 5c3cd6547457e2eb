// Questions on a card, handed in as its bytes with scale, factor and zone.
ghost use Rattle.std.specs.Prelude.{◌≡◌};
ghost use Rattle.card_text.specs.Write.{write_of, out_of};
ghost use Rattle.card.specs.declared.Pair.{Pair};
ghost use Rattle.card.specs.Read.{card_read, card_read_strict};
ghost use Rattle.card.specs.Grid.{place_of, position_of, pixel_of};
ghost use Rattle.fordcask.specs.Entry.{asked, asked_over, card_block, record_from, refusal_block, place_block, position_block, pixel_block, overview_block};

use arc::Series;
use fordcask::{
    CardParts, OverviewOnCards, PixelOnCard, PlaceOnCard, PositionOnCard, RecordParts, RefusalParts,
};

/// Reads a card, in which blanks may stand before a number's digits. Refuses 1, 17, 1, 2, 3, 6, the subfields' 7 and 8, 9, 10, 11.
#[unsafe(no_mangle)]
pub extern "C" fn fordcask_read_card(series: Series, card: &[u8]) -> CardParts
    ensures { result ≡ card_block (card_read series card.now) }
{
    fordcask::fordcask_read_card(series, card)
}

/// Reads a card none of whose numbers may start with a blank. Refuses as `fordcask_read_card`.
#[unsafe(no_mangle)]
pub extern "C" fn fordcask_read_strict(series: Series, card: &[u8]) -> CardParts
    ensures { result ≡ card_block (card_read_strict series card.now) }
{
    fordcask::fordcask_read_strict(series, card)
}

/// Writes a card. Refuses 1, 24, 17, 1, 2, 3, 6, NFL, NFC (8), BAD (7), 10, 11; on a refusal the output stays.
#[unsafe(no_mangle)]
pub extern "C" fn fordcask_write_card(
    series: Series,
    r: RecordParts,
    out: &mut [u8],
) -> RefusalParts
    ensures answer { result ≡ refusal_block (write_of series (record_from r) out.old) }
    ensures left { out.new ≡ out_of series (record_from r) out.old }
{
    fordcask::fordcask_write_card(series, r, out)
}

/// The place of a pixel. Refuses reading's numbers, then 12.
#[unsafe(no_mangle)]
pub extern "C" fn fordcask_place(series: Series, card: &[u8], row: i64, column: i64) -> PlaceOnCard
    ensures { result ≡ place_block (asked (card_read series card.now) (λ k. place_of k row column)) }
{
    fordcask::fordcask_place(series, card, row, column)
}

/// The position of a pixel's centre. Refuses reading's numbers, then 12, 13.
#[unsafe(no_mangle)]
pub extern "C" fn fordcask_position(
    series: Series,
    card: &[u8],
    row: i64,
    column: i64,
) -> PositionOnCard
    ensures { result ≡ position_block (asked (card_read series card.now) (λ k. position_of Pair.Centre k row column)) }
{
    fordcask::fordcask_position(series, card, row, column)
}

/// The position of a pixel's corner. Refuses reading's numbers, then 12, 13.
#[unsafe(no_mangle)]
pub extern "C" fn fordcask_corner_position(
    series: Series,
    card: &[u8],
    row: i64,
    column: i64,
) -> PositionOnCard
    ensures { result ≡ position_block (asked (card_read series card.now) (λ k. position_of Pair.Corner k row column)) }
{
    fordcask::fordcask_corner_position(series, card, row, column)
}

/// The pixel that contains a position. Refuses reading's numbers, then 4, 5, 12, 13.
#[unsafe(no_mangle)]
pub extern "C" fn fordcask_pixel(series: Series, card: &[u8], lat: i64, lon: i64) -> PixelOnCard
    ensures { result ≡ pixel_block (asked (card_read series card.now) (λ k. pixel_of Pair.Centre k lat lon)) }
{
    fordcask::fordcask_pixel(series, card, lat, lon)
}

/// The pixel whose corner is nearest to a position. Refuses reading's numbers, then 4, 5, 12, 13.
#[unsafe(no_mangle)]
pub extern "C" fn fordcask_corner_pixel(
    series: Series,
    card: &[u8],
    lat: i64,
    lon: i64,
) -> PixelOnCard
    ensures { result ≡ pixel_block (asked (card_read series card.now) (λ k. pixel_of Pair.Corner k lat lon)) }
{
    fordcask::fordcask_corner_pixel(series, card, lat, lon)
}

/// The overview pixel of a chart's pixel, in the corner pair. Refuses reading's numbers, then 12, 13, of the chart first each time.
#[unsafe(no_mangle)]
pub extern "C" fn fordcask_overview_pixel(
    series: Series,
    card: &[u8],
    overview_series: Series,
    overview_card: &[u8],
    row: i64,
    column: i64,
) -> OverviewOnCards
    ensures { result ≡ overview_block (asked_over (card_read series card.now) (card_read overview_series overview_card.now) row column) }
{
    fordcask::fordcask_overview_pixel(series, card, overview_series, overview_card, row, column)
}
