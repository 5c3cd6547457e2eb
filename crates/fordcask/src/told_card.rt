// The blocks of questions on a card: an answer with the total of the card's blanks, or a refusal, in numbers.
ghost use Rattle.std.specs.Prelude.{◌≡◌, Err};
ghost use Rattle.fordcask.specs.Entry.{card_block, record_from, refusal_block, verdict_block, place_block, position_block, pixel_block, overview_block};

use crate::parts::{
    CardParts, OverviewOnCards, PixelOnCard, PlaceOnCard, PositionOnCard, RecordParts,
    RefusalParts, VerdictParts,
};
use crate::read::{OnCard, OnCards};
use arc::Refusal;
use card::{Pixel, Place, Position, Reading};
use card_text::Record;

/// What a refused card holds: nothing.
fn no_card(e: Refusal) -> CardParts
    ensures { result ≡ card_block (Err e) }
{
    CardParts {
        number: e.number(),
        at: e.place(),
        a: 0,
        b: 0,
        n: 0,
        m: 0,
        nul: 0,
        nus: 0,
        nll: 0,
        nls: 0,
        nfl: 0,
        nfc: 0,
        bad: [0; 12],
        tif: 0,
        blanks: 0,
    }
}

impl From<Result<Reading, Refusal>> for CardParts {
    ghost from_gives = { λ answer block. block ≡ card_block answer };

    fn from(answer: Result<Reading, Refusal>) -> Self {
        match answer {
            Ok(Reading { card, blanks }) => {
                let k = card.fields();
                let bad = k.bad;
                CardParts {
                    number: 0,
                    at: 0,
                    a: k.a,
                    b: k.b,
                    n: k.n,
                    m: k.m,
                    nul: k.nul,
                    nus: k.nus,
                    nll: k.nll,
                    nls: k.nls,
                    nfl: k.nfl,
                    nfc: k.nfc,
                    bad,
                    tif: u8::from(k.tif),
                    blanks,
                }
            }
            Err(e) => no_card(e),
        }
    }
}

impl From<RecordParts> for Record {
    ghost from_gives = { λ parts r. r ≡ record_from parts };

    fn from(r: RecordParts) -> Self {
        let bad = r.bad;
        Record {
            n: r.n,
            m: r.m,
            nul: r.nul,
            nus: r.nus,
            nll: r.nll,
            nls: r.nls,
            nfl: r.nfl,
            nfc: r.nfc,
            bad,
            tif: r.tif != 0,
        }
    }
}

impl From<Result<(), Refusal>> for RefusalParts {
    ghost from_gives = { λ answer block. block ≡ refusal_block answer };

    fn from(answer: Result<(), Refusal>) -> Self {
        match answer {
            Ok(()) => RefusalParts { number: 0, at: 0 },
            Err(e) => RefusalParts {
                number: e.number(),
                at: e.place(),
            },
        }
    }
}

impl From<Result<OnCard<()>, Refusal>> for VerdictParts {
    ghost from_gives = { λ answer block. block ≡ verdict_block answer };

    fn from(answer: Result<OnCard<()>, Refusal>) -> Self {
        match answer {
            Ok(OnCard { blanks, .. }) => VerdictParts {
                number: 0,
                at: 0,
                blanks,
            },
            Err(e) => VerdictParts {
                number: e.number(),
                at: e.place(),
                blanks: 0,
            },
        }
    }
}

impl From<Result<OnCard<Place>, Refusal>> for PlaceOnCard {
    ghost from_gives = { λ answer block. block ≡ place_block answer };

    fn from(answer: Result<OnCard<Place>, Refusal>) -> Self {
        match answer {
            Ok(OnCard { answer, blanks }) => PlaceOnCard {
                number: 0,
                at: 0,
                row: answer.row,
                column: answer.column,
                blanks,
            },
            Err(e) => PlaceOnCard {
                number: e.number(),
                at: e.place(),
                row: 0,
                column: 0,
                blanks: 0,
            },
        }
    }
}

impl From<Result<OnCard<Position>, Refusal>> for PositionOnCard {
    ghost from_gives = { λ answer block. block ≡ position_block answer };

    fn from(answer: Result<OnCard<Position>, Refusal>) -> Self {
        match answer {
            Ok(OnCard { answer, blanks }) => PositionOnCard {
                number: 0,
                at: 0,
                lat: answer.lat,
                lon: answer.lon,
                blanks,
            },
            Err(e) => PositionOnCard {
                number: e.number(),
                at: e.place(),
                lat: 0,
                lon: 0,
                blanks: 0,
            },
        }
    }
}

impl From<Result<OnCard<Pixel>, Refusal>> for PixelOnCard {
    ghost from_gives = { λ answer block. block ≡ pixel_block answer };

    fn from(answer: Result<OnCard<Pixel>, Refusal>) -> Self {
        match answer {
            Ok(OnCard { answer, blanks }) => PixelOnCard {
                number: 0,
                at: 0,
                row: answer.row,
                column: answer.column,
                blanks,
            },
            Err(e) => PixelOnCard {
                number: e.number(),
                at: e.place(),
                row: 0,
                column: 0,
                blanks: 0,
            },
        }
    }
}

impl From<Result<OnCards<Pixel>, Refusal>> for OverviewOnCards {
    ghost from_gives = { λ answer block. block ≡ overview_block answer };

    fn from(answer: Result<OnCards<Pixel>, Refusal>) -> Self {
        match answer {
            Ok(
                OnCards {
                    answer,
                    blanks,
                    overview_blanks,
                },
            ) => OverviewOnCards {
                number: 0,
                at: 0,
                row: answer.row,
                column: answer.column,
                blanks,
                overview_blanks,
            },
            Err(e) => OverviewOnCards {
                number: e.number(),
                at: e.place(),
                row: 0,
                column: 0,
                blanks: 0,
                overview_blanks: 0,
            },
        }
    }
}
