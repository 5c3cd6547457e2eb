// The blocks of questions on a tile index.
ghost use Rattle.std.specs.Prelude.{◌≡◌};
ghost use Rattle.fordcask.specs.Tiles.{bands_block, window_block, tile_block, corrected_tile_block};
ghost use Rattle.fordcask.specs.Steps.{Numbered};

use crate::parts::{BandsOnCard, CorrectedTile, TileParts, WindowOnCard};
use crate::read::OnCard;
use arc::{Refusal, Tile};
use tiles::{Bands, Source, Stored};

impl From<Result<OnCard<Bands>, Refusal>> for BandsOnCard {
    ghost from_gives = { λ answer block. block ≡ bands_block answer };

    fn from(answer: Result<OnCard<Bands>, Refusal>) -> Self {
        match answer {
            Ok(OnCard { answer, blanks }) => BandsOnCard {
                number: 0,
                at: 0,
                red: answer.red,
                green: answer.green,
                blue: answer.blue,
                blanks,
            },
            Err(e) => BandsOnCard {
                number: e.number(),
                at: e.place(),
                red: 0,
                green: 0,
                blue: 0,
                blanks: 0,
            },
        }
    }
}

impl From<Result<OnCard<Option<u64>>, Refusal>> for WindowOnCard {
    ghost from_gives = { λ answer block. block ≡ window_block answer };

    fn from(answer: Result<OnCard<Option<u64>>, Refusal>) -> Self {
        match answer {
            Ok(OnCard { answer, blanks }) => WindowOnCard {
                number: 0,
                at: 0,
                missing: u64::from(answer.is_some()),
                tile: answer.unwrap_or(0),
                blanks,
            },
            Err(e) => WindowOnCard {
                number: e.number(),
                at: e.place(),
                missing: 0,
                tile: 0,
                blanks: 0,
            },
        }
    }
}

/// A tile of the one store.
pub fn tile_block(answer: Result<OnCard<Stored>, Refusal>) -> TileParts
    requires { Numbered answer }
    ensures { result ≡ tile_block answer }
{
    match answer {
        Ok(OnCard { answer, blanks }) => TileParts {
            number: 0,
            at: 0,
            stored: answer.number,
            offset: (answer.number - 1) * Tile::BYTES,
            length: Tile::BYTES,
            blanks,
        },
        Err(e) => TileParts {
            number: e.number(),
            at: e.place(),
            stored: 0,
            offset: 0,
            length: 0,
            blanks: 0,
        },
    }
}

/// A tile of whichever of the two stores holds it.
pub fn corrected_tile_block(answer: Result<OnCard<Stored>, Refusal>) -> CorrectedTile
    requires { Numbered answer }
    ensures { result ≡ corrected_tile_block answer }
{
    match answer {
        Ok(OnCard { answer, blanks }) => CorrectedTile {
            number: 0,
            at: 0,
            source: match answer.source {
                Source::Base => 0,
                Source::Corrections => 1,
            },
            stored: answer.number,
            offset: (answer.number - 1) * Tile::BYTES,
            length: Tile::BYTES,
            blanks,
        },
        Err(e) => CorrectedTile {
            number: e.number(),
            at: e.place(),
            source: 0,
            stored: 0,
            offset: 0,
            length: 0,
            blanks: 0,
        },
    }
}
