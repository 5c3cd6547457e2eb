// The overview pixel of a chart's pixel, in the corner pair.
ghost use Rattle.std.specs.Prelude.{◌≡◌};
ghost use Rattle.card.specs.Overview.{overview_pixel_of};

use crate::{Card, Pair, Pixel};
use arc::Refusal;

impl Card {
    /// The overview's pixel at the position of this chart's pixel. Refuses a pixel outside the tiles or in padding of the chart, then of the
    /// overview.
    #[tactic(auto, unfolding(crate::specs::Overview::overview_pixel_of))]
    pub fn overview_pixel(self, overview: Card, row: i64, column: i64) -> Result<Pixel, Refusal>
        ensures { result ≡ overview_pixel_of self overview row column }
    {
        let position = self.position_in(Pair::Corner, row, column)?;
        overview.pixel_in(Pair::Corner, position.lat, position.lon)
    }
}
