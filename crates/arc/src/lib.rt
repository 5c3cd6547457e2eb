//! The ARC system's zones and pixel spacing (DIGEST, "The ARC System", Tables 3-1 and 3-5, 3.4.6), and why a question is refused.
#![tactic(auto)]

pub mod laws;
mod refusal;
mod scale;
mod series;
mod units;
mod zone;
mod zone_table;

pub use refusal::Refusal;
pub use scale::{Pixels, Scale};
pub use series::{Series, Spacing, b_constant};
pub use units::{Circle, Overlap, Scales, Tile, is_polar, is_scale};
pub use zone::{
    Meridian, Spaced, Zone, Zone1, Zone2, Zone3, Zone4, Zone5, Zone6, Zone7, Zone8, Zone9,
};
pub use zone_table::{Row, TABLE, equatorward, northern, poleward, southern};
