// The claims of specs/, each the contract of a function that does nothing.
ghost use Rattle.zones.specs.Cover.{AtMostSix};
ghost use Rattle.zones.specs.CoverAll.{CoverListed};
ghost use Rattle.zones.specs.ZoneRule.{ZoneRule};

/// The zone answered is that of the one printed row which holds the latitude.
#[tactic(auto, using(crate::proofs::ZoneRule::claims))]
pub fn basic_zone_is_by_the_printed_rows()
    ensures { ZoneRule }
{}

/// The list has every zone that covers the latitude, no other, and at most six.
#[tactic(auto, using(crate::proofs::CoverAll::claims))]
pub fn cover_lists_all()
    ensures listed { CoverListed }
    ensures six { AtMostSix }
{}
