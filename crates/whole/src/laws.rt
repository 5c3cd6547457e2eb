// The claims of specs/, each the contract of a function that does nothing.
ghost use Rattle.whole.specs.Whole.{FloorIs, CeilIs, NearestIs, ModuloIs, OutsideIs};

/// Floor, ceiling, nearest and remainder of a signed number are what they are called, and the range test is one of size.
#[tactic(auto, using(crate::proofs::Held::claims))]
pub fn numbers_are_as_defined()
    ensures floor { FloorIs }
    ensures ceil { CeilIs }
    ensures nearest { NearestIs }
    ensures modulo { ModuloIs }
    ensures outside { OutsideIs }
{}
