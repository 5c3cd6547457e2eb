// The claims of specs/, each the contract of a function that does nothing.
ghost use Rattle.marked_cases.specs.Cases.{MarkedCases};

/// The twelve marked cases hold.
pub fn marked_cases_hold()
    ensures { MarkedCases }
{}
