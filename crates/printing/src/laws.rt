// The claims of specs/, each the contract of a function that does nothing.
ghost use Rattle.printing.specs.Example.{WorkedExample};
ghost use Rattle.printing.specs.Run.{RunPrints, RunEnds, NeverBack};

/// What `opening` prints, and then `pixel_line` from each next offset on, is all that is to be printed; such a run ends, and never goes back.
#[tactic(auto, using(crate::proofs::Prints::run_prints, crate::proofs::Served::runs))]
pub fn a_run_prints_the_whole()
    ensures prints { RunPrints }
    ensures ends { RunEnds }
    ensures never_back { NeverBack }
{}

/// The worked example is printed as it stands in specs/.
#[tactic(auto, using(crate::proofs::Shown::worked_example))]
pub fn prints_the_worked_example()
    ensures { WorkedExample }
{}
