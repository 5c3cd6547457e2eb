// The claims of specs/, each the contract of a function that does nothing.
ghost use Rattle.convert.specs.Convert.{ToBitsForms, ToListForms, FormsInOrder, BitsAndBack, ListAndBack};

/// What is written is the other form of what was handed in, and each conversion undoes the other.
pub fn forms_are_kept()
    ensures bits { ToBitsForms }
    ensures list { ToListForms }
    ensures order { FormsInOrder }
    ensures bits_and_back { BitsAndBack }
    ensures list_and_back { ListAndBack }
{}
