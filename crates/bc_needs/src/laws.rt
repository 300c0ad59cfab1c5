//! What no leaf waits for: each law is the contract of a function.
ghost use Rattle.bc_needs.specs.Needs.{LawLasts, LawUntouched};

/// What no leaf waits for, none ever will.
pub fn law_lasts()
    ensures { LawLasts }
{}

/// An event that doesn't touch the journal makes no leaf wait for more.
pub fn law_untouched()
    ensures { LawUntouched }
{}
