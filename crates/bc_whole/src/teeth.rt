//! What goes wrong where acts of the machines below don't go together: each machine allows its
//! part, and a law is broken all the same.
ghost use Rattle.bc_whole.specs.Teeth.{LawTeethLetGo, LawTeethDrop, LawTeethKeys};

/// A bucket is let go in which a crash may find a node: it may be raised.
pub fn law_teeth_let_go()
    ensures { LawTeethLetGo }
{}

/// An install gives up a bucket in which a node still is: it may be raised.
pub fn law_teeth_drop()
    ensures { LawTeethDrop }
{}

/// Keys come into a leaf that aren't the books': a crash shows what was never written, after an
/// acknowledged write.
pub fn law_teeth_keys()
    ensures { LawTeethKeys }
{}
