//! Each law is the contract of a function.
ghost use Rattle.bc_grouped.specs.Grouped.{LawMade, LawRegrouped, LawUnmade};
ghost use Rattle.bc_grouped.specs.Touched.{LawTouched};

/// Buckets in memory stand for the books behind a node that came into a held bucket.
pub fn law_made()
    ensures { LawMade }
{}

/// They do behind a node that went.
pub fn law_unmade()
    ensures { LawUnmade }
{}

/// They do once sectors are in other leaves, and the buckets are touched into which these point.
pub fn law_regrouped()
    ensures { LawRegrouped }
{}

/// The buckets into which the keys of leaves in memory point are those into which the sectors of
/// these leaves do.
pub fn law_touched()
    ensures { LawTouched }
{}
