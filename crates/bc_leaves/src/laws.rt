//! What the definitions come to: each law is the contract of a function.
ghost use Rattle.bc_leaves.specs.Laws.{LawTree, LawJoint};
ghost use Rattle.bc_leaves.specs.Frame.{LawFrame, LawInserts};

/// Every run of parts that fit is a run of the records: what their conditions ask of parts in hand
/// is all that is asked of what a crash may leave. The parts fit afterwards, and whatever the nodes
/// then read as, the durable entry's tree and the sealed one's read right.
pub fn law_tree()
    ensures { LawTree }
{}

/// So is every run of the whole machine of the metadata in which the parts allow each act, and the
/// places and the chains do: `bc_meta::laws::law_crash` holds of it.
pub fn law_joint()
    ensures { LawJoint }
{}

/// An event leaves alone each leaf that it doesn't name.
pub fn law_frame()
    ensures { LawFrame }
{}

/// Several keys of one leaf are so many events.
pub fn law_inserts()
    ensures { LawInserts }
{}
