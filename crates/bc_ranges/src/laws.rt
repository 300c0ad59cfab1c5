//! What holds of every run: the law is the contract of a function.
ghost use Rattle.bc_ranges.specs.Laws.{LawNodes};

/// In each image that a crash may leave behind a run from an opening of a sound pair, each key of a
/// node lies in the node's range, and an inner node's children cover it; each node is pointed to by
/// a key of a node, whole in a data bucket, and no other node lies in that bucket; the root reaches
/// to the end of all sectors; the newest entry names the uuid table that the pair had; and each key
/// of data lies whole in data, and is of data that the backing device has.
///
/// The premises are that no torn record matches by chance, and that what the run brings is well
/// made, each key and each node by itself.
pub fn law_nodes()
    ensures { LawNodes }
{}
