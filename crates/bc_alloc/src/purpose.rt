//! What a bucket is taken for.
ghost use Rattle.std.specs.Prelude.{◌≡◌, ◌<◌};
ghost use Rattle.bc_alloc.specs.Reserves.{place_of};

/// What a bucket is taken for.
#[derive(Clone, Copy, Debug, PartialEq, Eq, Drop)]
pub enum Purpose {
    /// A set of priorities and generations.
    Priorities,
    /// Data that is moved together, or a node that is written anew.
    Moving,
    /// A node that is split off, or a new inner node.
    Tree,
    /// Data.
    Plain,
}

impl Purpose {
    // The place of its list, in the order in which lists are filled.
    pub(crate) fn place(self) -> usize
        ensures place { result ≡ place_of self }
        ensures small { result < 4 }
    {
        match self {
            Purpose::Priorities => 0,
            Purpose::Moving => 1,
            Purpose::Tree => 2,
            Purpose::Plain => 3,
        }
    }
}

/// No bucket is on the list of the purpose or on the plain one.
#[derive(Clone, Copy, Debug, PartialEq, Eq, Drop)]
pub struct NoBucket {
    pub purpose: Purpose,
    /// The length of the plain list.
    pub none_len: u32,
    /// The length of the purpose's own list.
    pub own_len: u32,
}
