//! A bucket that a seat holds.
ghost use Rattle.std.specs.Prelude.{◌≡◌};

use bc_alloc::Purpose;
use bc_key::Ptr;

/// What a seat wants a bucket for.
#[derive(Clone, Copy, Debug, PartialEq, Eq)]
pub enum Want {
    /// A set of priorities and generations.
    Chain,
    /// Data that is moved together.
    Data,
    /// A node that is split off, or a new inner node.
    Node,
    /// A node that is written anew.
    Rewrite,
}

impl Want {
    ghost use Rattle.bc_held.specs.Next.{list_for, purpose_for};

    /// What the bucket is taken for.
    pub fn purpose(self) -> Purpose
        ensures { result ≡ purpose_for self }
    {
        match self {
            Want::Chain => Purpose::Priorities,
            Want::Data => Purpose::Moving,
            Want::Node => Purpose::Tree,
            Want::Rewrite => Purpose::Tree,
        }
    }

    /// The list that gives it where the plain one is empty.
    pub fn list(self) -> Purpose
        ensures { result ≡ list_for self }
    {
        match self {
            Want::Chain => Purpose::Priorities,
            Want::Data => Purpose::Moving,
            Want::Node => Purpose::Tree,
            Want::Rewrite => Purpose::Moving,
        }
    }
}

/// A bucket that a seat took for something else than data in order.
#[derive(Clone, Copy, Debug, PartialEq, Eq)]
pub struct HeldBucket {
    /// Its number, of all buckets of the device.
    pub bucket: u32,
    /// Where it begins, with the generation that it has.
    pub to: Ptr,
    /// What it was taken for.
    pub purpose: Purpose,
}
