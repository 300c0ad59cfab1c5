//! The memory that the seal of an entry with a new chain takes.
ghost use Rattle.std.specs.Prelude.{◌≡◌, ◌≤◌, [], IfOk, vec_capacity};

use std::alloc::{AllocError, Global};

/// The most words that an entry's record says besides its numbers, the root and the keys: how many
/// words the keys take, the priorities, and two keys of eight words.
const REST_WORDS: usize = 18;

/// The memory for what a seal says of an entry with a new chain. It is taken before the first bucket
/// of the chain is: so no chain that was written waits in vain for an entry.
#[derive(Drop)]
pub struct ChainRoom {
    /// How many buckets the chain may have.
    pub len: u32,
    pub(crate) rest: Vec<u64>,
    pub(crate) chain: Vec<u32>,
    ghost no_rest: { rest.items ≡ [] },
    ghost no_chain: { chain.items ≡ [] },
    ghost words: { 18 ≤ vec_capacity rest },
    ghost buckets: { len ≤ vec_capacity chain },
}

impl ChainRoom {
    /// Takes it, for a chain of so many buckets.
    pub fn new(alloc: Global, len: u32) -> Result<ChainRoom, AllocError>
        ensures { IfOk result (λ room. room.len ≡ len) }
    {
        let rest = Vec::with_capacity(alloc, REST_WORDS)?;
        let chain = Vec::with_capacity(alloc, len as usize)?;
        Ok(ChainRoom { len, rest, chain })
    }
}
