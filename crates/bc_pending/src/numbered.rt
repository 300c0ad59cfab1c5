//! Keys with the numbers of their entries.
ghost use Rattle.std.specs.Prelude.{◌≡◌, ◌++◌, [], ◌∷◌, OnOk};

use bc_key::Key;
use std::alloc::{AllocError, Global};
use std::marker::Model;

/// A key, and the number of the journal's entry that holds it.
#[derive(Clone, Copy, Debug, PartialEq, Eq)]
pub struct Numbered {
    /// The key.
    pub key: Key,
    /// The entry's number.
    pub entry: u64,
}

/// The keys that wait for the next set of one leaf, the oldest first.
#[derive(Drop)]
pub struct Pending {
    keys: Vec<Numbered>,
}

impl Model for Pending {
    ghost use Rattle.std.specs.Prelude.{List};
    ghost use Rattle.bc_pending.specs.declared.numbered.Numbered.{Numbered};

    ghost Value = { List Numbered };

    ghost view = { λ p. p.keys.items };
}

impl Pending {
    /// No keys. Takes no memory.
    pub(crate) fn new(alloc: Global) -> Pending
        ensures { result ≡ [] }
    {
        Pending {
            keys: Vec::new(alloc),
        }
    }

    /// Adds a key behind the others.
    pub(crate) fn push(&mut self, key: Numbered) -> Result<(), AllocError>
        ensures { OnOk result (self.new ≡ self.old ++ key ∷ []) }
    {
        self.keys.push(key)?;
        Ok(())
    }

    /// The keys.
    pub fn as_slice(&self) -> &[Numbered]
        ensures { result.now ≡ self.now }
    {
        self.keys.as_slice()
    }
}
