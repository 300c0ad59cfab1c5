//! A list of keys that is seen as a list.
ghost use Rattle.std.specs.Prelude.{◌≡◌, ◌↔◌, [], length, IsTrue};

use bc_key::Key;
use std::marker::Model;

/// Keys in order.
#[derive(Drop)]
pub struct Keys {
    keys: Vec<Key>,
}

impl Model for Keys {
    ghost use Rattle.std.specs.Prelude.{List};
    ghost use Rattle.bc_key.specs.declared.key.Key.{Key};

    ghost Value = { List Key };

    ghost view = { λ k. k.keys.items };
}

impl Keys {
    /// These keys. Takes no memory.
    pub fn from_vec(keys: Vec<Key>) -> Keys
        ensures { result ≡ keys.items }
    {
        Keys { keys }
    }

    /// The keys. Takes no memory.
    pub fn into_vec(self) -> Vec<Key>
        ensures { result.items ≡ self }
    {
        let Keys { keys } = self;
        keys
    }

    /// The keys.
    pub fn as_slice(&self) -> &[Key]
        ensures { result.now ≡ self.now }
    {
        self.keys.as_slice()
    }

    /// The number of keys.
    pub fn len(&self) -> usize
        ensures { result ≡ length self.now }
    {
        self.keys.len()
    }

    /// Whether there are none.
    pub fn is_empty(&self) -> bool
        ensures { IsTrue result ↔ (self.now ≡ []) }
    {
        self.keys.is_empty()
    }
}
