//! The few keys that come in the place of others.

ghost use Rattle.std.specs.Prelude.{◌≡◌, ◌<◌, ◌++◌, [], length, option_to_list};

use bc_key::Key;
use std::marker::Model;

/// At most three keys, which take no memory.
#[derive(Drop)]
pub struct Parts {
    keys: [Key; 3],
    count: usize,
}

impl Model for Parts {
    ghost use Rattle.std.specs.Prelude.{List, ◌≤◌, take};
    ghost use Rattle.bc_key.specs.declared.key.Key.{Key};

    ghost Value = { List Key };

    ghost view = { λ p. take p.count p.keys };

    ghost invariant = { λ p. p.count ≤ 3 };
}

impl Parts {
    /// No keys.
    pub fn new() -> Parts
        ensures { result ≡ [] }
    {
        Parts {
            keys: [Key::new(0, 0, false, None); 3],
            count: 0,
        }
    }

    /// Adds a key, if there is one.
    pub fn add(&mut self, key: Option<Key>)
        requires { length self.old < 3 }
        ensures { self.new ≡ self.old ++ option_to_list key }
    {
        if let Some(key) = key {
            self.keys[self.count] = key;
            self.count += 1;
        }
    }

    /// The keys, in the order in which they were added.
    pub fn as_slice(&self) -> &[Key]
        ensures { result.now ≡ self.now }
    {
        &self.keys[..self.count]
    }
}
