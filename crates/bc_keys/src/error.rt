//! Why words weren't read as keys.
ghost use Rattle.std.specs.Prelude.{◌≡◌};
ghost use Rattle.bc_keys.specs.declared.error.KeysError.TheVariants as errors;

use bc_key::KeyError;
use std::alloc::AllocError;

/// Why words weren't read as a list of keys.
#[derive(Clone, Copy, Debug, PartialEq, Eq, Drop)]
pub enum KeysError {
    /// Behind the keys before it stand words that are no key's.
    Key(KeyError),
    /// Memory ran out.
    Memory,
}

impl From<KeyError> for KeysError {
    ghost from_gives = { λ fault e. e ≡ errors.Key fault };

    fn from(fault: KeyError) -> KeysError {
        KeysError::Key(fault)
    }
}

impl From<AllocError> for KeysError {
    ghost from_gives = { λ _ e. e ≡ errors.Memory };

    fn from(_failed: AllocError) -> KeysError {
        KeysError::Memory
    }
}
