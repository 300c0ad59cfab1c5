//! Why bytes are no entry.
ghost use Rattle.std.specs.Prelude.{◌≡◌};
ghost use Rattle.bc_jset.specs.EntryBytes.{error_of};
ghost use Rattle.bc_jset.specs.declared.error.JsetError.TheVariants as errors;

use bc_key::KeyError;
use bc_keys::KeysError;

/// Why bytes don't begin with an entry. Of several reasons the first by this order is answered,
/// where `Short` stands once for the header, in front, and once for the words, behind `Version`.
#[derive(Clone, Copy, Debug, PartialEq, Eq, Drop)]
pub enum JsetError {
    /// There are fewer than 240 bytes, or fewer than the count of words asks for, or that count is
    /// above 4,066.
    Short,
    /// The magic isn't that of an entry of this cache set.
    Magic,
    /// The version isn't 1.
    Version,
    /// The checksum isn't that of the bytes behind it.
    Checksum,
    /// The root's level is neither 1 nor 2.
    Level,
    /// The words of some key are no key's, or the size of an extent is above its end.
    Key,
    /// Memory ran out.
    Memory,
}

impl From<KeyError> for JsetError {
    ghost from_gives = { λ _ e. e ≡ errors.Key };

    fn from(_fault: KeyError) -> JsetError {
        JsetError::Key
    }
}

impl From<KeysError> for JsetError {
    ghost from_gives = { λ cause e. e ≡ error_of cause };

    fn from(cause: KeysError) -> JsetError {
        match cause {
            KeysError::Key(_) => JsetError::Key,
            KeysError::Memory => JsetError::Memory,
        }
    }
}
