//! Why bytes are no set.
ghost use Rattle.std.specs.Prelude.{◌≡◌};
ghost use Rattle.bc_set.specs.SetBytes.{error_of};

use bc_keys::KeysError;

/// Why bytes don't begin with a set. Of several reasons the first by this order is answered, where
/// `Short` stands once for the header, in front, and once for the words, behind `Version`.
#[derive(Clone, Copy, Debug, PartialEq, Eq, Drop)]
pub enum SetError {
    /// There are fewer than 32 bytes, or fewer than the count of words asks for.
    Short,
    /// The magic isn't that of a set of this cache set.
    Magic,
    /// The version is neither 0 nor 1.
    Version,
    /// The checksum isn't that of the bytes behind it.
    Checksum,
    /// The words of some key are no key's, or the size of an extent is above its end.
    Key,
    /// Some extent begins before the one before it ends, or some child doesn't end behind the one
    /// before it.
    Order,
    /// Memory ran out.
    Memory,
}

impl From<KeysError> for SetError {
    ghost from_gives = { λ cause e. e ≡ error_of cause };

    fn from(cause: KeysError) -> SetError {
        match cause {
            KeysError::Key(_) => SetError::Key,
            KeysError::Memory => SetError::Memory,
        }
    }
}
