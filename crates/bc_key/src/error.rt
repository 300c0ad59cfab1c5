/// Why words are no key, or a key is no extent.
#[derive(Clone, Copy, Debug, PartialEq, Eq)]
pub enum KeyError {
    /// There are fewer words than the key needs.
    Short,
    /// The count of pointers is 7, and a key has at most 6.
    Pointers,
    /// The size is above the end, so that the range would begin before sector 0.
    SizeOverOffset,
}
