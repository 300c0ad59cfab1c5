//! Keys of the index: what stands in a node or a journal entry for a range of sectors.
#![tactic(auto)]

mod cut;
mod error;
mod extent;
mod generation;
mod key;
mod ptr;
mod words;

pub use cut::{cut_back, cut_front};
pub use error::KeyError;
pub use extent::{check_extent, key_cmp};
pub use generation::is_stale;
pub use key::Key;
pub use ptr::Ptr;
pub use words::{decode, encode};

#[cfg(test)]
mod tests {
    use super::*;
    use std::cmp::Ordering;

    /// Sectors 16 to 23, dirty, at sector 2048 of the cache device, and their words.
    const WORDS: [u64; 3] = [0x9000_0010_0080_0000, 0x18, 0x8_0003];

    fn extent() -> Key {
        let pointer = Ptr {
            dev: 0,
            offset: 2048,
            generation: 3,
        };
        Key::new(24, 8, true, Some(pointer))
    }

    #[test]
    fn words(rt: HostRuntime) {
        let key = extent();
        assert!(rt; key.count == 1);
        let mut into = [7; 4];
        assert_eq!(rt; encode(&key, &mut into), 3);
        assert_eq!(rt; into, [WORDS[0], WORDS[1], WORDS[2], 7]);
        assert_eq!(rt; decode(&into), Ok((key, 3)));
        // The ignored bits, all the other way round.
        let free = [
            WORDS[0] ^ 0x8cff_ffe0_0000_0000,
            WORDS[1],
            WORDS[2] ^ (1 << 63),
        ];
        assert_eq!(rt; decode(&free), Ok((key, 3)));
    }

    #[test]
    fn refusals(rt: HostRuntime) {
        for (words, fault) in [
            (&[][..], KeyError::Short),
            (&[0][..], KeyError::Short),
            (&[1 << 60, 0][..], KeyError::Short),
            (&[7 << 60][..], KeyError::Pointers),
        ] {
            assert_eq!(rt; decode(words).err(), Some(fault));
        }
        assert_eq!(rt;
            check_extent(&Key::new(7, 8, false, None)),
            Err(KeyError::SizeOverOffset)
        );
        assert_eq!(rt; check_extent(&Key::new(8, 8, false, None)), Ok(()));
    }

    #[test]
    fn parts(rt: HostRuntime) {
        let key = extent();
        assert!(rt; key.size >= 3 && key.end >= 3);
        let front = cut_front(&key, 3);
        assert_eq!(rt; (front.start(), front.end), (19, 24));
        let back = cut_back(&key, 3);
        assert_eq!(rt; (back.start(), back.end), (16, 21));
        for part in [key, front, back] {
            assert!(rt; part.count > 0 && part.covers(20));
            assert_eq!(rt; part.place(20), 2052);
        }
        assert_eq!(rt; key_cmp(&front, &back), Ordering::Greater);
        assert!(rt; is_stale(2, 250) && is_stale(128, 0));
        assert!(rt; !is_stale(250, 2) && !is_stale(5, 5) && !is_stale(129, 0));
    }
}
