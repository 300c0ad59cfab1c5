//! Numbers in bytes, and the checksum of the records of a cache image.
#![tactic(auto)]

mod checksum;
mod fields;

pub use checksum::crc64;
pub use fields::{get_u16, get_u32, get_u64, put_u16, put_u32, put_u64};

#[cfg(test)]
mod tests {
    use super::*;

    /// The published check values of two checksums with this polynomial over `123456789`: one
    /// begins with all ones, and the other with 0 and isn't inverted.
    #[test]
    fn checksums(rt: HostRuntime) {
        assert_eq!(rt; crc64(u64::MAX, b"123456789"), 0x62ec_59e3_f1a4_f00a);
        assert_eq!(rt; !crc64(0, b"123456789"), 0x6c40_df5f_0b49_7347);
        assert_eq!(rt; crc64(u64::MAX, b""), 0);
    }

    #[test]
    fn numbers(rt: HostRuntime) {
        let mut bytes = [1, 2, 3, 4, 5, 6, 7, 8, 9];
        assert_eq!(rt; get_u16(&bytes, 7), 0x0908);
        assert_eq!(rt; get_u32(&bytes, 1), 0x0504_0302);
        assert_eq!(rt; get_u64(&bytes, 0), 0x0807_0605_0403_0201);
        put_u16(&mut bytes, 0, 0x2211);
        put_u32(&mut bytes, 3, 0xddcc_bbaa);
        assert_eq!(rt; bytes, [0x11, 0x22, 3, 0xaa, 0xbb, 0xcc, 0xdd, 8, 9]);
        put_u64(&mut bytes, 1, 0x8877_6655_4433_2211);
        assert_eq!(rt;
            bytes,
            [0x11, 0x11, 0x22, 0x33, 0x44, 0x55, 0x66, 0x77, 0x88]
        );
    }
}
