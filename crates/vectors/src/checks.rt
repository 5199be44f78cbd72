// The check of bytes.
#[cfg(test)]
mod tests {
    use sector::crc32;
    use std::process::Abort;
    use std::test::Fail;

    fn agrees(rt: &impl Abort, bytes: &[u8], value: u32) {
        assert_eq!(rt; crc32(bytes), value);
    }

    #[test]
    fn published_texts(rt: HostRuntime) {
        agrees(&rt, b"", 0x0000_0000);
        agrees(&rt, b"a", 0xE8B7_BE43);
        agrees(&rt, b"abc", 0x3524_41C2);
        agrees(&rt, b"123456789", 0xCBF4_3926);
        agrees(&rt, b"message digest", 0x2015_9D7F);
        agrees(&rt, b"abcdefghijklmnopqrstuvwxyz", 0x4C27_50BD);
        agrees(
            &rt,
            b"The quick brown fox jumps over the lazy dog",
            0x414F_A339,
        );
        agrees(
            &rt,
            b"ABCDEFGHIJKLMNOPQRSTUVWXYZabcdefghijklmnopqrstuvwxyz0123456789",
            0x1FC2_E6D2,
        );
        agrees(
            &rt,
            b"12345678901234567890123456789012345678901234567890123456789012345678901234567890",
            0x7CA9_4A72,
        );
    }

    #[test]
    fn published_bytes(rt: HostRuntime) {
        agrees(&rt, &[0x00; 32], 0x190A_55AD);
        agrees(&rt, &[0xFF; 32], 0xFF6C_AB0B);
        agrees(
            &rt,
            b"\x00\x01\x02\x03\x04\x05\x06\x07\x08\x09\x0A\x0B\x0C\x0D\x0E\x0F\x10\x11\x12\x13\x14\x15\x16\x17\x18\x19\x1A\x1B\x1C\x1D\x1E\x1F",
            0x9126_7E8A,
        );
    }

    // Every length from 0 to 600: the checks are folded into one number, which zlib's checks of the same bytes gave too.
    #[test]
    fn every_length(rt: HostRuntime) -> Result<(), Fail> {
        let mut bytes = Vec::new(rt.alloc());
        let mut folded = crc32(&bytes);
        // The index stays: each byte is made of its own place.
        for i in 0..600u32 {
            bytes.push(((i * 7919 + i / 13) & 0xFF) as u8)?;
            folded = folded.rotate_left(5) ^ crc32(&bytes);
        }
        assert_eq!(rt; folded, 0xFA7D_B2D5);
        Ok(())
    }
}
