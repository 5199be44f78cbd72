// A log whose sectors were laid out by Python's `struct` and whose checks were computed by zlib.
#[cfg(test)]
mod tests {
    use element::Kind;
    use journal::{Header, Session};
    use takes::Outline;

    // A sector's bytes up to the last that is not zero, its check, and the entry that it is.
    type Entry<'a> = (&'a [u8], u32, Outline);

    // A recording of sound and of marks at 8,000 samples a second, with sitting number 7.
    const HEADER: Header = Header {
        sitting: 7,
        rate: 8_000,
        tracks: 2,
        kinds: [
            Kind::Sound,
            Kind::Mark,
            Kind::Sound,
            Kind::Sound,
            Kind::Sound,
            Kind::Sound,
            Kind::Sound,
            Kind::Sound,
        ],
    };

    // The entries of its log.
    const LOG: [Entry; 8] = [
        // an opening
        (
            b"\x06\0\0\0\x07\0\0\0\x01\0\0\0\x02",
            0x41F4_8ADA,
            Outline::Opening,
        ),
        // take 1 on track 1, from its start
        (
            b"\x02\x01\0\0\x07\0\0\0\x02\0\0\0\x02\0\0\0\x01",
            0xD890_3FDE,
            Outline::Begin {
                track: 1,
                position: 0,
            },
        ),
        // 10 -20 30
        (
            b"\x03\x01\x03\0\x07\0\0\0\x03\0\0\0\x02\0\0\0\x01\0\0\0\0\0\0\0\x02\0\0\0\x0A\0\xEC\xFF\x1E",
            0x5754_AEEC,
            Outline::Block { take: 1, count: 3 },
        ),
        // another opening
        (
            b"\x06\0\0\0\x07\0\0\0\x04\0\0\0\x03",
            0xBE0C_C366,
            Outline::Opening,
        ),
        // take 2, from position 1
        (
            b"\x02\x01\0\0\x07\0\0\0\x05\0\0\0\x03\0\0\0\x02\0\0\0\x01",
            0x5A21_654B,
            Outline::Begin {
                track: 1,
                position: 1,
            },
        ),
        // 99
        (
            b"\x03\x01\x01\0\x07\0\0\0\x06\0\0\0\x03\0\0\0\x02\0\0\0\0\0\0\0\x05\0\0\0\x63",
            0x2CB9_EF39,
            Outline::Block { take: 2, count: 1 },
        ),
        // its trailer
        (
            b"\x04\x01\0\0\x07\0\0\0\x07\0\0\0\x03\0\0\0\x02\0\0\0\x01\0\0\0\x06",
            0x1FCE_E3C0,
            Outline::Trailer { take: 2 },
        ),
        // its withdrawal
        (
            b"\x05\x01\0\0\x07\0\0\0\x08\0\0\0\x03\0\0\0\x02\0\0\0\0\0\0\0\x05",
            0xE42D_17DC,
            Outline::Withdrawal { track: 1, take: 2 },
        ),
    ];

    // A sector of bytes, then zeros, then a check.
    fn sector(front: &[u8], check: u32) -> [u8; 512] {
        let mut sector = [0; 512];
        let len = front.len().min(508);
        sector[..len].copy_from_slice(&front[..len]);
        sector[508..].copy_from_slice(&check.to_le_bytes());
        sector
    }

    // The header's sector.
    fn header_sector() -> [u8; 512] {
        sector(
            b"\x01\x02\0\0\x07\0\0\0\0\0\0\0\x01\0\0\0\0\0\0\0\x40\x1F\0\0\0\0\0\0\x01\x02",
            0x5AEE_6C0B,
        )
    }

    // The sectors of the log's entries.
    fn sectors() -> [[u8; 512]; 8] {
        let mut sectors = [[0; 512]; 8];
        for (i, (front, check, _)) in LOG.iter().enumerate() {
            sectors[i] = sector(front, *check);
        }
        sectors
    }

    #[test]
    fn a_header_is_written(rt: HostRuntime) {
        let mut written = [0xAA; 512];
        HEADER.write(&mut written);
        assert!(rt; written == header_sector());
    }

    #[test]
    fn a_header_is_read(rt: HostRuntime) {
        assert_eq!(rt; Header::read(&header_sector()), Some(HEADER));
    }

    #[test]
    fn a_log_is_taken_in(rt: HostRuntime) {
        let mut session = Session::new(HEADER);
        for (front, check, entry) in &LOG {
            assert_eq!(rt; session.absorb(&sector(front, *check)), Some(*entry));
        }
        assert_eq!(rt; session.entries(), 8);
        assert_eq!(rt; session.epoch(), 3);
    }

    // The trailer that take 1 got in the second epoch, in the place of the opening that took its sector later.
    #[test]
    fn a_leftover_ends_the_log(rt: HostRuntime) {
        let mut session = Session::new(HEADER);
        let all = sectors();
        for sector in &all[..4] {
            let _ = session.absorb(sector);
        }
        let leftover = sector(
            b"\x04\x01\0\0\x07\0\0\0\x04\0\0\0\x02\0\0\0\x01\0\0\0\x04\0\0\0\x03",
            0xFE25_563F,
        );
        assert_eq!(rt; session.absorb(&leftover), None);
        assert_eq!(rt; session.entries(), 4);
    }

    // What track 1 holds from its start after so many sectors of the log.
    fn heard(sectors: &[[u8; 512]]) -> [i16; 4] {
        let mut session = Session::new(HEADER);
        for sector in sectors {
            let _ = session.absorb(sector);
        }
        let mut samples = [7i16; 4];
        session.paint_all(1, 0, sectors, &mut samples);
        samples
    }

    #[test]
    fn a_take_is_laid_over_another(rt: HostRuntime) {
        assert_eq!(rt; heard(&sectors()[..6]), [10, 99, 30, 7]);
    }

    #[test]
    fn a_withdrawn_take_is_not_heard(rt: HostRuntime) {
        assert_eq!(rt; heard(&sectors()), [10, -20, 30, 7]);
    }

    // The bytes of the samples after the first, as an export has them.
    #[test]
    fn bytes_are_painted_too(rt: HostRuntime) {
        let all = sectors();
        let mut session = Session::new(HEADER);
        for sector in &all {
            let _ = session.absorb(sector);
        }
        let mut bytes = [0xAAu8; 5];
        session.paint_all(1, 1, &all, &mut bytes);
        assert_eq!(rt; bytes, [0xEC, 0xFF, 30, 0, 0xAA]);
    }
}
