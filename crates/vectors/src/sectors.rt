// Sectors whose bytes were laid out by Python's `struct` and whose checks were computed by zlib.
#[cfg(test)]
mod tests {
    use sector::{Fields, Kind, Record, UnknownKind, decode, encode, seal};
    use std::test::Fail;

    // A block of the samples 10, -20 and 30.
    const BLOCK: Fields = Fields {
        kind: Kind::Block,
        track: 2,
        count: 3,
        sitting: 7,
        place: 5,
        epoch: 2,
        take: 1,
        a: 1000,
        b: 4,
    };

    const BLOCK_START: [u8; 34] =
        *b"\x03\x02\x03\0\x07\0\0\0\x05\0\0\0\x02\0\0\0\x01\0\0\0\xE8\x03\0\0\x04\0\0\0\x0A\0\xEC\xFF\x1E\0";

    // An opening: the first entry of a journal.
    const OPENING: Fields = Fields {
        kind: Kind::Opening,
        track: 0,
        count: 0,
        sitting: 7,
        place: 1,
        epoch: 2,
        take: 0,
        a: 0,
        b: 0,
    };

    // Writes the block over whatever the sector holds.
    fn block(sector: &mut [u8; 512]) {
        let mut payload = [0; 480];
        payload[..6].copy_from_slice(&BLOCK_START[28..]);
        encode(
            Record {
                fields: BLOCK,
                payload: &payload,
            },
            sector,
        );
    }

    // The stored check, as a number.
    fn stored_check(sector: &[u8; 512]) -> u32 {
        u32::from_le_bytes(*sector.last_chunk().unwrap())
    }

    // Stores a kind and a check in the place of those that are there. The kind is a number, since some of those stored here do not exist.
    fn forge(sector: &mut [u8; 512], kind: u8, check: u32) {
        sector[0] = kind;
        sector[508..].copy_from_slice(&check.to_le_bytes());
    }

    #[test]
    fn a_block_is_laid_out(rt: HostRuntime) {
        let mut sector = [0xAA; 512];
        block(&mut sector);
        assert!(rt; &sector[0..34] == &BLOCK_START[..]);
        assert_eq!(rt; sector[34..508].iter().copied().max(), Some(0));
        assert_eq!(rt; stored_check(&sector), 0xA7CA_19FB);
    }

    #[test]
    fn a_block_comes_back(rt: HostRuntime) -> Result<(), Fail> {
        let mut sector = [0xAA; 512];
        block(&mut sector);
        let record = decode(&sector).ok_or_else(|| Fail::new("not sound"))?;
        assert_eq!(rt; record.fields, BLOCK);
        assert_eq!(rt; record.payload[2], 0xEC);
        assert_eq!(rt; record.payload[4], 30);
        Ok(())
    }

    #[test]
    fn an_opening_is_sealed_in_place(rt: HostRuntime) {
        let mut sector = [0; 512];
        seal(OPENING, &mut sector);
        assert_eq!(rt; sector[0], 6);
        assert_eq!(rt; stored_check(&sector), 0x41F4_8ADA);
    }

    // The same opening under kinds that do not exist, each with its right check.
    #[test]
    fn other_kinds_are_refused(rt: HostRuntime) {
        let mut sector = [0; 512];
        seal(OPENING, &mut sector);
        forge(&mut sector, 0, 0xBD4E_1BDF);
        assert!(rt; decode(&sector).is_none());
        forge(&mut sector, 7, 0x8678_CE7B);
        assert!(rt; decode(&sector).is_none());
        forge(&mut sector, 6, 0x41F4_8ADA);
        assert!(rt; decode(&sector).is_some());
    }

    #[test]
    fn an_unknown_kind_is_told_by_its_number(rt: HostRuntime) -> Result<(), Fail> {
        assert_eq!(rt; Kind::try_from(u8::from(Kind::Opening)), Ok(Kind::Opening));
        assert_eq!(rt; Kind::try_from(7), Err(UnknownKind(7)));
        let text = format!(in rt.alloc(); "{}", UnknownKind(7))?;
        assert!(rt; text.as_str() == "no kind of sector has number 7");
        Ok(())
    }

    #[test]
    fn every_damaged_byte_is_noticed(rt: HostRuntime) {
        let mut sector = [0; 512];
        block(&mut sector);
        // The index stays: while one byte is damaged the whole sector is decoded, so no reference to the byte can last.
        for i in 0..512 {
            sector[i] ^= 0x40;
            assert!(rt; decode(&sector).is_none());
            sector[i] ^= 0x40;
        }
        assert!(rt; decode(&sector).is_some());
    }
}
