// Elements and the bytes that the format gives them.
#[cfg(test)]
mod tests {
    use element::payload::{NoRoom, fill, pack, parse, unpack};
    use element::{Event, Kind, Mark, UnknownEvent, UnknownKind};
    use std::test::Fail;

    const ALARM: Mark = Mark {
        tick: 1000,
        point: 63,
        event: 1,
    };

    #[test]
    fn samples_at_both_ends(rt: HostRuntime) {
        let mut payload = [0xAA; 6];
        assert!(rt; pack(&[-32_768i16, 32_767], &mut payload).is_ok());
        assert!(rt; &payload == b"\x00\x80\xFF\x7F\xAA\xAA");
        let mut samples = [0i16; 2];
        assert_eq!(rt; unpack(&payload, &mut samples), 2);
        assert_eq!(rt; samples[0], -32_768);
    }

    #[test]
    fn samples_as_bytes(rt: HostRuntime) {
        let mut bytes = [7u8; 5];
        assert_eq!(rt; fill(b"\x00\x80\xFF\x7F", &mut bytes), 4);
        assert!(rt; &bytes == b"\x00\x80\xFF\x7F\x07");
    }

    #[test]
    fn a_mark(rt: HostRuntime) {
        let mut payload = [0; 8];
        assert_eq!(rt; u8::from(Event::Raised), 1);
        assert!(rt; pack(&[ALARM], &mut payload).is_ok());
        assert!(rt; &payload == b"\xE8\x03\0\0\x3F\0\x01\0");
        assert_eq!(rt; parse::<Mark>(&payload), Some(ALARM));
    }

    #[test]
    fn unlawful_bytes(rt: HostRuntime) {
        assert!(rt; parse::<Mark>(b"\xE8\x03\0\0\0\0\x01\0").is_none());
        assert!(rt; parse::<Mark>(b"\xE8\x03\0\0\x10\x27\x01\0").is_none());
        assert!(rt; parse::<Mark>(b"\xE8\x03\0\0\x0F\x27\x03\0").is_some());
        assert!(rt; parse::<Mark>(b"\xE8\x03\0\0\x3F\0\x04\0").is_none());
        assert!(rt; parse::<Mark>(b"\xE8\x03\0\0\x3F\0\x01\x01").is_none());
        assert!(rt; parse::<i16>(b"\0").is_none());
    }

    #[test]
    fn what_fits_a_block(rt: HostRuntime) {
        assert_eq!(rt; Kind::Sound.capacity(), 240);
        assert_eq!(rt; Kind::Mark.capacity(), 60);
        assert_eq!(rt; pack(&[1i16, 2], &mut [0; 3]), Err(NoRoom));
    }

    #[test]
    fn errors_say_why(rt: HostRuntime) -> Result<(), Fail> {
        assert_eq!(rt; Kind::try_from(3), Err(UnknownKind(3)));
        assert_eq!(rt; Event::try_from(4), Err(UnknownEvent(4)));
        let kind = format!(in rt.alloc(); "{}", UnknownKind(3))?;
        assert!(rt; kind.as_str() == "no kind of element has number 3");
        let event = format!(in rt.alloc(); "{}", UnknownEvent(4))?;
        assert!(rt; event.as_str() == "no event has number 4");
        let room = format!(in rt.alloc(); "{}", NoRoom)?;
        assert!(rt; room.as_str() == "the payload has no room for the elements");
        Ok(())
    }
}
