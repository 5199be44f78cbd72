// Lines and what they mean, by docs/REPLAY.md. There is no code here but the tests.
#![tactic(auto)]

#[cfg(test)]
mod tests {
    use element::{Kind, Mark};
    use script::{Command, parse};
    use std::alloc::AllocError;

    // Lines that mean nothing.
    const BAD: [&[u8]; 44] = [
        b"",
        b" ",
        b"record",
        b"Mount",
        b"mount\r",
        b"mount ",
        b" mount",
        b"mount 1",
        b"arm arm",
        b"save\xC3\xA9",
        b"\xFF",
        b"begin",
        b"begin 3",
        b"begin 3 1000 0",
        b"begin  3 1000",
        b"begin 3 1000 ",
        b"begin\t3 1000",
        b"begin 256 1000",
        b"begin 3 4294967296",
        b"begin 3 18446744073709551616",
        b"begin -3 1000",
        b"begin -0 1000",
        b"begin +3 1000",
        b"begin - 1000",
        b"begin 0x3 1000",
        b"begin 3: 1000",
        b"sound",
        b"sound -1",
        b"sound 1 32768",
        b"sound 1 -32769",
        b"sound 1 -0",
        b"sound 1 --1",
        b"sound 1 -",
        b"mark 1 2 3",
        b"mark 1 2 65536 4",
        b"mark 1 2 3 256",
        b"cut ",
        b"cut 1 256",
        b"fuse",
        b"fuse 0",
        b"fuse 4294967296",
        b"format  8000 7",
        b"format sx 8000 7",
        b"format s m 8000 7",
    ];

    #[test]
    fn bad_lines(rt: HostRuntime) -> Result<(), AllocError> {
        for line in BAD {
            assert_eq!(rt; parse(rt.alloc(), line)?, None, "{line:?}");
        }
        Ok(())
    }

    #[test]
    fn names_alone(rt: HostRuntime) -> Result<(), AllocError> {
        assert_eq!(rt; parse(rt.alloc(), b"mount")?, Some(Command::Mount));
        assert_eq!(rt; parse(rt.alloc(), b"arm")?, Some(Command::Arm));
        assert_eq!(rt; parse(rt.alloc(), b"save")?, Some(Command::Save));
        Ok(())
    }

    #[test]
    fn formats(rt: HostRuntime) -> Result<(), AllocError> {
        let kinds = vec![in rt.alloc(); Kind::Sound, Kind::Mark]?;
        let format = Command::Format {
            kinds,
            rate: 44_100,
            sitting: 4_294_967_295,
        };
        assert_eq!(rt;
            parse(rt.alloc(), b"format sm 44100 4294967295")?,
            Some(format)
        );
        let nine = parse(rt.alloc(), b"format smsmsmsms 8000 7")?;
        assert!(rt;
            matches!(&nine, Some(Command::Format { kinds, rate: 8000, sitting: 7 }) if kinds.len() == 9)
        );
        Ok(())
    }

    #[test]
    fn numbers(rt: HostRuntime) -> Result<(), AllocError> {
        let begin = Command::Begin {
            track: 255,
            position: 4_294_967_295,
        };
        assert_eq!(rt; parse(rt.alloc(), b"begin 255 4294967295")?, Some(begin));
        let zeros = Command::Begin {
            track: 3,
            position: 0,
        };
        assert_eq!(rt;
            parse(rt.alloc(), b"begin 00000000000000000000003 000")?,
            Some(zeros)
        );
        assert_eq!(rt;
            parse(rt.alloc(), b"end 12")?,
            Some(Command::End { take: 12 })
        );
        assert_eq!(rt;
            parse(rt.alloc(), b"withdraw 7")?,
            Some(Command::Withdraw { track: 7 })
        );
        assert_eq!(rt;
            parse(rt.alloc(), b"play 0")?,
            Some(Command::Play { track: 0 })
        );
        assert_eq!(rt;
            parse(rt.alloc(), b"fuse 1")?,
            Some(Command::Fuse { count: 1 })
        );
        Ok(())
    }

    #[test]
    fn sounds(rt: HostRuntime) -> Result<(), AllocError> {
        let samples = vec![in rt.alloc(); -32_768i16, -7, 0, 32_767]?;
        let sound = Command::Sound { take: 2, samples };
        assert_eq!(rt;
            parse(rt.alloc(), b"sound 2 -32768 -007 0 32767")?,
            Some(sound)
        );
        let none = Command::Sound {
            take: 2,
            samples: Vec::new(rt.alloc()),
        };
        assert_eq!(rt; parse(rt.alloc(), b"sound 2")?, Some(none));
        Ok(())
    }

    #[test]
    fn marks(rt: HostRuntime) -> Result<(), AllocError> {
        let mark = Mark {
            tick: 1000,
            point: 65_535,
            event: 9,
        };
        assert_eq!(rt;
            parse(rt.alloc(), b"mark 2 1000 65535 9")?,
            Some(Command::Mark { take: 2, mark })
        );
        Ok(())
    }

    #[test]
    fn cuts(rt: HostRuntime) -> Result<(), AllocError> {
        let plan = vec![in rt.alloc(); 0u8, 1, 255]?;
        assert_eq!(rt;
            parse(rt.alloc(), b"cut 0 1 255")?,
            Some(Command::Cut { plan })
        );
        let empty = Command::Cut {
            plan: Vec::new(rt.alloc()),
        };
        assert_eq!(rt; parse(rt.alloc(), b"cut")?, Some(empty));
        Ok(())
    }

    // 2,048 bytes are a line, and one more are none.
    #[test]
    fn the_longest_line(rt: HostRuntime) -> Result<(), AllocError> {
        let mut line = b"fuse ".to_vec(rt.alloc())?;
        line.resize(2047, b'0')?;
        line.push(b'6')?;
        assert_eq!(rt; parse(rt.alloc(), &line)?, Some(Command::Fuse { count: 6 }));
        line.push(b'4')?;
        assert_eq!(rt; parse(rt.alloc(), &line)?, None);
        Ok(())
    }
}
