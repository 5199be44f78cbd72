// WAVE files as Python's `wave` module writes them.
#[cfg(test)]
mod tests {
    use std::alloc::AllocError;
    use wave::{Refusal, header, read};

    // The samples 10, -20 and 30 at 8,000 Hz.
    const FILE: [u8; 50] = *b"RIFF\x2A\0\0\0WAVE\
        fmt \x10\0\0\0\x01\0\x01\0\x40\x1F\0\0\x80\x3E\0\0\x02\0\x10\0\
        data\x06\0\0\0\x0A\0\xEC\xFF\x1E\0";

    #[test]
    fn a_header_is_laid_out(rt: HostRuntime) {
        assert!(rt; header(8000, 3).as_slice() == &FILE[..44]);
    }

    #[test]
    fn a_file_is_read(rt: HostRuntime) -> Result<(), Refusal> {
        let sound = read(&FILE)?;
        assert_eq!(rt; sound.rate, 8000);
        assert!(rt; sound.samples == &FILE[44..]);
        assert_eq!(rt; sound.count(), 3);
        assert_eq!(rt; sound.peak(), 30);
        Ok(())
    }

    #[test]
    fn every_damaged_header_byte_is_refused(rt: HostRuntime) {
        let mut file = FILE;
        // The index stays, since an iterator is no plainer: it would hold the bytes while the whole file is read.
        for i in 0..44 {
            file[i] ^= 0x01;
            assert!(rt; read(&file).is_err());
            file[i] ^= 0x01;
        }
        assert!(rt; read(&file).is_ok());
    }

    #[test]
    fn every_other_length_is_refused(rt: HostRuntime) {
        // The number stays, since no form without it is plainer: it is the length that is tried.
        for n in 0..50 {
            assert!(rt; read(&FILE[..n]).is_err());
        }
        assert_eq!(rt; u8::from(Refusal::NotWave), 21);
    }

    #[test]
    fn a_refusal_says_why(rt: HostRuntime) -> Result<(), AllocError> {
        let text = format!(in rt.alloc(); "{}", Refusal::NotWave)?;
        assert!(rt; text.as_str() == "not a sound that an export writes");
        Ok(())
    }
}
