// One image at a time.
#[cfg(test)]
mod tests {
    use crate::tools::calls::{flush, last, power, read, write};
    use device::{CuttableDevice, Device};
    use images::{PlainImage, QueuedImage};
    use std::test::Fail;

    #[test]
    fn bytes_for_no_sector(rt: HostRuntime) -> Result<(), Fail> {
        let mut bytes = vec![in rt.alloc(); 7u8; 511]?;
        let mut d = PlainImage::new(bytes.as_mut_slice(), [None; 4]);
        assert_eq!(rt; d.size(), 0);
        assert_eq!(rt; read(&mut d, 0), Err([1, 0, 1, 0]));
        assert_eq!(rt; write(&mut d, 0, 1), Err([1, 0, 1, 0]));
        assert_eq!(rt; last(&mut d, 0), 255);
        assert_eq!(rt; flush(&mut d), Ok(()));
        d.cut(&[1, 2, 3]);
        assert_eq!(rt; power(&d), Ok(()));
        Ok(())
    }

    #[test]
    fn a_plain_write_settles_at_once(rt: HostRuntime) -> Result<(), Fail> {
        let mut bytes = vec![in rt.alloc(); 0u8; 1030]?;
        {
            let mut d = PlainImage::new(bytes.as_mut_slice(), [Some(0), Some(9), None, None]);
            assert_eq!(rt; d.size(), 2);
            assert_eq!(rt; write(&mut d, 0, 5), Err([2, 0, 1, 0]));
            assert_eq!(rt; read(&mut d, 0), Err([2, 0, 1, 0]));
            assert_eq!(rt; last(&mut d, 0), 255);
            assert_eq!(rt; write(&mut d, 1, 6), Ok(()));
            assert_eq!(rt; write(&mut d, 1, 7), Ok(()));
            d.cut(&[0, 0]);
            assert_eq!(rt; last(&mut d, 1), 7);
        }
        assert!(rt; bytes.len() == 1030);
        assert_eq!(rt; bytes[511], 0);
        assert_eq!(rt; bytes[1023], 7);
        assert_eq!(rt; bytes[1024], 0);
        Ok(())
    }

    // Of the settled content 8 and the waiting 1, 2 and 3 the plan leaves the one that it names, or zeros.
    #[test]
    fn a_plan_chooses(rt: HostRuntime) -> Result<(), Fail> {
        let mut bytes = vec![in rt.alloc(); 8u8; 1024]?;
        let mut d = QueuedImage::new(rt.alloc(), bytes.as_mut_slice(), [None; 4])?;
        // The numbers are the contents that are written.
        for byte in 1..4u8 {
            assert_eq!(rt; write(&mut d, 0, byte), Ok(()));
            assert_eq!(rt; write(&mut d, 1, byte), Ok(()));
        }
        assert_eq!(rt; last(&mut d, 0), 3);
        d.cut(&[2, 9, 1, 1]);
        assert_eq!(rt; last(&mut d, 0), 2);
        assert_eq!(rt; last(&mut d, 1), 0);
        Ok(())
    }

    // A plan that is too short chooses the oldest content, the settled one.
    #[test]
    fn a_missing_choice_is_0(rt: HostRuntime) -> Result<(), Fail> {
        let mut bytes = vec![in rt.alloc(); 8u8; 1024]?;
        let mut d = QueuedImage::new(
            rt.alloc(),
            bytes.as_mut_slice(),
            [None, None, None, Some(0)],
        )?;
        assert_eq!(rt; write(&mut d, 0, 1), Err([2, 0, 2, 0]));
        assert_eq!(rt; write(&mut d, 1, 1), Ok(()));
        assert_eq!(rt; write(&mut d, 2, 1), Err([1, 2, 2, 0]));
        d.cut(&[]);
        assert_eq!(rt; last(&mut d, 1), 8);
        Ok(())
    }

    // The seventeenth write finds the queue full, so the first has settled.
    #[test]
    fn the_oldest_settles_first(rt: HostRuntime) -> Result<(), Fail> {
        let mut bytes = vec![in rt.alloc(); 0u8; 512]?;
        let mut d = QueuedImage::new(rt.alloc(), bytes.as_mut_slice(), [None; 4])?;
        // The numbers are the contents that are written.
        for byte in 1..18u8 {
            assert_eq!(rt; write(&mut d, 0, byte), Ok(()));
        }
        assert_eq!(rt; last(&mut d, 0), 17);
        d.cut(&[]);
        assert_eq!(rt; last(&mut d, 0), 1);
        Ok(())
    }

    #[test]
    fn a_flush_settles_all(rt: HostRuntime) -> Result<(), Fail> {
        let mut bytes = vec![in rt.alloc(); 0u8; 512]?;
        {
            let mut d = QueuedImage::new(rt.alloc(), bytes.as_mut_slice(), [None; 4])?;
            assert_eq!(rt; write(&mut d, 0, 1), Ok(()));
            assert_eq!(rt; write(&mut d, 0, 2), Ok(()));
            assert_eq!(rt; flush(&mut d), Ok(()));
            d.cut(&[]);
            assert_eq!(rt; last(&mut d, 0), 2);
        }
        assert!(rt; bytes.len() == 512);
        assert_eq!(rt; bytes[0], 2);
        Ok(())
    }
}
