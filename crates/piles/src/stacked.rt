// Layers over images and over one another.
#[cfg(test)]
mod tests {
    use crate::tools::calls::{flush, last, power, read, write};
    use device::{CuttableDevice, Device};
    use images::{PlainImage, QueuedImage};
    use layers::{Fuse, Mirror};
    use std::test::Fail;

    // Only accepted writes and flushes count.
    #[test]
    fn a_fuse_counts(rt: HostRuntime) -> Result<(), Fail> {
        let mut bytes = vec![in rt.alloc(); 0u8; 512]?;
        let mut d = Fuse::new(PlainImage::new(bytes.as_mut_slice(), [None; 4]));
        d.set(2);
        assert_eq!(rt; write(&mut d, 1, 1), Err([1, 1, 4, 0]));
        assert_eq!(rt; write(&mut d, 0, 1), Ok(()));
        assert_eq!(rt; read(&mut d, 0), Ok(()));
        assert_eq!(rt; power(&d), Ok(()));
        assert_eq!(rt; flush(&mut d), Ok(()));
        assert_eq!(rt; power(&d), Err([3, 0, 4, 0]));
        d.set(5);
        assert_eq!(rt; flush(&mut d), Err([3, 0, 4, 0]));
        assert_eq!(rt; read(&mut d, 7), Err([1, 7, 4, 0]));
        d.cut(&[]);
        assert_eq!(rt; flush(&mut d), Ok(()));
        assert_eq!(rt; last(&mut d, 0), 1);
        Ok(())
    }

    // A queued image of 4 sectors and a fused plain one of 3, with sick sectors on either side and on both.
    #[test]
    fn a_fuse_over_a_mirror(rt: HostRuntime) -> Result<(), Fail> {
        let mut a = vec![in rt.alloc(); 0u8; 2048]?;
        let mut b = vec![in rt.alloc(); 0u8; 1536]?;
        let first = QueuedImage::new(rt.alloc(), a.as_mut_slice(), [Some(1), Some(2), None, None])?;
        let second = Fuse::new(PlainImage::new(b.as_mut_slice(), [Some(2), Some(0), None, None]));
        let mut d = Fuse::new(Mirror::new(first, second));
        assert_eq!(rt; d.size(), 3);
        assert_eq!(rt; read(&mut d, 3), Err([1, 3, 4, 0]));
        assert_eq!(rt; read(&mut d, 2), Err([2, 2, 2, 2]));
        assert_eq!(rt; write(&mut d, 2, 9), Err([2, 2, 2, 2]));
        assert_eq!(rt; write(&mut d, 0, 11), Ok(()));
        assert_eq!(rt; write(&mut d, 0, 12), Ok(()));
        assert_eq!(rt; write(&mut d, 1, 21), Ok(()));
        assert_eq!(rt; last(&mut d, 0), 12);
        assert_eq!(rt; last(&mut d, 1), 21);
        d.cut(&[1]);
        assert_eq!(rt; last(&mut d, 0), 11);
        assert_eq!(rt; last(&mut d, 1), 21);
        Ok(())
    }

    // The fuse below the second side blows in a write that both sides accept.
    #[test]
    fn power_of_either_side(rt: HostRuntime) -> Result<(), Fail> {
        let mut a = vec![in rt.alloc(); 0u8; 512]?;
        let mut b = vec![in rt.alloc(); 0u8; 512]?;
        let first = PlainImage::new(a.as_mut_slice(), [None; 4]);
        let mut second = Fuse::new(PlainImage::new(b.as_mut_slice(), [None; 4]));
        second.set(1);
        let mut d = Mirror::new(first, second);
        assert_eq!(rt; write(&mut d, 0, 3), Ok(()));
        assert_eq!(rt; power(&d), Err([3, 0, 4, 1]));
        assert_eq!(rt; write(&mut d, 0, 4), Err([3, 0, 4, 1]));
        assert_eq!(rt; read(&mut d, 5), Err([1, 5, 3, 0]));
        assert_eq!(rt; flush(&mut d), Err([3, 0, 4, 1]));
        d.cut(&[]);
        assert_eq!(rt; power(&d), Ok(()));
        assert_eq!(rt; last(&mut d, 0), 3);
        Ok(())
    }

    // Four images of different sizes, the smallest with one sector; sector 0 is sick in three of them.
    #[test]
    fn a_mirror_of_mirrors(rt: HostRuntime) -> Result<(), Fail> {
        let mut a = vec![in rt.alloc(); 0u8; 1024]?;
        let mut b = vec![in rt.alloc(); 0u8; 512]?;
        let mut c = vec![in rt.alloc(); 9u8; 1536]?;
        let mut e = vec![in rt.alloc(); 0u8; 2560]?;
        let sick = [Some(0), None, None, None];
        let left = Mirror::new(
            PlainImage::new(a.as_mut_slice(), sick),
            PlainImage::new(b.as_mut_slice(), sick),
        );
        let right = Mirror::new(
            QueuedImage::new(rt.alloc(), c.as_mut_slice(), [None; 4])?,
            PlainImage::new(e.as_mut_slice(), sick),
        );
        let mut d = Mirror::new(left, right);
        assert_eq!(rt; d.size(), 1);
        assert_eq!(rt; write(&mut d, 0, 1), Ok(()));
        assert_eq!(rt; write(&mut d, 0, 2), Ok(()));
        assert_eq!(rt; write(&mut d, 1, 2), Err([1, 1, 3, 0]));
        d.cut(&[7]);
        assert_eq!(rt; last(&mut d, 0), 0);
        assert_eq!(rt; write(&mut d, 0, 4), Ok(()));
        assert_eq!(rt; flush(&mut d), Ok(()));
        d.cut(&[]);
        assert_eq!(rt; last(&mut d, 0), 4);
        Ok(())
    }

    // Sector 0 is sick everywhere: the first image's fault comes up through two mirrors.
    #[test]
    fn sick_everywhere(rt: HostRuntime) -> Result<(), Fail> {
        let mut a = vec![in rt.alloc(); 0u8; 512]?;
        let mut b = vec![in rt.alloc(); 0u8; 512]?;
        let mut c = vec![in rt.alloc(); 0u8; 512]?;
        let sick = [Some(0), None, None, None];
        let left = Mirror::new(
            QueuedImage::new(rt.alloc(), a.as_mut_slice(), sick)?,
            PlainImage::new(b.as_mut_slice(), sick),
        );
        let mut d = Mirror::new(left, PlainImage::new(c.as_mut_slice(), sick));
        assert_eq!(rt; read(&mut d, 0), Err([2, 0, 2, 2]));
        assert_eq!(rt; write(&mut d, 0, 1), Err([2, 0, 2, 2]));
        assert_eq!(rt; last(&mut d, 0), 255);
        assert_eq!(rt; flush(&mut d), Ok(()));
        Ok(())
    }
}
