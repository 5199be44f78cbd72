// Exports: a track of sound as a file.
use images::QueuedImage;
use recorder::{Failed, Refusal};
use sitting::Sitting;
use std::test::Fail;
use wave::Wave;

// The samples 1 and -2 at 8,000 Hz, as Python's `wave` module writes them, and two bytes of the buffer behind them.
const WRITTEN: [u8; 50] = *b"RIFF\x28\0\0\0WAVE\
    fmt \x10\0\0\0\x01\0\x01\0\x40\x1F\0\0\x80\x3E\0\0\x02\0\x10\0\
    data\x04\0\0\0\x01\0\xFE\xFF\x07\x07";

// The answer of an export that is refused.
const fn refused(refusal: Refusal) -> Result<usize, Failed> {
    Err(Failed::Refused(refusal))
}

#[test]
fn an_export(rt: HostRuntime) -> Result<(), Fail> {
    let mut bytes = vec![in rt.alloc(); 0u8; 4096]?;
    let image = QueuedImage::new(rt.alloc(), bytes.as_mut_slice(), [None; 4])?;
    let mut sitting = Sitting::new(image);
    let mut out = [7u8; 50];
    assert!(rt; sitting.export(1, &mut out) == refused(Refusal::NotMounted));
    assert!(rt; sitting.format(&[1, 2], 8000, 7) == Ok(8));
    assert!(rt; sitting.mount() == Ok(0));
    assert!(rt; sitting.arm() == Ok(2));
    assert!(rt; sitting.begin(1, 0) == Ok(1));
    assert!(rt; sitting.record(1, &[1i16, -2]) == Ok(2));
    assert!(rt; sitting.export(3, &mut out) == refused(Refusal::NoSuchTrack));
    assert!(rt; sitting.export(2, &mut out) == refused(Refusal::OtherKind));
    assert!(rt; sitting.export(1, &mut [7u8; 47]) == refused(Refusal::TooShort));
    assert!(rt; out == [7u8; 50]);
    assert!(rt; sitting.export(1, &mut out) == Ok(48));
    assert!(rt; out == WRITTEN);
    let sound = Wave {
        rate: 8000,
        samples: &[1, 0, 0xFE, 0xFF],
    };
    assert!(rt; sitting.export_and_read(1, &mut out) == Ok(Ok(sound)));
    Ok(())
}
