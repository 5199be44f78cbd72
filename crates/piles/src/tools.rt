// Calls of a device, with faults by their numbers.
#[cfg(test)]
pub mod calls {
    use device::{Device, Fault};

    // An answer whose fault is told by its four numbers: cause, sector, layer and depth.
    pub type Told = Result<(), [u32; 4]>;

    fn told(answer: Result<(), Fault>) -> Told {
        answer.map_err(<[u32; 4]>::from)
    }

    pub fn power<D: Device>(d: &D) -> Told {
        told(d.power())
    }

    // Writes 512 equal bytes.
    pub fn write<D: Device>(d: &mut D, sector: u32, byte: u8) -> Told {
        told(d.write(sector, &[byte; 512]))
    }

    pub fn flush<D: Device>(d: &mut D) -> Told {
        told(d.flush())
    }

    // What a read answers.
    pub fn read<D: Device>(d: &mut D, sector: u32) -> Told {
        let mut buffer = [0; 512];
        told(d.read(sector, &mut buffer))
    }

    // The last byte of a buffer that held 255, after a read.
    pub fn last<D: Device>(d: &mut D, sector: u32) -> u8 {
        let mut buffer = [255; 512];
        let _ = d.read(sector, &mut buffer);
        buffer[511]
    }
}
