// The bytes of an image taken as sectors, and which of them are sick.
ghost use Rattle.std.specs.Prelude.{◌≡◌, ◌<◌};
ghost use Rattle.device.specs.Faults.{layer_number};
ghost use Rattle.images.specs.Sectors.{whole, content, ready};
ghost use Rattle.images.specs.Queue.{settle_write};
ghost use Rattle.images.specs.Rewrites.{Rewrites, Stores};

use crate::queue::WaitingWrite;
use device::fault::in_range;
use device::{Fault, Layer};

// Bytes that the caller lends, taken as sectors, and up to four sectors that are sick: an array of options, which needs no memory
// and of which none has to be refused.
#[derive(Drop)]
pub struct Sectors<'a> {
    pub bytes: &'a mut [u8],
    pub sick: [Option<u32>; 4],
}

impl<'a> Sectors<'a> {
    // How many whole sectors there are, 65,536 at most.
    pub fn count(&self) -> u32
        ensures { result ≡ whole self.now.bytes.now }
    {
        (self.bytes.len() / 512).min(65536) as u32
    }

    // Whether the sector may be read and written: the layer has it, and it is not sick.
    pub fn ready(&self, layer: Layer, sector: u32) -> Result<(), Fault>
        ensures { result ≡ ready (layer_number layer) (whole self.now.bytes.now) self.now.sick sector }
    {
        in_range(layer.into(), self.count(), sector)?;
        if self.sick.contains(&Some(sector)) {
            return Err(Fault::sick(layer.into(), sector));
        }
        Ok(())
    }

    // Copies the sector into the buffer.
    pub fn load(&self, sector: u32, buffer: &mut [u8; 512])
        requires { sector < whole self.now.bytes.now }
        ensures { buffer.new ≡ content self.now.bytes.now sector }
    {
        let start = 512 * sector as usize;
        buffer.copy_from_slice(&self.bytes[start..start + 512]);
    }

    // Copies the content into the sector.
    pub fn store(&mut self, sector: u32, content: &[u8; 512])
        requires { sector < whole self.old.bytes.now }
        ensures { Stores self.old sector content.now self.new }
    {
        let start = 512 * sector as usize;
        self.bytes[start..start + 512].copy_from_slice(content);
    }

    // Settles the write; one past the last whole sector settles nowhere.
    pub fn settle(&mut self, write: &WaitingWrite)
        ensures { Rewrites self.old (settle_write self.old.bytes.now write.now) self.new }
    {
        if write.sector < self.count() {
            self.store(write.sector, &write.content);
        }
    }
}
