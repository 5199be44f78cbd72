// The plain image.
ghost use Rattle.std.specs.Prelude.{◌≡◌, [], ◌∷◌, refl, Ok};
ghost use Rattle.device.specs.Calls.{Reads, Writes, Flushes};
ghost use Rattle.images.specs.Sectors.{whole, ready};
ghost use Rattle.images.specs.Plain.{plain_number, plain_meaning, plain_lawful, plain_pile, plain_named, PlainMade, PlainReads, PlainWrites, PlainFlushes, PlainCuts};

use crate::sectors::Sectors;
use device::{CuttableDevice, Device, Fault, Layer};

// An image whose writes settle at once.
#[derive(Drop)]
pub struct PlainImage<'a> {
    sectors: Sectors<'a>,
}

impl<'a> PlainImage<'a> {
    // An image over the whole sectors of the bytes, with up to four sick sectors.
    pub fn new(bytes: &'a mut [u8], sick: [Option<u32>; 4]) -> PlainImage<'a>
        ensures { PlainMade sick bytes.entry result }
    {
        PlainImage {
            sectors: Sectors { bytes, sick },
        }
    }

    // Writes a sector that is ready.
    fn place(&mut self, sector: u32, content: &[u8; 512])
        requires { ready plain_number (whole self.old.sectors.bytes.now) self.old.sectors.sick sector ≡ Ok tt }
        ensures meets { Writes plain_number (plain_meaning self.old) sector content.now (Ok tt) (plain_meaning self.new) }
        ensures exact { PlainWrites self.old sector content.now (Ok tt) self.new }
    {
        self.sectors.store(sector, content);
    }
}

impl<'a> Device for PlainImage<'a> {
    ghost meaning = { plain_meaning };

    ghost layer = { plain_number };

    ghost pile = { plain_pile };

    ghost lawful = { plain_lawful };

    ghost named = { plain_named };

    ghost top = { refl };

    ghost fetched = { PlainReads };

    ghost wrote = { PlainWrites };

    ghost flushed = { PlainFlushes };

    fn size(&self) -> u32
        ensures meets { result ≡ (plain_meaning self.now).size }
        ensures exact { result ≡ whole self.now.sectors.bytes.now }
    {
        self.sectors.count()
    }

    fn power(&self) -> Result<(), Fault>
        ensures meets { result ≡ (plain_meaning self.now).power }
        ensures exact { result ≡ Ok tt }
    {
        // An image always has power.
        Ok(())
    }

    fn read(&mut self, sector: u32, buffer: &mut [u8; 512]) -> Result<(), Fault> {
        // A refused read leaves the buffer as it was.
        self.sectors.ready(Layer::PlainImage, sector)?;
        self.sectors.load(sector, buffer);
        Ok(())
    }

    fn write(&mut self, sector: u32, content: &[u8; 512]) -> Result<(), Fault> {
        self.sectors.ready(Layer::PlainImage, sector)?;
        self.place(sector, content);
        Ok(())
    }

    fn flush(&mut self) -> Result<(), Fault> {
        // Every write has settled already.
        Ok(())
    }
}

impl<'a> CuttableDevice for PlainImage<'a> {
    ghost images = { λ p. plain_meaning p ∷ [] };

    ghost below = { λ _. [] };

    ghost severed = { PlainCuts };

    fn cut(&mut self, plan: &[u8]) {
        // Nothing waits, so whatever the plan says a cut leaves the image as it is.
    }
}
