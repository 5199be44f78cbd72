// A mirror: two devices that hold the same.
ghost use Rattle.std.specs.Prelude.{◌≡◌, min, ◌∷◌, map, refl};
ghost use Rattle.device.specs.Faults.{Answer};
ghost use Rattle.device.specs.Calls.{Reads, Writes, Flushes, answer_of};
ghost use Rattle.device.specs.Cuts.{EachCut, cut_by};
ghost use Rattle.device.specs.Piles.{beside};
ghost use Rattle.layers.specs.Mirrored.{both_power, mirror_layer, mirror_meaning};
ghost use Rattle.layers.specs.MirroredLawful.{mirrored_lawful};
ghost use Rattle.layers.specs.Named.{mirrored_named};
ghost use Rattle.layers.specs.Sides.{lost_power, found_sick, joined, sides_of, mirror_stands, EitherFetched, BothWrote, BothFlushed, MirrorFetched, MirrorWrote, MirrorFlushed, MirrorSevered, MirrorReads, MirrorWrites, MirrorFlushes, EachWrote, EachFlushed};
ghost use Rattle.layers.specs.WholeCuts.{WholeCut, mirror_images, under_mirror};

use device::fault::{in_range, raised};
use device::{Cause, CuttableDevice, Device, Fault, Layer};

// Whether the answer says that power went off in the call.
fn lost_power(answer: Result<(), Fault>) -> bool
    ensures { result ≡ lost_power answer }
{
    answer.is_err_and(|fault| fault.cause == Cause::PowerLost)
}

// Whether the call found its sector sick: it failed, and power did not go off in it.
fn found_sick(answer: Result<(), Fault>) -> bool
    ensures { result ≡ found_sick answer }
{
    answer.is_err() && !lost_power(answer)
}

// Two devices that hold the same.
#[derive(Drop)]
pub struct Mirror<D, E> {
    first: D,
    second: E,
}

impl<D, E> Mirror<D, E> {
    // Makes a mirror of two devices.
    pub fn new(first: D, second: E) -> Mirror<D, E>
        ensures { result ≡ record { first = first; second = second } }
    {
        Mirror { first, second }
    }

    // Gives the two devices back.
    pub fn into_parts(self) -> (D, E)
        ensures { result ≡ (self.first, self.second) }
    {
        (self.first, self.second)
    }
}

// What each call does to the sides.
impl<D: Device, E: Device> Mirror<D, E> {
    // What the mirror itself finds in the way of a read or a write.
    fn ready(&self, sector: u32) -> Result<(), Fault>
        ensures { result ≡ answer_of (mirror_stands (mirror_meaning D.Device.meaning E.Device.meaning self.now) sector) }
    {
        in_range(Layer::Mirror.into(), self.size(), sector)?;
        self.power()
    }

    // What the mirror answers after a call, by what each side answered.
    fn answer(&self, first: Result<(), Fault>, second: Result<(), Fault>) -> Result<(), Fault>
        ensures { result ≡ joined first second (mirror_meaning D.Device.meaning E.Device.meaning self.now).power }
    {
        if lost_power(first) || lost_power(second) {
            self.power()
        } else {
            raised(second.or(first))
        }
    }

    // Reads the first side, or the second where the first is sick.
    fn read_either(&mut self, sector: u32, buffer: &mut [u8; 512]) -> Result<(), Fault>
        ensures sides { EitherFetched (λ a. a) (λ b. b) (Reads D.Device.layer) (Reads E.Device.layer) (sides_of D.Device.meaning E.Device.meaning self.old) sector buffer.old result (sides_of D.Device.meaning E.Device.meaning self.new) buffer.new }
        ensures exact { EitherFetched D.Device.meaning E.Device.meaning D.Device.fetched E.Device.fetched self.old sector buffer.old result self.new buffer.new }
    {
        let first = self.first.read(sector, buffer);
        if !found_sick(first) {
            return self.answer(first, Ok(()));
        }
        let second = self.second.read(sector, buffer);
        self.answer(first, second)
    }

    // Writes to both sides. (Beside `flush_both` it differs in the call alone; as a closure that would be passed twice, once for each
    // type of side.)
    fn write_both(&mut self, sector: u32, content: &[u8; 512]) -> Result<(), Fault>
        ensures sides { BothWrote (λ a. a) (λ b. b) (Writes D.Device.layer) (Writes E.Device.layer) (sides_of D.Device.meaning E.Device.meaning self.old) sector content.now result (sides_of D.Device.meaning E.Device.meaning self.new) }
        ensures exact { BothWrote D.Device.meaning E.Device.meaning D.Device.wrote E.Device.wrote self.old sector content.now result self.new }
    {
        let first = self.first.write(sector, content);
        let second = self.second.write(sector, content);
        self.answer(first, second)
    }

    // Flushes both sides.
    fn flush_both(&mut self) -> Result<(), Fault>
        ensures sides { BothFlushed (λ a. a) (λ b. b) Flushes Flushes (sides_of D.Device.meaning E.Device.meaning self.old) result (sides_of D.Device.meaning E.Device.meaning self.new) }
        ensures exact { BothFlushed D.Device.meaning E.Device.meaning D.Device.flushed E.Device.flushed self.old result self.new }
    {
        let first = self.first.flush();
        let second = self.second.flush();
        self.answer(first, second)
    }
}

// What a cut does to the sides.
impl<D: CuttableDevice, E: CuttableDevice> Mirror<D, E> {
    // Cuts both sides.
    fn cut_both(&mut self, plan: &[u8])
        ensures first { WholeCut D.Device.meaning D.CuttableDevice.images D.CuttableDevice.below plan.now self.old.first self.new.first }
        ensures second { WholeCut E.Device.meaning E.CuttableDevice.images E.CuttableDevice.below plan.now self.old.second self.new.second }
        ensures exact { MirrorSevered D.CuttableDevice.severed E.CuttableDevice.severed self.old plan.now self.new }
    {
        self.first.cut(plan);
        self.second.cut(plan);
    }
}

// The trait's clauses stand here again beside those of the mirror, since clauses that a method has of its own replace them.
// Read and write begin alike and go on apart: one function that is passed the rest would be no plainer.
impl<D: Device, E: Device> Device for Mirror<D, E> {
    ghost meaning = { mirror_meaning D.Device.meaning E.Device.meaning };

    ghost layer = { mirror_layer };

    ghost pile = { beside mirror_layer D.Device.pile E.Device.pile };

    ghost lawful = { λ m. mirrored_lawful (D.Device.meaning m.first) (E.Device.meaning m.second) (D.Device.lawful m.first) (E.Device.lawful m.second) };

    ghost named = { λ m. mirrored_named D.Device.pile E.Device.pile (D.Device.meaning m.first) (E.Device.meaning m.second) (D.Device.named m.first) (E.Device.named m.second) };

    ghost top = { refl };

    ghost fetched = { MirrorFetched D.Device.meaning E.Device.meaning D.Device.fetched E.Device.fetched };

    ghost wrote = { MirrorWrote D.Device.meaning E.Device.meaning D.Device.wrote E.Device.wrote };

    ghost flushed = { MirrorFlushed D.Device.meaning E.Device.meaning D.Device.flushed E.Device.flushed };

    fn size(&self) -> u32
        ensures { result ≡ min (D.Device.meaning self.now.first).size (E.Device.meaning self.now.second).size }
    {
        self.first.size().min(self.second.size())
    }

    fn power(&self) -> Result<(), Fault>
        ensures { result ≡ both_power (D.Device.meaning self.now.first).power (E.Device.meaning self.now.second).power }
    {
        raised(self.first.power().and(self.second.power()))
    }

    fn read(&mut self, sector: u32, buffer: &mut [u8; 512]) -> Result<(), Fault>
        ensures meets { Reads mirror_layer (mirror_meaning D.Device.meaning E.Device.meaning self.old) sector buffer.old result (mirror_meaning D.Device.meaning E.Device.meaning self.new) buffer.new }
        ensures sides { MirrorReads D.Device.layer E.Device.layer (sides_of D.Device.meaning E.Device.meaning self.old) sector buffer.old result (sides_of D.Device.meaning E.Device.meaning self.new) buffer.new }
        ensures exact { MirrorFetched D.Device.meaning E.Device.meaning D.Device.fetched E.Device.fetched self.old sector buffer.old result self.new buffer.new }
    {
        self.ready(sector)?;
        self.read_either(sector, buffer)
    }

    fn write(&mut self, sector: u32, content: &[u8; 512]) -> Result<(), Fault>
        ensures meets { Writes mirror_layer (mirror_meaning D.Device.meaning E.Device.meaning self.old) sector content.now result (mirror_meaning D.Device.meaning E.Device.meaning self.new) }
        ensures lists { EachWrote (sides_of D.Device.meaning E.Device.meaning self.old) sector content.now result (sides_of D.Device.meaning E.Device.meaning self.new) }
        ensures sides { MirrorWrites D.Device.layer E.Device.layer (sides_of D.Device.meaning E.Device.meaning self.old) sector content.now result (sides_of D.Device.meaning E.Device.meaning self.new) }
        ensures exact { MirrorWrote D.Device.meaning E.Device.meaning D.Device.wrote E.Device.wrote self.old sector content.now result self.new }
    {
        self.ready(sector)?;
        self.write_both(sector, content)
    }

    fn flush(&mut self) -> Result<(), Fault>
        ensures meets { Flushes (mirror_meaning D.Device.meaning E.Device.meaning self.old) result (mirror_meaning D.Device.meaning E.Device.meaning self.new) }
        ensures lists { EachFlushed (sides_of D.Device.meaning E.Device.meaning self.old) result (sides_of D.Device.meaning E.Device.meaning self.new) }
        ensures sides { MirrorFlushes (sides_of D.Device.meaning E.Device.meaning self.old) result (sides_of D.Device.meaning E.Device.meaning self.new) }
        ensures exact { MirrorFlushed D.Device.meaning E.Device.meaning D.Device.flushed E.Device.flushed self.old result self.new }
    {
        self.power()?;
        self.flush_both()
    }
}

impl<D: CuttableDevice, E: CuttableDevice> CuttableDevice for Mirror<D, E> {
    ghost images = { mirror_images D.CuttableDevice.images E.CuttableDevice.images };

    ghost below = { under_mirror D.Device.meaning D.CuttableDevice.below E.Device.meaning E.CuttableDevice.below };

    ghost severed = { MirrorSevered D.CuttableDevice.severed E.CuttableDevice.severed };

    fn cut(&mut self, plan: &[u8])
        ensures images { mirror_images D.CuttableDevice.images E.CuttableDevice.images self.new ≡ map (cut_by plan.now) (mirror_images D.CuttableDevice.images E.CuttableDevice.images self.old) }
        ensures each { EachCut (mirror_meaning D.Device.meaning E.Device.meaning self.old ∷ under_mirror D.Device.meaning D.CuttableDevice.below E.Device.meaning E.CuttableDevice.below self.old) (mirror_meaning D.Device.meaning E.Device.meaning self.new ∷ under_mirror D.Device.meaning D.CuttableDevice.below E.Device.meaning E.CuttableDevice.below self.new) }
        ensures first { WholeCut D.Device.meaning D.CuttableDevice.images D.CuttableDevice.below plan.now self.old.first self.new.first }
        ensures second { WholeCut E.Device.meaning E.CuttableDevice.images E.CuttableDevice.below plan.now self.old.second self.new.second }
        ensures exact { MirrorSevered D.CuttableDevice.severed E.CuttableDevice.severed self.old plan.now self.new }
    {
        self.cut_both(plan);
    }
}
