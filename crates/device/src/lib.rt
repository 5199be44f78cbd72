// What a device is: sectors of 512 bytes, power that may go at any moment, and writes that settle in an order of the device's own.
// docs/DEVICE.md tells the meaning in words; specs/ states it.
#![tactic(auto)]

ghost use Rattle.std.specs.Prelude.{◌≡◌, ℕ, List, ◌∷◌, map};
ghost use Rattle.device.specs.Faults.{Answer};
ghost use Rattle.device.specs.Calls.{Reads, Writes, Flushes};
ghost use Rattle.device.specs.Cuts.{EachCut, cut_by};
ghost use Rattle.device.specs.Meaning.{Meaning, Lawful};
ghost use Rattle.device.specs.Piles.{Pile, LayerAt, Named, PowerNames, ReadsName, WritesName, FlushesName};

pub mod fault;

pub use fault::{Cause, Fault, Layer};

// A device, known by what it means and by what its calls did.
pub trait Device {
    // what the device means at this moment
    ghost meaning: { Self → Meaning };

    // the number by which the device names itself where a sector is out of its range
    ghost layer: { ℕ };

    // how devices stand on one another, from this one down, each by its number as a layer
    ghost pile: { Pile };

    // exactly what a read did: the device before, the sector, the buffer before, the answer, the device after, the buffer after
    ghost fetched: { Self → ℕ → List ℕ → Answer → Self → List ℕ → Type 0 };

    // exactly what a write did: the device before, the sector, the content, the answer, the device after
    ghost wrote: { Self → ℕ → List ℕ → Answer → Self → Type 0 };

    // exactly what a flush did: the device before, the answer, the device after
    ghost flushed: { Self → Answer → Self → Type 0 };

    // How many sectors there are.
    fn size(&self) -> u32
        ensures { result ≡ (meaning self.now).size };

    // Whether there is power, or else the fault that says that there is none.
    fn power(&self) -> Result<(), Fault>
        ensures { result ≡ (meaning self.now).power };

    // Puts the sector's newest content into the buffer.
    // Sector and bytes are two parameters, here and in `write`: a struct of both would be taken apart again in each device.
    fn read(&mut self, sector: u32, buffer: &mut [u8; 512]) -> Result<(), Fault>
        ensures meets { Reads layer (meaning self.old) sector buffer.old result (meaning self.new) buffer.new }
        ensures exact { fetched self.old sector buffer.old result self.new buffer.new };

    // Makes the content the sector's newest.
    fn write(&mut self, sector: u32, content: &[u8; 512]) -> Result<(), Fault>
        ensures meets { Writes layer (meaning self.old) sector content.now result (meaning self.new) }
        ensures exact { wrote self.old sector content.now result self.new };

    // Leaves each sector only its newest content.
    fn flush(&mut self) -> Result<(), Fault>
        ensures meets { Flushes (meaning self.old) result (meaning self.new) }
        ensures exact { flushed self.old result self.new };

    // what holds of every device
    ghost lawful: { (d : Self) → Lawful (meaning d) };

    // the faults of its power and of its sick sectors name the sector, and the layer of the pile where they arose
    ghost named: { (d : Self) → Named pile (meaning d) };

    // the device itself is at the top of its pile
    ghost top: { LayerAt pile 0 layer };
}

// A device whose power can be cut.
pub trait CuttableDevice: Device {
    // the images at the bottom
    ghost images: { Self → List Meaning };

    // every device below this one, at any depth
    ghost below: { Self → List Meaning };

    // exactly what a cut did: the device before, the plan, the device after
    ghost severed: { Self → List ℕ → Self → Type 0 };

    // Cuts the power: of this device and of every one below, each by the same rule, and of every image as the plan says.
    fn cut(&mut self, plan: &[u8])
        ensures images { images self.new ≡ map (cut_by plan.now) (images self.old) }
        ensures each { EachCut (Self.Device.meaning self.old ∷ below self.old) (Self.Device.meaning self.new ∷ below self.new) }
        ensures exact { severed self.old plan.now self.new };
}

// Whatever a device stands on, a fault that a call answers names the sector that was asked, or 0 where power is lost,
// and the layer where it arose. There is nothing to run: the contract is the theorem.
pub fn faults_name_sector_and_layer<D: Device>()
    ensures power { PowerNames D.Device.pile D.Device.meaning }
    ensures reads { ReadsName D.Device.pile D.Device.layer D.Device.meaning }
    ensures writes { WritesName D.Device.pile D.Device.layer D.Device.meaning }
    ensures flushes { FlushesName D.Device.pile D.Device.meaning }
{}
