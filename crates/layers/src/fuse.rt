// A fuse: cuts its own power after a chosen number of accepted writes and flushes.
ghost use Rattle.std.specs.Prelude.{◌≡◌, ◌∷◌, map, refl};
ghost use Rattle.device.specs.Calls.{Reads, Writes, Flushes};
ghost use Rattle.device.specs.Cuts.{EachCut, cut_by};
ghost use Rattle.device.specs.Piles.{over};
ghost use Rattle.layers.specs.Fused.{unset, is_blown, set_to, counted, BlowsInTime, Counts, fuse_layer, own_power, fused_power, fuse_meaning, fuse_ready, FuseReads, FuseWrites, FuseFlushes, FuseFetched, FuseWrote, FuseFlushed, FuseSevered};
ghost use Rattle.layers.specs.FusedLawful.{fused_lawful};
ghost use Rattle.layers.specs.Named.{fused_named};
ghost use Rattle.layers.specs.WholeCuts.{under_fuse};

use device::fault::{in_range, raised};
use device::{CuttableDevice, Device, Fault, Layer};

// How many accepted writes and flushes a fuse still takes: 0 where it is blown, and no number where it is not set.
#[derive(Clone, Copy, Default)]
struct Counter {
    remaining: Option<u32>,
}

impl Counter {
    // Whether none are left of the number that was set.
    fn is_blown(self) -> bool
        ensures { result ≡ is_blown self }
    {
        self.remaining == Some(0)
    }

    // The fuse's own power: lost where it is blown.
    fn power(self) -> Result<(), Fault>
        ensures { result ≡ own_power self }
    {
        if self.is_blown() {
            Err(Fault::power_lost(Layer::Fuse.into()))
        } else {
            Ok(())
        }
    }

    // Sets the number that is left, or no number at 0; a blown counter stays as it is.
    fn set(&mut self, remaining: u32)
        ensures { self.new ≡ set_to remaining self.old }
    {
        if !self.is_blown() {
            self.remaining = (remaining > 0).then_some(remaining);
        }
    }

    // Counts one accepted call; the last one blows the fuse.
    fn count(&mut self)
        ensures { self.new ≡ counted self.old }
    {
        self.remaining = self.remaining.map(|n| n.saturating_sub(1));
    }
}

// A device below a fuse.
#[derive(Drop)]
pub struct Fuse<D> {
    counter: Counter,
    inner: D,
}

impl<D> Fuse<D> {
    // Puts a fuse over a device; it is not set, so it never blows.
    pub fn new(inner: D) -> Fuse<D>
        ensures made { result ≡ record { counter = unset; inner = inner } }
        ensures blows { BlowsInTime }
    {
        Fuse {
            counter: Counter::default(),
            inner,
        }
    }

    // Gives the device back.
    pub fn into_inner(self) -> D
        ensures { result ≡ self.inner }
    {
        self.inner
    }
}

impl<D: Device> Fuse<D> {
    // Sets after how many accepted writes and flushes the fuse blows, never at 0. A blown fuse stays blown.
    pub fn set(&mut self, remaining: u32)
        ensures counter { self.new.counter ≡ set_to remaining self.old.counter }
        ensures inner { self.new.inner ≡ self.old.inner }
        ensures meaning { fuse_meaning D.Device.meaning self.new ≡ fuse_meaning D.Device.meaning self.old }
    {
        self.counter.set(remaining);
    }

    // The fuse's own answer to a read or a write: range first, then that it is blown.
    fn ready(&self, sector: u32) -> Result<(), Fault>
        ensures { result ≡ fuse_ready self.now.counter (D.Device.meaning self.now.inner).size sector }
    {
        in_range(Layer::Fuse.into(), self.size(), sector)?;
        self.counter.power()
    }
}

// The clauses of the trait stand here again beside those of the fuse, since clauses that a method has of its own replace them.
impl<D: Device> Device for Fuse<D> {
    ghost meaning = { fuse_meaning D.Device.meaning };

    ghost layer = { fuse_layer };

    ghost pile = { over fuse_layer D.Device.pile };

    ghost lawful = { λ f. fused_lawful f.counter (D.Device.lawful f.inner) };

    ghost named = { λ f. fused_named D.Device.pile f.counter (D.Device.named f.inner) };

    ghost top = { refl };

    ghost fetched = { FuseFetched D.Device.meaning D.Device.fetched };

    ghost wrote = { FuseWrote D.Device.meaning D.Device.wrote };

    ghost flushed = { FuseFlushed D.Device.flushed };

    fn size(&self) -> u32
        ensures { result ≡ (D.Device.meaning self.now.inner).size }
    {
        self.inner.size()
    }

    fn power(&self) -> Result<(), Fault>
        ensures { result ≡ fused_power self.now.counter (D.Device.meaning self.now.inner).power }
    {
        let own = self.counter.power();
        own.and_then(|()| raised(self.inner.power()))
    }

    fn read(&mut self, sector: u32, buffer: &mut [u8; 512]) -> Result<(), Fault>
        ensures meets { Reads fuse_layer (fuse_meaning D.Device.meaning self.old) sector buffer.old result (fuse_meaning D.Device.meaning self.new) buffer.new }
        ensures counts { self.new.counter ≡ self.old.counter }
        ensures below { FuseReads self.old.counter D.Device.layer (D.Device.meaning self.old.inner) sector buffer.old result (D.Device.meaning self.new.inner) buffer.new }
        ensures exact { FuseFetched D.Device.meaning D.Device.fetched self.old sector buffer.old result self.new buffer.new }
    {
        self.ready(sector)?;
        raised(self.inner.read(sector, buffer))
    }

    // Write and flush end alike: a function for three short lines would be no plainer.
    fn write(&mut self, sector: u32, content: &[u8; 512]) -> Result<(), Fault>
        ensures meets { Writes fuse_layer (fuse_meaning D.Device.meaning self.old) sector content.now result (fuse_meaning D.Device.meaning self.new) }
        ensures counts { Counts result self.old.counter self.new.counter }
        ensures below { FuseWrites self.old.counter D.Device.layer (D.Device.meaning self.old.inner) sector content.now result (D.Device.meaning self.new.inner) }
        ensures exact { FuseWrote D.Device.meaning D.Device.wrote self.old sector content.now result self.new }
    {
        self.ready(sector)?;
        raised(self.inner.write(sector, content))?;
        self.counter.count();
        Ok(())
    }

    fn flush(&mut self) -> Result<(), Fault>
        ensures meets { Flushes (fuse_meaning D.Device.meaning self.old) result (fuse_meaning D.Device.meaning self.new) }
        ensures counts { Counts result self.old.counter self.new.counter }
        ensures below { FuseFlushes self.old.counter (D.Device.meaning self.old.inner) result (D.Device.meaning self.new.inner) }
        ensures exact { FuseFlushed D.Device.flushed self.old result self.new }
    {
        self.counter.power()?;
        raised(self.inner.flush())?;
        self.counter.count();
        Ok(())
    }
}

impl<D: CuttableDevice> CuttableDevice for Fuse<D> {
    ghost images = { λ f. D.CuttableDevice.images f.inner };

    ghost below = { under_fuse D.Device.meaning D.CuttableDevice.below };

    ghost severed = { FuseSevered D.CuttableDevice.severed };

    fn cut(&mut self, plan: &[u8])
        ensures images { D.CuttableDevice.images self.new.inner ≡ map (cut_by plan.now) (D.CuttableDevice.images self.old.inner) }
        ensures each { EachCut (fuse_meaning D.Device.meaning self.old ∷ under_fuse D.Device.meaning D.CuttableDevice.below self.old) (fuse_meaning D.Device.meaning self.new ∷ under_fuse D.Device.meaning D.CuttableDevice.below self.new) }
        ensures clears { self.new.counter ≡ unset }
        ensures exact { FuseSevered D.CuttableDevice.severed self.old plan.now self.new }
    {
        self.counter = Counter::default();
        self.inner.cut(plan);
    }
}
