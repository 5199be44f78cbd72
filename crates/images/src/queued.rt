// The queued image.
ghost use Rattle.std.specs.Prelude.{◌≡◌, ℕ, ◌<◌, [], ◌∷◌, length, refl, IfOk, Ok};
ghost use Rattle.device.specs.Calls.{Reads, Writes, Flushes};
ghost use Rattle.device.specs.Cuts.{EachCut};
ghost use Rattle.images.specs.Sectors.{whole, content, ready};
ghost use Rattle.images.specs.Queue.{room_queue, room_bytes, cut_content};
ghost use Rattle.images.specs.Queued.{queued_number, waiting, queued_meaning, queued_lawful, queued_pile, queued_named, Stays, Becomes, QueuedMade, QueuedReads, QueuedWrites, QueuedFlushes, QueuedCuts};

use crate::queue::Queue;
use crate::sectors::Sectors;
use device::{CuttableDevice, Device, Fault, Layer};
use std::alloc::{AllocError, Global};

// An image with up to 16 writes that wait before they settle.
// A type beside PlainImage: one type for both would ask in each call whether there is a queue, and its contracts would go by cases.
#[derive(Drop)]
pub struct QueuedImage<'a> {
    sectors: Sectors<'a>,
    queue: Queue,
}

impl<'a> QueuedImage<'a> {
    // An image over the whole sectors of the bytes, with up to four sick sectors. All the memory it needs is reserved here.
    pub fn new(
        alloc: Global,
        bytes: &'a mut [u8],
        sick: [Option<u32>; 4],
    ) -> Result<QueuedImage<'a>, AllocError>
        ensures { IfOk result (λ p. QueuedMade sick bytes.entry p) }
    {
        let queue = Queue::new(alloc)?;
        let sectors = Sectors { bytes, sick };
        Ok(QueuedImage { sectors, queue })
    }

    // Where 16 wait, settles the oldest.
    fn make_room(&mut self)
        ensures room { length (waiting self.new) < 16 }
        ensures exact { Becomes self.old (room_bytes self.old.sectors.bytes.now (waiting self.old)) (room_queue (waiting self.old)) self.new }
    {
        if self.queue.is_full()
            && let Some(write) = self.queue.take_oldest()
        {
            self.sectors.settle(&write);
        }
    }

    // Writes a sector that is ready.
    fn place(&mut self, sector: u32, content: &[u8; 512])
        requires { ready queued_number (whole self.old.sectors.bytes.now) self.old.sectors.sick sector ≡ Ok tt }
        ensures meets { Writes queued_number (queued_meaning self.old) sector content.now (Ok tt) (queued_meaning self.new) }
        ensures exact { QueuedWrites self.old sector content.now (Ok tt) self.new }
    {
        self.make_room();
        self.queue.add(sector, content);
    }

    // Settles every waiting write.
    fn settle_all(&mut self)
        ensures meets { Flushes (queued_meaning self.old) (Ok tt) (queued_meaning self.new) }
        ensures exact { QueuedFlushes self.old (Ok tt) self.new }
    {
        while let Some(write) = self.queue.take_oldest() {
            self.sectors.settle(&write);
        }
    }

    // Leaves in the bytes of every sector what the plan says, sector by sector.
    fn choose_by_sector(&mut self, plan: &[u8])
        ensures bytes { (t : ℕ) → content self.new.sectors.bytes.now t ≡ cut_content plan.now self.old.sectors.bytes.now (waiting self.old) t }
        ensures long { length self.new.sectors.bytes.now ≡ length self.old.sectors.bytes.now }
        ensures stays { Stays self.old self.new }
    {
        // Plan, queue and bytes are all asked by the sector's number, so a loop over the numbers is plainest.
        for sector in 0..self.size() {
            let choice = plan.get(sector as usize).copied().unwrap_or(0);
            if let Some(content) = self.queue.left(sector, choice) {
                self.sectors.store(sector, content);
            }
        }
    }

    // The same write by write: only a sector that a write waits for can change. The oldest of its writes stands for it, so that it is
    // stored once.
    fn choose_by_write(&mut self, plan: &[u8])
        ensures bytes { (t : ℕ) → content self.new.sectors.bytes.now t ≡ cut_content plan.now self.old.sectors.bytes.now (waiting self.old) t }
        ensures long { length self.new.sectors.bytes.now ≡ length self.old.sectors.bytes.now }
        ensures stays { Stays self.old self.new }
    {
        let size = self.size();
        for (place, write) in self.queue.iter().enumerate() {
            let sector = write.sector;
            let choice = plan.get(sector as usize).copied().unwrap_or(0);
            if choice == 0 || sector >= size || self.queue.waits_before(place, sector) {
                continue;
            }
            let content = self.queue.chosen(sector, choice as usize - 1);
            self.sectors.store(sector, content);
        }
    }

    // Leaves of every sector what the plan says, and lets go of the waiting writes.
    fn leave_chosen(&mut self, plan: &[u8])
        ensures each { EachCut (queued_meaning self.old ∷ []) (queued_meaning self.new ∷ []) }
        ensures exact { QueuedCuts self.old plan.now self.new }
    {
        // An image of few sectors is gone through by sectors; a larger one by writes, so that what it costs does not grow with the image.
        if (self.size() as usize) < self.queue.len() / 2 {
            self.choose_by_sector(plan);
        } else {
            self.choose_by_write(plan);
        }
        self.queue.clear();
    }
}

impl<'a> Device for QueuedImage<'a> {
    ghost meaning = { queued_meaning };

    ghost layer = { queued_number };

    ghost pile = { queued_pile };

    ghost lawful = { queued_lawful };

    ghost named = { queued_named };

    ghost top = { refl };

    ghost fetched = { QueuedReads };

    ghost wrote = { QueuedWrites };

    ghost flushed = { QueuedFlushes };

    fn size(&self) -> u32
        ensures meets { result ≡ (queued_meaning self.now).size }
        ensures exact { result ≡ whole self.now.sectors.bytes.now }
    {
        self.sectors.count()
    }

    fn power(&self) -> Result<(), Fault>
        ensures meets { result ≡ (queued_meaning self.now).power }
        ensures exact { result ≡ Ok tt }
    {
        // An image always has power.
        Ok(())
    }

    fn read(&mut self, sector: u32, buffer: &mut [u8; 512]) -> Result<(), Fault> {
        // A refused read leaves the buffer as it was.
        self.sectors.ready(Layer::QueuedImage, sector)?;
        match self.queue.newest(sector) {
            Some(content) => buffer.copy_from_slice(content),
            None => self.sectors.load(sector, buffer),
        }
        Ok(())
    }

    fn write(&mut self, sector: u32, content: &[u8; 512]) -> Result<(), Fault> {
        self.sectors.ready(Layer::QueuedImage, sector)?;
        self.place(sector, content);
        Ok(())
    }

    fn flush(&mut self) -> Result<(), Fault> {
        self.settle_all();
        Ok(())
    }
}

impl<'a> CuttableDevice for QueuedImage<'a> {
    ghost images = { λ p. queued_meaning p ∷ [] };

    ghost below = { λ _. [] };

    ghost severed = { QueuedCuts };

    fn cut(&mut self, plan: &[u8]) {
        self.leave_chosen(plan);
    }
}
