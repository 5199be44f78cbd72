// The writes that wait in a queued image.
ghost use Rattle.std.specs.Prelude.{◌≡◌, ℕ, ◌+◌, ◌≤◌, ◌<◌, ◌↔◌, true, List, [], ◌∷◌, ◌++◌, length, IfOk, IfNone, IsTrue, MatchOption, unwrap_or, slice_get, slice_index_or, replicate, take, ◌==◌, ◌||◌};
ghost use Rattle.std.specs.List.{list_any};
ghost use Rattle.std.specs.VecDeque.{deque_capacity};
ghost use Rattle.std.specs.VecDeque.Iter.{deque_iter_rest};
ghost use Rattle.std.specs.Option.{option_copied, option_to_list};
ghost use Rattle.images.specs.Full.{all_full};

use std::alloc::{AllocError, Global};
use std::collections::VecDeque;
use std::collections::vec_deque::Iter;

// A write that is accepted and not yet settled.
#[derive(Clone, Copy)]
pub struct WaitingWrite {
    pub sector: u32,
    pub content: [u8; 512],
}

// The waiting writes, oldest first. Room for exactly 16 is reserved, and no more than 16 wait.
// Its facts are ghost fields and no Model, in which the images' law, that contents are whole, could not see `full`;
// and `full` stands here and not in WaitingWrite, where each clause that makes a write would carry a proof of it.
#[derive(Drop)]
pub struct Queue {
    writes: VecDeque<WaitingWrite>,
    ghost room: { deque_capacity writes ≡ 16 },
    ghost few: { length writes.items ≤ 16 },
    ghost full: { all_full writes.items ≡ true },
}

impl Queue {
    ghost use Rattle.device.specs.Meaning.{newest};
    ghost use Rattle.images.specs.Image.{waiting_for, listed};
    ghost use Rattle.images.specs.Queue.{left_of};

    // An empty queue.
    pub fn new(alloc: Global) -> Result<Queue, AllocError>
        ensures { IfOk result (λ q. q.writes.items ≡ []) }
    {
        let writes = VecDeque::with_capacity(alloc, 16)?;
        Ok(Queue { writes })
    }

    // Whether there is no room for one more.
    pub fn is_full(&self) -> bool
        ensures { IsTrue result ↔ (16 ≤ length self.now.writes.items) }
    {
        self.writes.len() >= 16
    }

    // Lets go of all of them.
    pub fn clear(&mut self)
        ensures { self.new.writes.items ≡ [] }
    {
        self.writes.clear();
    }

    // Adds a write, the newest.
    pub fn add(&mut self, sector: u32, content: &[u8; 512])
        requires { length self.old.writes.items < 16 }
        ensures { self.new.writes.items ≡ self.old.writes.items ++ (record { sector = sector; content = content.now }) ∷ [] }
    {
        let write = WaitingWrite {
            sector,
            content: *content,
        };
        self.writes.push_back_reserved(write);
    }

    // Takes out the oldest write, if one waits.
    pub fn take_oldest(&mut self) -> Option<WaitingWrite>
        ensures oldest { self.old.writes.items ≡ option_to_list result ++ self.new.writes.items }
        ensures none { IfNone result (self.old.writes.items ≡ []) }
    {
        self.writes.pop_front()
    }

    // The newest content that waits for the sector, if one does.
    pub fn newest(&self, sector: u32) -> Option<&[u8; 512]>
        ensures { (x : List ℕ) → unwrap_or (option_copied result) x ≡ newest (listed x (waiting_for sector self.now.writes.items)) }
    {
        self.writes
            .iter()
            .rfind(|write| write.sector == sector)
            .map(|write| &write.content)
    }

    // The content that waits for the sector at the place, oldest first, if there is one.
    fn waiting(&self, sector: u32, place: usize) -> Option<&[u8; 512]>
        ensures { option_copied result ≡ slice_get (waiting_for sector self.now.writes.items) place }
    {
        self.writes
            .iter()
            .filter(|write| write.sector == sector)
            .nth(place)
            .map(|write| &write.content)
    }

    // The content that the choice puts over the sector's settled one; none at choice 0 or where no write waits: the settled one stays.
    pub fn left(&self, sector: u32, choice: u8) -> Option<&[u8; 512]>
        ensures { (x : List ℕ) → unwrap_or (option_copied result) x ≡ left_of choice x (waiting_for sector self.now.writes.items) }
    {
        let place = place_of(choice)?;
        // Up to 16 writes are looked through a second time: a search that also counts would be no plainer.
        self.waiting(sector, 0)?;
        Some(self.waiting(sector, place).unwrap_or(&[0; 512]))
    }

    // The content that waits for the sector at the place, oldest first, or zeros where there are fewer.
    pub fn chosen(&self, sector: u32, place: usize) -> &[u8; 512]
        ensures { result.now ≡ slice_index_or (waiting_for sector self.now.writes.items) place (replicate 512 0) }
    {
        self.waiting(sector, place).unwrap_or(&[0; 512])
    }

    // How many writes wait.
    pub fn len(&self) -> usize
        ensures { result ≡ length self.now.writes.items }
    {
        self.writes.len()
    }

    // The writes, oldest first.
    pub fn iter(&self) -> Iter<'_, WaitingWrite>
        ensures { deque_iter_rest result ≡ self.now.writes.items }
    {
        self.writes.iter()
    }

    // Whether a write before the place waits for the sector.
    pub fn waits_before(&self, place: usize, sector: u32) -> bool
        ensures { result ≡ list_any (λ write. sector == write.sector) (take place self.now.writes.items) }
    {
        self.writes
            .iter()
            .take(place)
            .any(|write| write.sector == sector)
    }
}

// The place among the waiting contents that the choice names; choice 0 names none.
fn place_of(choice: u8) -> Option<usize>
    ensures { MatchOption result (choice ≡ 0) (λ place. choice ≡ place + 1) }
{
    usize::from(choice).checked_sub(1)
}
