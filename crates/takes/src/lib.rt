// Takes: what the entries of a log give, apart from any device and from the bytes that an entry is written as.
#![tactic(auto)]

ghost use Rattle.std.specs.Prelude.{ℕ};
ghost use Rattle.takes.specs.Claims.{Kept, Ends, Punches, Restores, OthersStay, Longest, PaintsTracks};

// Where a take stands. A number that no take has reads as a withdrawn take, which is not heard.
#[derive(Clone, Copy, PartialEq, Eq, Debug)]
pub enum State {
    Withdrawn,
    Open,
    Standing,
}

// A take without its elements.
#[derive(Clone, Copy, PartialEq, Eq, Debug)]
pub struct Row {
    pub track: u8,
    // the place on the track at which it begins
    pub position: u32,
    // how many elements it has
    pub len: u32,
    pub state: State,
    // the sector of its begin
    pub start: u32,
    // its last sector: that of its latest block, or of its begin
    pub last: u32,
}

// An entry without the elements of a block, which stand in its sector's payload.
#[derive(Clone, Copy, PartialEq, Eq, Debug)]
pub enum Outline {
    Opening,
    Begin { track: u8, position: u32 },
    Block { take: u32, count: u16 },
    Trailer { take: u32 },
    Withdrawal { track: u8, take: u32 },
}

// What holds of every list of entries that the take table admits. There is nothing to run: the contract is the theorem.
#[tactic(auto, using(crate::proofs::Ordered::kept, crate::proofs::Ordered::ends, crate::proofs::Punches::punches, crate::proofs::Punches::restores, crate::proofs::Contents::others_stay, crate::proofs::Bounds::longest, crate::proofs::Paints::painted_tracks))]
pub fn entries_give_tracks()
    ensures kept { Kept ℕ }
    ensures ends { Ends ℕ }
    ensures punches { Punches ℕ }
    ensures restores { Restores ℕ }
    ensures others_stay { OthersStay ℕ }
    ensures longest { Longest ℕ }
    ensures painted { PaintsTracks ℕ ℕ }
{}
