// The take table: a row for each take of the log.
ghost use Rattle.std.specs.Prelude.{◌≡◌, ℕ, ◌+◌, ◌^◌, ◌<◌, ◌≤◌, ◌&&◌, ◌==◌, MatchOption, take};
ghost use Rattle.std.specs.List.{list_any};
ghost use Rattle.takes.specs.declared.State.TheVariants.{Open, Standing};
ghost use Rattle.takes.specs.declared.Outline.TheVariants.{Opening, Begin, Block, Trailer, Withdrawal};
ghost use Rattle.takes.specs.Table.{is_open, open_on, withdrawn_by, end_of, OneOpen, NoGap, Allows};
ghost use Rattle.takes.specs.Steps.{row_in_state};
ghost use Rattle.journal.specs.Rows.{blank_row, row_at, Steps};

use takes::{Outline, Row, State};

// How many takes a recording can have.
pub const MOST_TAKES: usize = 64;

// What stands for a number that no take has.
const BLANK: Row = Row {
    track: 0,
    position: 0,
    len: 0,
    state: State::Withdrawn,
    start: 0,
    last: 0,
};

// Ends a take.
fn finish(row: &mut Row)
    ensures { row.new ≡ row_in_state Standing row.old }
{
    row.state = State::Standing;
}

// The rows alone, without the rules: a place for each take that there can be, and how many were begun. Takes are numbered from 1.
#[derive(Clone, Copy)]
struct Rows {
    rows: [Row; MOST_TAKES],
    count: u32,
}

impl Rows {
    // No takes.
    fn new() -> Rows
        ensures rows { (k : ℕ) → row_at result.rows k ≡ blank_row }
        ensures count { result.count ≡ 0 }
    {
        let rows = [BLANK; MOST_TAKES];
        Rows { rows, count: 0 }
    }

    // The rows of the takes that were begun.
    fn begun(&self) -> &[Row]
        requires { self.now.count ≤ 64 }
        ensures { result.now ≡ take self.now.count self.now.rows }
    {
        &self.rows[..self.count as usize]
    }

    // The row of a take. A number that no take has reads as a withdrawn one.
    fn row(&self, take: u32) -> Row
        ensures { result ≡ row_at self.now.rows take }
    {
        match take {
            0 => BLANK,
            _ => self.rows.get(take as usize - 1).copied().unwrap_or(BLANK),
        }
    }

    // Whether one of the takes is open on the track.
    fn has_open(&self, track: u8) -> bool
        requires { self.now.count ≤ 64 }
        ensures { result ≡ list_any (λ r. r.track == track && is_open r.state) (take self.now.count self.now.rows) }
    {
        self.begun()
            .iter()
            .any(|row| row.track == track && row.state == State::Open)
    }

    // Makes each open take standing.
    fn settle(&mut self)
        ensures { (place : ℕ) → Steps place Opening self.old.rows self.old.count self.new.rows self.new.count }
    {
        for row in self.rows.iter_mut() {
            if row.state == State::Open {
                finish(row);
            }
        }
    }

    // Gives the next number to a new take.
    fn begin(&mut self, track: u8, position: u32, place: u32)
        requires { self.old.count < 64 }
        ensures { Steps place (Begin track position) self.old.rows self.old.count self.new.rows self.new.count }
    {
        self.rows[self.count as usize] = Row {
            track,
            position,
            len: 0,
            state: State::Open,
            start: place,
            last: place,
        };
        self.count += 1;
    }

    // Makes a take longer, by a block with so many elements.
    fn extend(&mut self, take: u32, count: u16, place: u32)
        requires within { (1 ≤ take) × (take ≤ 64) }
        requires fits { (row_at self.old.rows take).len + count < 2 ^ 32 }
        ensures { Steps place (Block take count) self.old.rows self.old.count self.new.rows self.new.count }
    {
        let row = &mut self.rows[take as usize - 1];
        row.len += u32::from(count);
        row.last = place;
    }

    // Ends a take.
    fn end(&mut self, take: u32)
        requires { (1 ≤ take) × (take ≤ 64) }
        ensures { (place : ℕ) → Steps place (Trailer take) self.old.rows self.old.count self.new.rows self.new.count }
    {
        finish(&mut self.rows[take as usize - 1]);
    }

    // Withdraws a take.
    fn withdraw(&mut self, take: u32)
        requires { (1 ≤ take) × (take ≤ 64) }
        ensures { (place track : ℕ) → Steps place (Withdrawal track take) self.old.rows self.old.count self.new.rows self.new.count }
    {
        self.rows[take as usize - 1].state = State::Withdrawn;
    }
}

// The take table. Its type says that no two takes are open on one track, and that no heard take begins beyond the end of its track's
// earlier heard takes.
#[derive(Clone, Copy)]
pub struct Table {
    inner: Rows,
    ghost few: { inner.count ≤ 64 },
    ghost rest: { (k : ℕ) → inner.count < k → row_at inner.rows k ≡ blank_row },
    ghost one_open: { OneOpen (row_at inner.rows) inner.count },
    ghost no_gap: { NoGap (row_at inner.rows) inner.count },
}

impl Table {
    // The table of a log with no takes.
    pub fn new() -> Table
        ensures rows { (k : ℕ) → row_at result.inner.rows k ≡ blank_row }
        ensures count { result.inner.count ≡ 0 }
    {
        Table { inner: Rows::new() }
    }

    // How many takes were begun.
    pub fn count(&self) -> u32
        ensures { result ≡ self.now.inner.count }
    {
        self.inner.count
    }

    // The row of a take. A number that no take has reads as a withdrawn one.
    pub fn row(&self, take: u32) -> Row
        ensures { result ≡ row_at self.now.inner.rows take }
    {
        self.inner.row(take)
    }

    // Whether a take is open on the track.
    pub fn has_open(&self, track: u8) -> bool
        ensures { result ≡ open_on (row_at self.now.inner.rows) track self.now.inner.count }
    {
        self.inner.has_open(track)
    }

    // Where the track ends.
    pub fn end_of(&self, track: u8) -> u64
        ensures { result ≡ end_of (row_at self.now.inner.rows) track self.now.inner.count }
    {
        let mut end = 0;
        for row in self.inner.begun() {
            if row.track == track && row.state != State::Withdrawn {
                end = end.max(u64::from(row.position) + u64::from(row.len));
            }
        }
        end
    }

    // The take that a withdrawal on the track takes, if there is one: the highest standing one.
    pub fn withdrawn_by(&self, track: u8) -> Option<u32>
        ensures { let highest = withdrawn_by (row_at self.now.inner.rows) track self.now.inner.count in MatchOption result (highest ≡ 0) (λ k. (0 < k) × (highest ≡ k)) }
    {
        let mut found = None;
        for (i, row) in self.inner.begun().iter().enumerate() {
            if row.track == track && row.state == State::Standing {
                found = Some(i as u32 + 1);
            }
        }
        found
    }

    // Goes on with an entry that the table allows, at a place of the log.
    pub(crate) fn step(&mut self, place: u32, outline: Outline)
        requires allowed { Allows (row_at self.old.inner.rows) self.old.inner.count (λ t. end_of (row_at self.old.inner.rows) t self.old.inner.count) outline }
        requires fits { (k c : ℕ) → outline ≡ Block k c → (row_at self.old.inner.rows k).len + c < 2 ^ 32 }
        ensures { Steps place outline self.old.inner.rows self.old.inner.count self.new.inner.rows self.new.inner.count }
    {
        match outline {
            Outline::Opening => self.inner.settle(),
            Outline::Begin { track, position } => self.inner.begin(track, position, place),
            Outline::Block { take, count } => self.inner.extend(take, count, place),
            Outline::Trailer { take } => self.end(take),
            Outline::Withdrawal { track: _, take } => self.inner.withdraw(take),
        }
    }

    // Ends an open take.
    fn end(&mut self, take: u32)
        requires { (row_at self.old.inner.rows take).state ≡ Open }
        ensures { (place : ℕ) → Steps place (Trailer take) self.old.inner.rows self.old.inner.count self.new.inner.rows self.new.inner.count }
    {
        let mut inner = self.inner;
        inner.end(take);
        *self = Table { inner };
    }
}
