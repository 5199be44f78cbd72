// A session: what a recorder keeps in memory of the log that it goes by.
ghost use Rattle.std.specs.Prelude.{◌≡◌, ℕ, ◌+◌, ◌^◌, ◌<◌, ◌≤◌, [], MatchBool, MatchOption};
ghost use Rattle.journal.specs.Rows.{Within};
ghost use Rattle.takes.specs.Steps.{next_epoch};
ghost use Rattle.journal.specs.Log.{Starts, outline_in};

use crate::header::Header;
use crate::payload::{holds, is_zero};
use crate::table::{MOST_TAKES, Table};
use sector::{Fields, Kind, Record, decode};
use takes::{Outline, Row, State};

// The last sector that there can be. As many entries a log can have, since sector 0 is the header's.
const LAST_PLACE: u32 = 65_535;

// The header, how many entries the log has, its epoch, and the table of its takes. What the type says of the numbers holds of every
// log: the header's fit a sector, an opening counts in both entries and epoch, and no row is beyond what so many entries can have made
// of it.
#[derive(Clone, Copy)]
pub struct Session {
    header: Header,
    entries: u32,
    epoch: u32,
    table: Table,
    ghost small: { (header.sitting < 2 ^ 32) × (header.tracks < 2 ^ 8) },
    ghost few: { entries ≤ 65535 },
    ghost low: { epoch ≤ entries + 1 },
    ghost within: { Within header entries table.inner.rows },
}

// The entry that a sector's numbers can only be of. A header is none.
fn outline_of(fields: Fields) -> Option<Outline>
    ensures { result ≡ outline_in fields }
{
    match fields.kind {
        Kind::Header => None,
        Kind::Begin => Some(Outline::Begin {
            track: fields.track,
            position: fields.a,
        }),
        Kind::Block => Some(Outline::Block {
            take: fields.take,
            count: fields.count,
        }),
        Kind::Trailer => Some(Outline::Trailer { take: fields.take }),
        Kind::Withdrawal => Some(Outline::Withdrawal {
            track: fields.track,
            take: fields.take,
        }),
        Kind::Opening => Some(Outline::Opening),
    }
}

// The epoch after an entry.
fn epoch_after(epoch: u32, outline: Outline) -> u32
    requires { epoch ≤ 65535 }
    ensures { result ≡ next_epoch epoch outline }
{
    match outline {
        Outline::Opening => epoch + 1,
        _ => epoch,
    }
}

// Whether an entry may be the first of a log, or there are others.
fn may_start(entries: u32, outline: Outline) -> bool
    ensures { MatchBool result (Starts entries outline) (Starts entries outline → ⊥) }
{
    match outline {
        Outline::Opening => true,
        _ => entries > 0,
    }
}

// The numbers with those that a take has so far: its track, how many elements, and its last sector.
fn with_take(fields: Fields, take: u32, row: Row) -> Fields
    ensures { result ≡ record fields { track = row.track; take = take; a = row.len; b = row.last } }
{
    Fields {
        track: row.track,
        take,
        a: row.len,
        b: row.last,
        ..fields
    }
}

impl Session {
    // Here, and not at the head of the file, since these definitions name the struct.
    ghost use Rattle.journal.specs.Sessions.{table_of, session_place, SessionFollows, session_fields, Accepts, Adds, GoesOn, InStep, Absorbs};
    ghost use Rattle.takes.specs.Table.{open_on, withdrawn_by, end_of, Allows};
    ghost use Rattle.journal.specs.Log.{Suits};
    ghost use Rattle.journal.specs.Payloads.{Carries};

    // The session of a log that has no entry yet.
    pub fn new(header: Header) -> Session
        ensures header { result.header ≡ header }
        ensures empty { InStep result [] }
    {
        Session {
            header,
            entries: 0,
            epoch: 1,
            table: Table::new(),
        }
    }

    // The header.
    pub fn header(&self) -> Header
        ensures { result ≡ self.now.header }
    {
        self.header
    }

    // How many entries the log has.
    pub fn entries(&self) -> u32
        ensures { result ≡ self.now.entries }
    {
        self.entries
    }

    // The place of the next entry.
    pub fn place(&self) -> u32
        ensures { result ≡ session_place self.now }
    {
        self.entries + 1
    }

    // The epoch.
    pub fn epoch(&self) -> u32
        ensures { result ≡ self.now.epoch }
    {
        self.epoch
    }

    // How many takes were begun.
    pub fn takes(&self) -> u32
        ensures { result ≡ self.now.table.inner.count }
    {
        self.table.count()
    }

    // The row of a take. A number that no take has reads as a withdrawn one.
    pub fn row(&self, take: u32) -> Row
        ensures { result ≡ table_of self.now take }
    {
        self.table.row(take)
    }

    // Whether a take is open on the track.
    pub fn has_open(&self, track: u8) -> bool
        ensures { result ≡ open_on (table_of self.now) track self.now.table.inner.count }
    {
        self.table.has_open(track)
    }

    // Where the track ends.
    pub fn track_end(&self, track: u8) -> u64
        ensures { result ≡ end_of (table_of self.now) track self.now.table.inner.count }
    {
        self.table.end_of(track)
    }

    // The take that a withdrawal on the track takes, if there is one.
    pub fn withdrawn_by(&self, track: u8) -> Option<u32>
        ensures { let k = withdrawn_by (table_of self.now) track self.now.table.inner.count in MatchOption result (k ≡ 0) (λ take. (0 < take) × (k ≡ take)) }
    {
        self.table.withdrawn_by(track)
    }

    // Takes the sector in if it continues the log after the entries taken in so far, and answers the entry that it is. Otherwise the
    // session stays as it was.
    #[tactic(auto, using(crate::proofs::Absorbs::no_record, crate::proofs::Absorbs::by_record))]
    pub fn absorb(&mut self, sector: &[u8; 512]) -> Option<Outline>
        ensures { Absorbs self.old sector.now result self.new }
    {
        let found = decode(sector)?;
        self.take_in(found)
    }

    // Takes the record in if it is that of an entry that may follow, and answers the entry.
    #[tactic(auto, using(crate::proofs::Absorbs::no_other))]
    fn take_in(&mut self, found: Record<'_>) -> Option<Outline>
        ensures { GoesOn self.old found.entry.fields found.entry.payload.now result self.new }
    {
        let outline = outline_of(found.fields)?;
        if !self.continues(outline, found) {
            return None;
        }
        self.add(outline);
        Some(outline)
    }

    // Whether the entry may follow, and the record is its sector's.
    fn continues(&self, outline: Outline, found: Record<'_>) -> bool
        ensures { MatchBool result (Accepts self.now outline found.entry.fields found.entry.payload.now) (Accepts self.now outline found.entry.fields found.entry.payload.now → ⊥) }
    {
        self.may_follow(outline)
            && found.fields == self.fields(outline)
            && self.has_payload(outline, found.payload)
    }

    // Whether the entry may follow those taken in so far.
    pub fn may_follow(&self, outline: Outline) -> bool
        ensures { MatchBool result (SessionFollows self.now outline) (SessionFollows self.now outline → ⊥) }
    {
        self.entries < LAST_PLACE
            && may_start(self.entries, outline)
            && self.header_allows(outline)
            && self.table_allows(outline)
    }

    // Whether the header allows the entry.
    fn header_allows(&self, outline: Outline) -> bool
        ensures { MatchBool result (Suits self.now.header (table_of self.now) outline) (Suits self.now.header (table_of self.now) outline → ⊥) }
    {
        match outline {
            Outline::Opening | Outline::Trailer { .. } => true,
            Outline::Begin { track, .. } | Outline::Withdrawal { track, .. } => self
                .header
                .has_track(track),
            Outline::Block { take, count } => {
                let kind = self.header.kind(self.table.row(take).track);
                (1..=kind.capacity()).contains(&usize::from(count))
            }
        }
    }

    // Whether the take table allows the entry.
    fn table_allows(&self, outline: Outline) -> bool
        ensures { MatchBool result (Allows (table_of self.now) self.now.table.inner.count (λ t. end_of (table_of self.now) t self.now.table.inner.count) outline) (Allows (table_of self.now) self.now.table.inner.count (λ t. end_of (table_of self.now) t self.now.table.inner.count) outline → ⊥) }
    {
        match outline {
            Outline::Opening => true,
            Outline::Begin { track, position } => {
                !self.table.has_open(track)
                    && u64::from(position) <= self.table.end_of(track)
                    && (self.table.count() as usize) < MOST_TAKES
            }
            Outline::Block { take, .. } | Outline::Trailer { take } => {
                self.table.row(take).state == State::Open
            }
            Outline::Withdrawal { track, take } => {
                !self.table.has_open(track) && self.table.withdrawn_by(track) == Some(take)
            }
        }
    }

    // The numbers of the entry's sector, at the next place.
    pub fn fields(&self, outline: Outline) -> Fields
        requires { self.now.entries < 65535 }
        ensures { result ≡ session_fields self.now outline }
    {
        let opening = self.fields_in(epoch_after(self.epoch, outline));
        match outline {
            Outline::Opening => opening,
            Outline::Begin { track, position } => Fields {
                kind: Kind::Begin,
                track,
                take: self.table.count() + 1,
                a: position,
                ..opening
            },
            Outline::Block { take, count } => Fields {
                kind: Kind::Block,
                count,
                ..with_take(opening, take, self.table.row(take))
            },
            Outline::Trailer { take } => Fields {
                kind: Kind::Trailer,
                ..with_take(opening, take, self.table.row(take))
            },
            Outline::Withdrawal { track, take } => Fields {
                kind: Kind::Withdrawal,
                track,
                take,
                b: self.table.row(take).start,
                ..opening
            },
        }
    }

    // The numbers of an opening's sector, at the next place and in an epoch: all that the sectors of the other entries have alike.
    fn fields_in(&self, epoch: u32) -> Fields
        requires { self.now.entries < 65535 }
        ensures { result ≡ record { kind = Kind.Opening; track = 0; count = 0; sitting = self.now.header.sitting; place = session_place self.now; epoch = epoch; take = 0; a = 0; b = 0 } }
    {
        Fields {
            kind: Kind::Opening,
            track: 0,
            count: 0,
            sitting: self.header.sitting,
            place: self.place(),
            epoch,
            take: 0,
            a: 0,
            b: 0,
        }
    }

    // Whether the payload can be that of the entry's sector.
    fn has_payload(&self, outline: Outline, payload: &[u8; 480]) -> bool
        ensures { MatchBool result (Carries self.now.header (table_of self.now) outline payload.now) (Carries self.now.header (table_of self.now) outline payload.now → ⊥) }
    {
        match outline {
            Outline::Block { take, count } => {
                holds(self.header.kind(self.table.row(take).track), count, payload)
            }
            _ => is_zero(payload),
        }
    }

    // Goes on with an entry that may follow.
    #[tactic(auto, using(crate::proofs::Within::within_step))]
    pub fn add(&mut self, outline: Outline)
        requires { SessionFollows self.old outline }
        ensures { Adds self.old outline self.new }
    {
        // The place, as `place` answers it: a call here would lend the session a second time.
        self.table.step(self.entries + 1, outline);
        self.entries += 1;
        self.epoch = epoch_after(self.epoch, outline);
    }
}
