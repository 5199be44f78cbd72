// The header of a recording: its first sector.
ghost use Rattle.std.specs.Prelude.{◌≡◌, ◌≤◌, List, length, map, take, MatchBool, MatchOption};
ghost use Rattle.element.specs.declared.kind.Kind.{Kind};
ghost use Rattle.element.specs.Kinds.{kind_number};
ghost use Rattle.journal.specs.declared.header.Header.{Header};
ghost use Rattle.journal.specs.Headers.{HasTrack, kind_of, Lawful, header_fields, header_bytes, kind_bytes, padded, WrittenAs, AreNumbersOf};

use crate::payload::is_zero;
use element::Kind;
use sector::{Fields, Record, decode, seal};

// The lowest rate that a recording can have, in samples a second.
pub const LOWEST_RATE: u32 = 8_000;

// The highest rate.
pub const HIGHEST_RATE: u32 = 48_000;

// How many tracks a recording can have.
pub const MOST_TRACKS: usize = 8;

// What a header says.
#[derive(Clone, Copy, PartialEq, Eq, Debug)]
pub struct Header {
    // the number that the recording got when its device was formatted
    pub sitting: u32,
    // samples a second
    pub rate: u32,
    // how many tracks there are
    pub tracks: u8,
    // the kinds of the tracks, and Sound in each place that no track has
    pub kinds: [Kind; MOST_TRACKS],
}

impl Header {
    // Whether the recording has the track. Tracks are numbered from 1.
    pub fn has_track(&self, track: u8) -> bool
        ensures { MatchBool result (HasTrack self.now track) (HasTrack self.now track → ⊥) }
    {
        (1..=self.tracks).contains(&track)
    }

    // The kind of a track's elements.
    pub fn kind(&self, track: u8) -> Kind
        ensures { result ≡ kind_of self.now track }
    {
        let place = usize::from(track.saturating_sub(1));
        self.kinds.get(place).copied().unwrap_or(Kind::Sound)
    }

    // Writes the header's sector.
    #[tactic(auto, using(crate::proofs::Headers::payload_placed))]
    pub fn write(&self, sector: &mut [u8; 512])
        ensures { sector.new ≡ header_bytes self.now }
    {
        self.put_kinds(&mut sector[28..508]);
        seal(self.fields(), sector);
    }

    // The header that a sector is, if format can have written it.
    #[tactic(auto, using(crate::proofs::Headers::header_fits))]
    pub fn read(sector: &[u8; 512]) -> Option<Header>
        ensures { MatchOption result ((hd : Header) → Lawful hd → sector.now ≡ header_bytes hd → ⊥) (λ hd. Lawful hd × (sector.now ≡ header_bytes hd)) }
    {
        Header::from_record(decode(sector)?)
    }

    // The lawful header that has the numbers and the payload of a record, if there is one.
    fn from_record(record: Record<'_>) -> Option<Header>
        ensures { MatchOption result ((hd : Header) → WrittenAs hd «record».entry.fields «record».entry.payload.now → ⊥) (λ hd. WrittenAs hd «record».entry.fields «record».entry.payload.now) }
    {
        let Record { fields, payload } = record;
        let tracks = usize::from(fields.track);
        if !(1..=MOST_TRACKS).contains(&tracks)
            || !(LOWEST_RATE..=HIGHEST_RATE).contains(&fields.a)
        {
            return None;
        }
        let (numbers, rest) = payload.split_at(tracks);
        let header = Header {
            sitting: fields.sitting,
            rate: fields.a,
            tracks: fields.track,
            kinds: kinds_from(numbers)?,
        };
        if fields != header.fields() || !is_zero(rest) {
            return None;
        }
        Some(header)
    }

    // The kinds of the tracks that there are.
    fn track_kinds(&self) -> &[Kind]
        ensures { result.now ≡ take self.now.tracks self.now.kinds }
    {
        &self.kinds[..usize::from(self.tracks).min(MOST_TRACKS)]
    }

    // Fills a payload: a byte for each track, the number of its kind, and zeros.
    fn put_kinds(&self, payload: &mut [u8])
        requires { length payload.old ≡ 480 }
        ensures { payload.new ≡ padded (kind_bytes self.now) }
    {
        payload.fill(0);
        for (i, kind) in self.track_kinds().iter().enumerate() {
            payload[i] = (*kind).into();
        }
    }

    // The header's numbers.
    fn fields(&self) -> Fields
        ensures { result ≡ header_fields self.now }
    {
        Fields {
            kind: sector::Kind::Header,
            track: self.tracks,
            count: 0,
            sitting: self.sitting,
            place: 0,
            epoch: 1,
            take: 0,
            a: self.rate,
            b: 0,
        }
    }
}

// The kinds that the numbers stand for, and Sound behind them, if each number stands for one.
fn kinds_from(numbers: &[u8]) -> Option<[Kind; MOST_TRACKS]>
    requires { length numbers.now ≤ 8 }
    ensures { MatchOption result ((kinds : List Kind) → numbers.now ≡ map kind_number kinds → ⊥) (λ kinds. AreNumbersOf numbers.now kinds) }
{
    let mut kinds = [Kind::Sound; MOST_TRACKS];
    for (i, number) in numbers.iter().enumerate() {
        kinds[i] = Kind::try_from(*number).ok()?;
    }
    Some(kinds)
}
