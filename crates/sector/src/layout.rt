// The layout of a sector: its numbers, its payload and its check, as 512 bytes and back.
ghost use Rattle.std.specs.Prelude.{◌≡◌, ℕ, ◌+◌, ◌≤◌, List, ◌++◌, length, take, drop, Some, None, MatchBool, MatchOption, slice_index};
ghost use Rattle.sector.specs.Layout.{kind_number, IsKindNumber, Decodes, field_bytes, sealed, sector_bytes, payload_of, Fits, Sound, NoRecord, Gives};

use crate::crc::crc32;
use thiserror::Error;

// What a sector records.
#[derive(Clone, Copy, PartialEq, Eq, Debug)]
pub enum Kind {
    Header = 1,
    Begin = 2,
    Block = 3,
    Trailer = 4,
    Withdrawal = 5,
    Opening = 6,
}

// The number that is stored for a kind. (Each such enum has its own two impls: none of our macros may write them, and a generic one
// would be no plainer.)
impl From<Kind> for u8 {
    ghost from_gives = { λ kind number. number ≡ kind_number kind };

    fn from(kind: Kind) -> u8 {
        kind as u8
    }
}

// A number that stands for no kind.
#[derive(Clone, Copy, PartialEq, Eq, Debug, Error)]
#[error("no kind of sector has number {0}")]
pub struct UnknownKind(pub u8);

// The kind that a stored number stands for.
impl TryFrom<u8> for Kind {
    type Error = UnknownKind;

    ghost try_from_gives = { Decodes };

    fn try_from(number: u8) -> Result<Self, UnknownKind> {
        match number {
            1 => Ok(Kind::Header),
            2 => Ok(Kind::Begin),
            3 => Ok(Kind::Block),
            4 => Ok(Kind::Trailer),
            5 => Ok(Kind::Withdrawal),
            6 => Ok(Kind::Opening),
            _ => Err(UnknownKind(number)),
        }
    }
}

// The numbers of a sector, in the order in which they are stored. What `a` and `b` say depends on the kind.
#[derive(Clone, Copy, PartialEq, Eq, Debug)]
pub struct Fields {
    pub kind: Kind,
    pub track: u8,
    // elements in the payload
    pub count: u16,
    // the number that the recording got when its device was formatted
    pub sitting: u32,
    // the sector's own number
    pub place: u32,
    pub epoch: u32,
    pub take: u32,
    pub a: u32,
    pub b: u32,
}

// A sector's record: its numbers, and its payload, which stays in the sector's bytes.
#[derive(Clone, Copy)]
pub struct Record<'a> {
    pub fields: Fields,
    pub payload: &'a [u8; 480],
}

// Writes the record and its check.
#[tactic(auto, using(crate::proofs::Records::payload_put))]
pub fn encode(record: Record<'_>, sector: &mut [u8; 512])
    ensures bytes { sector.new ≡ sector_bytes «record».entry.fields «record».entry.payload.now }
    ensures sound { Sound sector.new }
{
    put(sector, 28, record.payload);
    seal(record.fields, sector);
}

// Writes the numbers and the check around a payload that stands in its place already.
pub fn seal(fields: Fields, sector: &mut [u8; 512])
    ensures bytes { sector.new ≡ sector_bytes fields (payload_of sector.old) }
    ensures sound { Sound sector.new }
{
    put_fields(fields, sector);
    put_check(sector);
}

// Writes the numbers before the payload, one by one: their widths differ, so a loop over a list of places would be no plainer.
fn put_fields(fields: Fields, sector: &mut [u8; 512])
    ensures body { take 508 sector.new ≡ field_bytes fields ++ payload_of sector.old }
    ensures known { IsKindNumber (slice_index sector.new 0) }
{
    put(sector, 0, &[fields.kind.into(), fields.track]);
    put(sector, 2, &fields.count.to_le_bytes());
    put(sector, 4, &fields.sitting.to_le_bytes());
    put(sector, 8, &fields.place.to_le_bytes());
    put(sector, 12, &fields.epoch.to_le_bytes());
    put(sector, 16, &fields.take.to_le_bytes());
    put(sector, 20, &fields.a.to_le_bytes());
    put(sector, 24, &fields.b.to_le_bytes());
}

// Writes the check behind the bytes that it is of.
fn put_check(sector: &mut [u8; 512])
    ensures bytes { sector.new ≡ sealed (take 508 sector.old) }
    ensures sound { IsKindNumber (slice_index sector.old 0) → Sound sector.new }
{
    let check = crc32(&sector[..508]);
    put(sector, 508, &check.to_le_bytes());
}

// Writes bytes at a place.
fn put<const N: usize>(sector: &mut [u8; 512], at: usize, bytes: &[u8; N])
    requires { at + N ≤ 512 }
    ensures { sector.new ≡ take at sector.old ++ (bytes.now ++ drop (at + N) sector.old) }
{
    sector[at..at + N].copy_from_slice(bytes);
}

// The record of a sound sector. Any other has none.
pub fn decode(sector: &[u8; 512]) -> Option<Record<'_>>
    ensures sound { elim result [ Some _ ↦ Sound sector.now | None ↦ (Sound sector.now → ⊥) ] }
    ensures only { elim result [ Some w ↦ sector_bytes w.fields w.payload.now ≡ sector.now | None ↦ Unit {0} ] }
    ensures back { (f : Fields) (p : List ℕ) → Fits f p → sector.now ≡ sector_bytes f p → Gives f p result }
{
    let kind = kind_at(sector)?;
    is_sealed(sector).then(|| unpack(kind, sector))
}

// The kind that the first byte names, or none.
fn kind_at(sector: &[u8; 512]) -> Option<Kind>
    ensures { MatchOption result (NoRecord sector.now) (λ k. (kind_number k ≡ slice_index sector.now 0) × IsKindNumber (slice_index sector.now 0)) }
{
    Kind::try_from(sector[0]).ok()
}

// Whether the last four bytes are the check of the others.
fn is_sealed(sector: &[u8; 512]) -> bool
    ensures { MatchBool result (sector.now ≡ sealed (take 508 sector.now)) (NoRecord sector.now) }
{
    u32::from_le_bytes(*bytes_at(sector, 508)) == crc32(&sector[..508])
}

// The bytes at a place.
fn bytes_at<const N: usize>(sector: &[u8; 512], at: usize) -> &[u8; N]
    requires { at + N ≤ 512 }
    ensures value { result.now ≡ take N (drop at sector.now) }
    ensures len { length result.now ≡ N }
{
    sector[at..].first_chunk().unwrap()
}

// The record of a sector whose kind is known.
fn unpack(kind: Kind, sector: &[u8; 512]) -> Record<'_>
    requires { kind_number kind ≡ slice_index sector.now 0 }
    ensures only { field_bytes result.fields ++ result.payload.now ≡ take 508 sector.now }
    ensures back { (f : Fields) (p : List ℕ) → Fits f p → sector.now ≡ sector_bytes f p → (result.fields ≡ f) × (result.payload.now ≡ p) }
{
    Record {
        fields: Fields {
            kind,
            track: sector[1],
            count: u16::from_le_bytes(*bytes_at(sector, 2)),
            sitting: u32::from_le_bytes(*bytes_at(sector, 4)),
            place: u32::from_le_bytes(*bytes_at(sector, 8)),
            epoch: u32::from_le_bytes(*bytes_at(sector, 12)),
            take: u32::from_le_bytes(*bytes_at(sector, 16)),
            a: u32::from_le_bytes(*bytes_at(sector, 20)),
            b: u32::from_le_bytes(*bytes_at(sector, 24)),
        },
        payload: bytes_at(sector, 28),
    }
}
