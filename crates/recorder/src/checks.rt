// Which refusal is due of a call, as far as its session decides: the tests in their order, each with its refusal.
ghost use Rattle.std.specs.Prelude.{◌≡◌, ◌≤◌, length};
ghost use Rattle.std.specs.List.{list_all};
ghost use Rattle.recorder.specs.Refusals.{format_refusal, tracks_allowed, kind_known, has_track, has_take, has_place, has_room, chosen, track_end, file_length, passed, arm_refusal, begin_refusal, record_refusal, end_refusal, withdraw_refusal, play_refusal, export_refusal};

use crate::refusal::Refusal;
use element::{Element, Kind};
use journal::{HIGHEST_RATE, LOWEST_RATE, MOST_TRACKS, Session};
use takes::State;

// How many bytes the header of a WAVE file has.
pub const HEADER_BYTES: usize = 44;

// Whether the recording has the track.
pub fn has_track(session: &Session, track: u8) -> bool
    ensures { result ≡ has_track session.now track }
{
    session.header().has_track(track)
}

// Whether the take was begun.
pub fn has_take(session: &Session, take: u32) -> bool
    ensures { result ≡ has_take session.now take }
{
    (1..=session.takes()).contains(&take)
}

// Whether the next place is a sector of a device with so many.
fn has_room(session: &Session, size: u32) -> bool
    ensures { result ≡ has_room session.now size }
{
    session.place() < size
}

// How many samples the track has, if it is one of sound.
pub fn samples_of(session: &Session, track: u8) -> u32
    ensures value { result ≡ track_end session.now track }
    ensures few { result ≤ 15728400 }
{
    session.track_end(track) as u32
}

// How many bytes the track's WAVE file has.
pub fn file_length(session: &Session, track: u8) -> usize
    ensures { result ≡ file_length session.now track }
{
    HEADER_BYTES + 2 * samples_of(session, track) as usize
}

// Whether every element is lawful.
fn all_lawful<E: Element>(elements: &[E]) -> bool
    ensures { result ≡ list_all E.Element.lawful elements.now }
{
    elements.iter().all(|element| element.is_lawful())
}

// Whether a block of the kind may have so many elements.
fn has_place(kind: Kind, count: usize) -> bool
    ensures { result ≡ has_place kind count }
{
    (1..=kind.capacity()).contains(&count)
}

// The take that a withdrawal on the track takes, or 0.
pub fn chosen(session: &Session, track: u8) -> u32
    ensures { result ≡ chosen session.now track }
{
    session.withdrawn_by(track).unwrap_or(0)
}

// Whether the number stands for a kind.
fn is_known(number: u8) -> bool
    ensures { result ≡ kind_known number }
{
    Kind::try_from(number).is_ok()
}

// Whether each of the numbers does.
fn are_known(kinds: &[u8]) -> bool
    ensures { result ≡ list_all kind_known kinds.now }
{
    kinds.iter().all(|kind| is_known(*kind))
}

// Whether a recording can have tracks of these kinds, by their numbers.
fn has_tracks(kinds: &[u8]) -> bool
    ensures { result ≡ tracks_allowed kinds.now }
{
    (1..=MOST_TRACKS).contains(&kinds.len()) && are_known(kinds)
}

// Whether a device with so many sectors may be formatted for tracks of these kinds and the rate.
pub fn format(size: u32, kinds: &[u8], rate: u32) -> Result<(), Refusal>
    ensures { result ≡ passed (format_refusal size kinds.now rate) }
{
    Refusal::TooSmall.unless(size >= 2)?;
    Refusal::BadTracks.unless(has_tracks(kinds))?;
    Refusal::BadRate.unless((LOWEST_RATE..=HIGHEST_RATE).contains(&rate))
}

// Whether the recorder may be armed.
pub fn arm(session: &Session, size: u32) -> Result<(), Refusal>
    ensures { result ≡ passed (arm_refusal session.now size) }
{
    Refusal::Full.unless(has_room(session, size))
}

// Whether a take may begin on the track at the position.
pub fn begin(session: &Session, size: u32, track: u8, position: u32) -> Result<(), Refusal>
    ensures { result ≡ passed (begin_refusal session.now size track position) }
{
    Refusal::NoSuchTrack.unless(has_track(session, track))?;
    Refusal::TakeOpen.unless(!session.has_open(track))?;
    Refusal::BeyondEnd.unless(u64::from(position) <= session.track_end(track))?;
    Refusal::TooManyTakes.unless(session.takes() < 64)?;
    Refusal::Full.unless(has_room(session, size))
}

// Whether the elements may be recorded into the take. Whether they are lawful is looked at only where there are not too many.
pub fn record<E: Element>(
    session: &Session,
    size: u32,
    take: u32,
    elements: &[E],
) -> Result<(), Refusal>
    ensures { result ≡ passed (record_refusal session.now size take E.Element.KIND (length elements.now) (list_all E.Element.lawful elements.now)) }
{
    Refusal::NoSuchTake.unless(has_take(session, take))?;
    let row = session.row(take);
    Refusal::NotOpen.unless(row.state == State::Open)?;
    Refusal::OtherKind.unless(session.header().kind(row.track) == E::KIND)?;
    Refusal::BadCount.unless(has_place(E::KIND, elements.len()))?;
    Refusal::Unlawful.unless(all_lawful(elements))?;
    Refusal::Full.unless(has_room(session, size))
}

// Whether the take may end.
pub fn end(session: &Session, size: u32, take: u32) -> Result<(), Refusal>
    ensures { result ≡ passed (end_refusal session.now size take) }
{
    Refusal::NoSuchTake.unless(has_take(session, take))?;
    Refusal::NotOpen.unless(session.row(take).state == State::Open)?;
    Refusal::Full.unless(has_room(session, size))
}

// Whether a take of the track may be withdrawn.
pub fn withdraw(session: &Session, size: u32, track: u8) -> Result<(), Refusal>
    ensures { result ≡ passed (withdraw_refusal session.now size track) }
{
    Refusal::NoSuchTrack.unless(has_track(session, track))?;
    Refusal::TakeOpen.unless(!session.has_open(track))?;
    Refusal::NoneStanding.unless(chosen(session, track) > 0)?;
    Refusal::Full.unless(has_room(session, size))
}

// Whether the track may be played from the position on, into elements of the kind.
pub fn play(session: &Session, track: u8, kind: Kind, from: u32) -> Result<(), Refusal>
    ensures { result ≡ passed (play_refusal session.now track kind from) }
{
    Refusal::NoSuchTrack.unless(has_track(session, track))?;
    Refusal::OtherKind.unless(session.header().kind(track) == kind)?;
    Refusal::BeyondEnd.unless(u64::from(from) <= session.track_end(track))
}

// Whether the track may be exported, into a buffer of so many bytes.
pub fn export(session: &Session, track: u8, size: usize) -> Result<(), Refusal>
    ensures { result ≡ passed (export_refusal session.now track size) }
{
    Refusal::NoSuchTrack.unless(has_track(session, track))?;
    Refusal::OtherKind.unless(session.header().kind(track) == Kind::Sound)?;
    Refusal::TooShort.unless(file_length(session, track) <= size)
}
