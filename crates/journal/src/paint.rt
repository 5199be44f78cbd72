// Painting: what a sector says of a track, laid over a slice of the track.
ghost use Rattle.std.specs.Prelude.{◌≡◌, ℕ, ◌+◌, ◌*◌, ◌/◌, ◌<◌, ◌≤◌, if◌then◌else◌, length};
ghost use Rattle.sector.specs.Layout.{payload_of};
ghost use Rattle.element.specs.Kinds.{width_of};
ghost use Rattle.element.specs.Payload.{unpacked};
ghost use Rattle.takes.specs.Table.{heard_on};
ghost use Rattle.takes.specs.Painting.{painted, spot_of, stroke, paint_one};
ghost use Rattle.journal.specs.Painting.{content_of, take_of, four_at};

use crate::session::Session;
use element::payload::fill;
use element::{Cell, Kind};
use takes::{Row, State};

// Paints what one sector says of a track of a kind, over a slice that begins at element `from` of the track. The row is that of the take
// that the sector names.
pub(crate) fn paint_sector<C: Cell>(
    sector: &[u8; 512],
    row: Row,
    track: u8,
    kind: Kind,
    from: u32,
    out: &mut [C],
)
    ensures { let per = width_of kind / C.Cell.WIDTH in out.new ≡ paint_one per (spot_of (λ _. row) track) (from * per) (content_of per C.Cell.value C.Cell.WIDTH sector.now) out.old }
{
    let per = cells_of::<C>(kind);
    let from = u64::from(from) * per as u64;
    paint_at_spot(sector, spot(row, track), per, from, out);
}

// How many cells an element of the kind is.
fn cells_of<C: Cell>(kind: Kind) -> usize
    ensures value { result ≡ width_of kind / C.Cell.WIDTH }
    ensures few { result ≤ 8 }
{
    kind.width() / C::WIDTH
}

// Where a take begins, if it is heard on the track.
fn spot(row: Row, track: u8) -> Option<u32>
    ensures { result ≡ (if heard_on track row then Some row.position else None) }
{
    (row.track == track && row.state != State::Withdrawn).then_some(row.position)
}

// The take of a sector.
pub(crate) fn take_of(sector: &[u8; 512]) -> u32
    ensures { result ≡ take_of sector.now }
{
    four_at(sector, 16)
}

// The number that four bytes say, the lowest first.
fn four_at(sector: &[u8; 512], at: usize) -> u32
    requires { at + 4 ≤ 512 }
    ensures { result ≡ four_at sector.now at }
{
    u32::from_le_bytes(sector[at..at + 4].try_into().unwrap())
}

// The payload of a sector.
fn payload_of(sector: &[u8; 512]) -> &[u8; 480]
    ensures { result.now ≡ payload_of sector.now }
{
    sector[28..508].try_into().unwrap()
}

// Paints what one sector says: the elements of a block, `per` cells each, of a take that begins at the spot, if it is heard. Any other
// sector is passed over. The slice's first cell is at place `from` of the track.
fn paint_at_spot<C: Cell>(
    sector: &[u8; 512],
    spot: Option<u32>,
    per: usize,
    from: u64,
    out: &mut [C],
)
    requires { per ≤ 8 }
    ensures { out.new ≡ paint_one per (λ _. spot) from (content_of per C.Cell.value C.Cell.WIDTH sector.now) out.old }
{
    if sector[0] != sector::Kind::Block.into() {
        return;
    }
    let count = u16::from_le_bytes([sector[2], sector[3]]);
    let offset = four_at(sector, 20);
    paint_block(payload_of(sector), count, spot, offset, per, from, out);
}

// Puts the cells of a block's elements at the block's offset in a take that begins at the spot, if they fit the payload.
fn paint_block<C: Cell>(
    payload: &[u8; 480],
    count: u16,
    spot: Option<u32>,
    offset: u32,
    per: usize,
    from: u64,
    out: &mut [C],
)
    requires { per ≤ 8 }
    ensures fits { count * per * C.Cell.WIDTH ≤ 480 → out.new ≡ stroke per (λ _. spot) from spot offset (unpacked C.Cell.value C.Cell.WIDTH (count * per) payload.now) out.old }
    ensures over { 480 < count * per * C.Cell.WIDTH → out.new ≡ out.old }
{
    let Some(position) = spot else {
        return;
    };
    let cells = usize::from(count) * per;
    let Some(bytes) = payload.get(..cells * C::WIDTH) else {
        return;
    };
    let at = (u64::from(position) + u64::from(offset)) * per as u64;
    put_cells(bytes, at, from, out);
}

// Puts cells at a place of a slice whose first cell is at place `from`: those that the slice has room for; the rest of it stays.
fn put_cells<C: Cell>(bytes: &[u8], at: u64, from: u64, out: &mut [C])
    ensures { out.new ≡ painted at (unpacked C.Cell.value C.Cell.WIDTH (length bytes.now / C.Cell.WIDTH) bytes.now) from out.old }
{
    // The cells that lie before the slice, and those of the slice that lie before them: one of the two is none. Where they do not meet,
    // one of them is all, and there is nothing to fill.
    let skip = (from.saturating_sub(at) as usize).min(bytes.len() / C::WIDTH);
    let start = (at.saturating_sub(from) as usize).min(out.len());
    fill(&bytes[skip * C::WIDTH..], &mut out[start..]);
}

impl Session {
    // Here, and not at the head of the file, since these definitions name the struct.
    ghost use Rattle.takes.specs.Painting.{paint};
    ghost use Rattle.journal.specs.Sessions.{table_of};
    ghost use Rattle.journal.specs.Shown.{cells_each, numbered, ShowsTrack};

    // Paints what one sector says of the track, over a slice that begins at element `from` of it.
    pub fn paint<C: Cell>(&self, track: u8, from: u32, sector: &[u8; 512], out: &mut [C])
        ensures { let per = cells_each self.now.header track C.Cell.WIDTH in out.new ≡ paint_one per (spot_of (table_of self.now) track) (from * per) (content_of per C.Cell.value C.Cell.WIDTH sector.now) out.old }
    {
        let row = self.row(take_of(sector));
        let kind = self.header().kind(track);
        paint_sector(sector, row, track, kind, from, out);
    }

    // Paints all sectors of a log, the first of which is that of its first entry, over a slice that begins at element `from` of the
    // track. If the log is the session's, the slice then shows the track.
    #[tactic(auto, using(crate::proofs::Shows::shows_track))]
    pub fn paint_all<C: Cell>(&self, track: u8, from: u32, sectors: &[[u8; 512]], out: &mut [C])
        ensures painted { let per = cells_each self.now.header track C.Cell.WIDTH in out.new ≡ paint per (spot_of (table_of self.now) track) (from * per) (λ p. content_of per C.Cell.value C.Cell.WIDTH (numbered sectors.now p)) (length sectors.now) out.old }
        ensures shown { ShowsTrack self.now C.Cell.value C.Cell.WIDTH track from sectors.now out.old out.new }
    {
        for sector in sectors {
            self.paint(track, from, sector, out);
        }
    }
}
