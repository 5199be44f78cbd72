// The sector of an entry, and where it is written.
ghost use Rattle.std.specs.Prelude.{◌≡◌, ◌+◌, ◌<◌, ◌≤◌, [], length};
ghost use Rattle.std.specs.List.{flat_map};
ghost use Rattle.device.specs.Calls.{Writes};
ghost use Rattle.sector.specs.Layout.{sector_bytes, payload_of};
ghost use Rattle.element.specs.Kinds.{capacity_of};
ghost use Rattle.journal.specs.Headers.{padded};
ghost use Rattle.journal.specs.Sessions.{session_place, session_fields};
ghost use Rattle.recorder.specs.Formats.{zeros};

use device::{Device, Fault};
use element::Element;
use element::payload::pack;
use journal::Session;
use sector::seal;
use takes::Outline;

// A sector of zeros.
#[tactic(auto, unfolding(crate::specs::Formats::zeros))]
pub fn blank() -> [u8; 512]
    ensures zeros { result ≡ zeros }
    ensures payload { payload_of result ≡ padded [] }
{
    [0; 512]
}

// A sector with the elements of a block in its payload, and zeros.
pub fn packed<E: Element>(elements: &[E]) -> [u8; 512]
    requires { length elements.now ≤ capacity_of E.Element.KIND }
    ensures { payload_of result ≡ padded (flat_map E.Element.bytes elements.now) }
{
    let mut sector = blank();
    pack(elements, &mut sector[28..508]).unwrap();
    sector
}

// How many sectors the device has.
pub fn size_of<D: Device>(device: &D) -> u32
    ensures same { result ≡ (D.Device.meaning device.now).size }
    ensures small { result ≤ 65536 }
{
    device.size()
}

// Writes the sector of an entry at the session's next place, around the payload that stands in it.
pub fn write<D: Device>(
    device: &mut D,
    session: &Session,
    outline: Outline,
    sector: &mut [u8; 512],
) -> Result<(), Fault>
    requires { session.now.entries < 65535 }
    ensures { Writes D.Device.layer (D.Device.meaning device.old) (session_place session.now) (sector_bytes (session_fields session.now outline) (payload_of sector.old)) result (D.Device.meaning device.new) }
{
    seal(session.fields(outline), sector);
    device.write(session.place(), sector)
}
