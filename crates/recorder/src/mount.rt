// Mount: the search for the log that a device holds.
ghost use Rattle.std.specs.Prelude.{◌≡◌, ◌<◌};
ghost use Rattle.device.specs.Meaning.{Meaning};
ghost use Rattle.journal.specs.Sessions.{session_place};
ghost use Rattle.recorder.specs.declared.State.TheVariants.{Unmounted};
ghost use Rattle.recorder.specs.declared.failed.Name.TheVariants.{Mount as MountCall};
ghost use Rattle.recorder.specs.Answers.{told_result};
ghost use Rattle.recorder.specs.Mounts.{Mounts, entries_by, mounted_by, HeaderFound, Seeking, Sought, LogSought};

use crate::entry::{blank, size_of};
use crate::failed::Stopped;
use crate::refusal::Refusal;
use device::{Cause, Device, Fault};
use journal::{Header, Session};

// Whether the sector at the session's next place continues its log; the session then goes on with it. A sick sector does not.
fn extend<D: Device>(
    device: &mut D,
    session: &mut Session,
    sector: &mut [u8; 512],
) -> Result<bool, Fault>
    ensures { (start : Meaning) → session_place session.old < start.size → Seeking start session.old (D.Device.meaning device.old) → Sought start session.old result session.new (D.Device.meaning device.new) }
{
    match device.read(session.place(), sector) {
        Ok(()) => Ok(session.absorb(sector).is_some()),
        Err(fault) if fault.cause == Cause::Sick => Ok(false),
        Err(fault) => Err(fault),
    }
}

// The session of the log that begins with the header: of the longest run of entries in the sectors, from the first behind the header on.
#[tactic(auto, using(crate::proofs::Search::found_all))]
fn find_log<D: Device>(device: &mut D, header: Header) -> Result<Session, Fault>
    ensures { (start : Meaning) → HeaderFound start header (D.Device.meaning device.old) → LogSought start result (D.Device.meaning device.new) }
{
    let mut session = Session::new(header);
    let mut sector = blank();
    for _ in 1..size_of(device) {
        if !extend(device, &mut session, &mut sector)? {
            break;
        }
    }
    Ok(session)
}

// The session of the log that the device holds.
pub fn mount<D: Device>(device: &mut D) -> Result<Session, Stopped>
    ensures { Mounts D.Device.layer Unmounted (D.Device.meaning device.old) (told_result MountCall 0 0 (entries_by result)) (mounted_by result) (D.Device.meaning device.new) }
{
    Refusal::TooSmall.unless(size_of(device) >= 2)?;
    let mut sector = blank();
    device.read(0, &mut sector)?;
    let header = Header::read(&sector).ok_or(Refusal::NoRecording)?;
    let session = find_log(device, header)?;
    Ok(session)
}
