// Export: a track of sound as a WAVE file, into a buffer of the caller's.
ghost use Rattle.std.specs.Prelude.{◌≡◌, ℕ, ◌≤◌, Ok, length};
ghost use Rattle.recorder.specs.declared.failed.Name.TheVariants.{Export as ExportCall};
ghost use Rattle.recorder.specs.Refusals.{file_length};
ghost use Rattle.recorder.specs.Answers.{told_result};
ghost use Rattle.recorder.specs.Plays.{Paints};
ghost use Rattle.recorder.specs.Exports.{exported, ExportsBy, Exports};

use crate::checks::{HEADER_BYTES, file_length, samples_of};
use crate::failed::Stopped;
use crate::play::paint_log;
use crate::{Failed, Name, Recorder, Refusal, State, checks};
use device::{Device, Fault};
use journal::Session;
use wave::header;

// Writes the header of the track's file to the front of a buffer, and paints its samples behind it.
fn write_file<D: Device>(
    device: &mut D,
    session: &Session,
    track: u8,
    out: &mut [u8],
) -> Result<(), Fault>
    requires powered { (D.Device.meaning device.old).power ≡ Ok tt }
    requires room { file_length session.now track ≤ length out.old }
    ensures { Paints D.Device.layer session.now.entries (D.Device.meaning device.old) (λ n. exported session.now (D.Device.meaning device.old) track n out.old) result (D.Device.meaning device.new) out.new }
{
    let (file, _) = out.split_at_mut(file_length(session, track));
    let (head, samples) = file.split_at_mut(HEADER_BYTES);
    head.copy_from_slice(&header(session.header().rate, samples_of(session, track)));
    paint_log(device, session, track, 0, samples)
}

// Exports by the session, and answers how many bytes the file has.
fn export_by<D: Device>(
    device: &mut D,
    session: &Session,
    track: u8,
    out: &mut [u8],
) -> Result<usize, Stopped>
    ensures { ExportsBy D.Device.layer session.now (D.Device.meaning device.old) track out.old result (D.Device.meaning device.new) out.new }
{
    checks::export(session, track, out.len())?;
    device.power()?;
    write_file(device, session, track, out)?;
    Ok(file_length(session, track))
}

impl<D: Device> Recorder<D> {
    // Writes a track of sound as a WAVE file to the front of the buffer, and answers how many bytes that is.
    pub fn export(&mut self, track: u8, out: &mut [u8]) -> Result<usize, Failed>
        ensures { Exports D.Device.layer self.old.state (D.Device.meaning self.old.device) track out.old result self.new.state (D.Device.meaning self.new.device) out.new }
    {
        self.run_export(track, out)
            .map_err(|stopped| stopped.told(Name::Export, track, 0))
    }

    // Does an export, as the state decides.
    fn run_export(&mut self, track: u8, out: &mut [u8]) -> Result<usize, Stopped>
        ensures { Exports D.Device.layer self.old.state (D.Device.meaning self.old.device) track out.old (told_result ExportCall track 0 result) self.new.state (D.Device.meaning self.new.device) out.new }
    {
        match &self.state {
            State::Unmounted => Err(Refusal::NotMounted.into()),
            State::Mounted(session) => export_by(&mut self.device, session, track, out),
            State::Armed(armed) => export_by(&mut self.device, armed.session(), track, out),
        }
    }
}
