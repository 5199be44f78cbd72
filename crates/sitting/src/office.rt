// The office's part: it reads what was exported.
ghost use Rattle.std.specs.Prelude.{IfOk};
ghost use Rattle.wave.specs.Reading.{Gives};
ghost use Rattle.sitting.specs.Events.{book};
ghost use Rattle.sitting.specs.Sittings.{InSittings};
ghost use Rattle.sitting.specs.Claims.{track_bytes};
ghost use Rattle.sitting.specs.Office.{ExportsAndReads};

use crate::Sitting;
use device::{CuttableDevice, Device};
use recorder::Failed;
use wave::{Refusal, Wave, read};

impl<D: CuttableDevice> Sitting<D> {
    // Exports a track and reads the file that was written. Where the export is accepted, what is read is the track, at the rate that the
    // recording was formatted with.
    pub fn export_and_read<'a>(
        &mut self,
        track: u8,
        out: &'a mut [u8],
    ) -> Result<Result<Wave<'a>, Refusal>, Failed>
        ensures does { ExportsAndReads D.Device.meaning D.Device.layer track out.old result self.old.recorder self.new.recorder }
        ensures accepted { InSittings D.Device.meaning D.Device.layer self.old.recorder (λ hd es. IfOk result (λ sound. Gives hd.rate (track_bytes (book es).entries track) sound)) }
    {
        let length = self.export(track, out)?;
        Ok(read(&out[..length]))
    }
}
