// Play: a track into a slice of the caller's.
ghost use Rattle.std.specs.Prelude.{◌≡◌, ℕ, Ok};
ghost use Rattle.recorder.specs.declared.failed.Name.TheVariants.{Play as PlayCall};
ghost use Rattle.recorder.specs.Answers.{told_result};
ghost use Rattle.recorder.specs.Plays.{played, Paints, PlaysBy, Plays};

use crate::entry::blank;
use crate::failed::Stopped;
use crate::{Failed, Name, Recorder, Refusal, State, checks};
use device::{Device, Fault};
use element::{Cell, Element};
use journal::Session;

// Reads the sectors of the log in their order and paints each into the slice, which begins at element `from` of the track.
pub fn paint_log<D: Device, C: Cell>(
    device: &mut D,
    session: &Session,
    track: u8,
    from: u32,
    out: &mut [C],
) -> Result<(), Fault>
    requires { (D.Device.meaning device.old).power ≡ Ok tt }
    ensures { Paints D.Device.layer session.now.entries (D.Device.meaning device.old) (λ n. played C.Cell.value C.Cell.WIDTH session.now (D.Device.meaning device.old) track from n out.old) result (D.Device.meaning device.new) out.new }
{
    let mut sector = blank();
    for done in 0..session.entries() {
        device.read(done + 1, &mut sector)?;
        session.paint(track, from, &sector, out);
    }
    Ok(())
}

// Plays by the session, and answers how many elements of the track the slice reaches.
fn play_by<D: Device, E: Element>(
    device: &mut D,
    session: &Session,
    track: u8,
    from: u32,
    out: &mut [E],
) -> Result<usize, Stopped>
    ensures { PlaysBy D.Device.layer E.Element.KIND E.Cell.value E.Cell.WIDTH session.now (D.Device.meaning device.old) track from out.old result (D.Device.meaning device.new) out.new }
{
    checks::play(session, track, E::KIND, from)?;
    device.power()?;
    paint_log(device, session, track, from, out)?;
    let left = session.track_end(track) - u64::from(from);
    Ok(out.len().min(left as usize))
}

impl<D: Device> Recorder<D> {
    // Puts the track from the position on into the slice, as far as both reach, and answers how many elements that are.
    pub fn play<E: Element>(&mut self, track: u8, from: u32, out: &mut [E]) -> Result<usize, Failed>
        ensures { Plays D.Device.layer E.Element.KIND E.Cell.value E.Cell.WIDTH self.old.state (D.Device.meaning self.old.device) track from out.old result self.new.state (D.Device.meaning self.new.device) out.new }
    {
        self.run_play(track, from, out)
            .map_err(|stopped| stopped.told(Name::Play, track, 0))
    }

    // Does a play, as the state decides.
    fn run_play<E: Element>(
        &mut self,
        track: u8,
        from: u32,
        out: &mut [E],
    ) -> Result<usize, Stopped>
        ensures { Plays D.Device.layer E.Element.KIND E.Cell.value E.Cell.WIDTH self.old.state (D.Device.meaning self.old.device) track from out.old (told_result PlayCall track 0 result) self.new.state (D.Device.meaning self.new.device) out.new }
    {
        match &self.state {
            State::Unmounted => Err(Refusal::NotMounted.into()),
            State::Mounted(session) => play_by(&mut self.device, session, track, from, out),
            State::Armed(armed) => play_by(&mut self.device, armed.session(), track, from, out),
        }
    }
}
