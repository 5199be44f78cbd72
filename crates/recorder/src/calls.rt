// The calls. Each is decided by the state and the call together; a fault goes out whole, with the call, its track and its take.
ghost use Rattle.std.specs.Prelude.{◌≡◌, ◌≤◌};
ghost use Rattle.recorder.specs.Runs.{Does};
ghost use Rattle.recorder.specs.Formats.{Formats};
ghost use Rattle.recorder.specs.Mounts.{Mounts};
ghost use Rattle.recorder.specs.Entries.{Saves, Arms, Begins, Records, Ends, Withdraws};
ghost use Rattle.recorder.specs.Answers.{told_result};
ghost use Rattle.recorder.specs.Panel.{track_of};

use crate::failed::Stopped;
use crate::format::format;
use crate::mount::mount;
use crate::{ArmedSession, Call, Failed, Name, Recorder, Refusal, State};
use device::Device;
use element::Element;

impl<D: Device> Recorder<D> {
    // Does a call that is numbers alone, as the state and the call together decide.
    fn run(&mut self, call: Call<'_>) -> Result<u32, Stopped>
        ensures { Does D.Device.layer self.old.state (D.Device.meaning self.old.device) call.entry result self.new.state (D.Device.meaning self.new.device) }
    {
        match (&mut self.state, call) {
            (
                State::Unmounted,
                Call::Format {
                    kinds,
                    rate,
                    sitting,
                },
            ) => format(&mut self.device, kinds, rate, sitting),
            (State::Unmounted, Call::Mount) => {
                let session = mount(&mut self.device)?;
                self.state = State::Mounted(session);
                Ok(session.entries())
            }
            (State::Mounted(session), Call::Arm) => {
                let armed = ArmedSession::open(&mut self.device, session)?;
                self.state = State::Armed(armed);
                Ok(armed.session().epoch())
            }
            (State::Armed(armed), Call::Begin { track, position }) => armed.begin(
                &mut self.device,
                track,
                position,
            ),
            (State::Armed(armed), Call::End { take }) => armed.end(&mut self.device, take),
            (State::Armed(armed), Call::Withdraw { track }) => armed.withdraw(
                &mut self.device,
                track,
            ),
            (State::Mounted(_) | State::Armed(_), Call::Save) => {
                self.device.flush()?;
                Ok(0)
            }
            (State::Unmounted, _) => Err(Refusal::NotMounted.into()),
            (_, Call::Format { .. } | Call::Mount) => Err(Refusal::NotUnmounted.into()),
            (State::Armed(_), Call::Arm) => Err(Refusal::AlreadyArmed.into()),
            (State::Mounted(_), Call::Begin { .. } | Call::End { .. } | Call::Withdraw { .. }) =>
                Err(Refusal::NotArmed.into()),
        }
    }

    // Formats the device for a recording whose tracks are of these kinds, by their numbers; the answer is how many sectors were blanked.
    pub fn format(&mut self, kinds: &[u8], rate: u32, sitting: u32) -> Result<u32, Failed>
        ensures { Formats D.Device.layer self.old.state (D.Device.meaning self.old.device) kinds.now rate sitting result self.new.state (D.Device.meaning self.new.device) }
    {
        self.run(Call::Format {
            kinds,
            rate,
            sitting,
        })
        .map_err(|stopped| stopped.told(Name::Format, 0, 0))
    }

    // Finds the log on the device; the answer is how many entries it has.
    pub fn mount(&mut self) -> Result<u32, Failed>
        ensures { Mounts D.Device.layer self.old.state (D.Device.meaning self.old.device) result self.new.state (D.Device.meaning self.new.device) }
    {
        self.run(Call::Mount)
            .map_err(|stopped| stopped.told(Name::Mount, 0, 0))
    }

    // Flushes the device: what was recorded so far outlasts a loss of power.
    pub fn save(&mut self) -> Result<(), Failed>
        ensures { Saves self.old.state (D.Device.meaning self.old.device) result self.new.state (D.Device.meaning self.new.device) }
    {
        match self.run(Call::Save) {
            Ok(_) => Ok(()),
            Err(stopped) => Err(stopped.told(Name::Save, 0, 0)),
        }
    }

    // Arms a mounted recorder; the answer is the new epoch.
    pub fn arm(&mut self) -> Result<u32, Failed>
        ensures { Arms D.Device.layer self.old.state (D.Device.meaning self.old.device) result self.new.state (D.Device.meaning self.new.device) }
    {
        self.run(Call::Arm)
            .map_err(|stopped| stopped.told(Name::Arm, 0, 0))
    }

    // Begins a take on the track at the position; the answer is the take's number.
    pub fn begin(&mut self, track: u8, position: u32) -> Result<u32, Failed>
        ensures { Begins D.Device.layer self.old.state (D.Device.meaning self.old.device) track position result self.new.state (D.Device.meaning self.new.device) }
    {
        let take = self.takes() + 1;
        self.run(Call::Begin { track, position })
            .map_err(|stopped| stopped.told(Name::Begin, track, take))
    }

    // Records the elements into the take as one block; the answer is the take's length with them.
    pub fn record<E: Element>(&mut self, take: u32, elements: &[E]) -> Result<u32, Failed>
        ensures { Records D.Device.layer E.Element.KIND E.Element.lawful E.Element.bytes self.old.state (D.Device.meaning self.old.device) take elements.now result self.new.state (D.Device.meaning self.new.device) }
    {
        let track = self.track_of(take);
        self.run_record(take, elements)
            .map_err(|stopped| stopped.told(Name::Record, track, take))
    }

    // Does a record, as the state decides.
    fn run_record<E: Element>(&mut self, take: u32, elements: &[E]) -> Result<u32, Stopped>
        ensures { Records D.Device.layer E.Element.KIND E.Element.lawful E.Element.bytes self.old.state (D.Device.meaning self.old.device) take elements.now (told_result Name.Record (track_of self.old.state take) take result) self.new.state (D.Device.meaning self.new.device) }
    {
        match &mut self.state {
            State::Unmounted => Err(Refusal::NotMounted.into()),
            State::Mounted(_) => Err(Refusal::NotArmed.into()),
            State::Armed(armed) => armed.record(&mut self.device, take, elements),
        }
    }

    // Ends the take; the answer is its length.
    pub fn end(&mut self, take: u32) -> Result<u32, Failed>
        ensures { Ends D.Device.layer self.old.state (D.Device.meaning self.old.device) take result self.new.state (D.Device.meaning self.new.device) }
    {
        let track = self.track_of(take);
        self.run(Call::End { take })
            .map_err(|stopped| stopped.told(Name::End, track, take))
    }

    // Withdraws the track's highest standing take; the answer is its number.
    pub fn withdraw(&mut self, track: u8) -> Result<u32, Failed>
        ensures { Withdraws D.Device.layer self.old.state (D.Device.meaning self.old.device) track result self.new.state (D.Device.meaning self.new.device) }
    {
        let take = self.chosen(track);
        self.run(Call::Withdraw { track })
            .map_err(|stopped| stopped.told(Name::Withdraw, track, take))
    }
}
