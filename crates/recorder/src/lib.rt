// The recorder: its calls, over any device.
// docs/CALLS.md tells each call in words; specs/ states it.
#![tactic(auto)]

ghost use Rattle.std.specs.Prelude.{◌≡◌};
ghost use Rattle.recorder.specs.declared.State.TheVariants.{Unmounted};

mod armed;
mod call;
mod calls;
mod checks;
mod entry;
mod export;
mod failed;
mod format;
mod mount;
mod panel;
mod play;
mod refusal;

pub use armed::ArmedSession;
pub use call::Call;
pub use failed::{Failed, Name};
use journal::Session;
pub use panel::Phase;
pub use refusal::Refusal;

// What a recorder has in hand: nothing yet; the session of the log that a mount has found, in which it plays; or a session in which
// it records too.
#[derive(Clone, Copy)]
pub enum State {
    Unmounted,
    Mounted(Session),
    Armed(ArmedSession),
}

// A recorder and the device that it keeps its recording on.
#[derive(Drop)]
pub struct Recorder<D> {
    pub device: D,
    state: State,
}

impl<D> Recorder<D> {
    // A recorder that is not mounted.
    pub fn new(device: D) -> Recorder<D>
        ensures { result ≡ record { device = device; state = Unmounted } }
    {
        Recorder {
            device,
            state: State::Unmounted,
        }
    }

    // Gives the device back.
    pub fn into_device(self) -> D
        ensures { result ≡ self.device }
    {
        self.device
    }
}
