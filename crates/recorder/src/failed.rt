// Why a call was not done.
ghost use Rattle.std.specs.Prelude.{◌≡◌};
ghost use Rattle.recorder.specs.declared.failed.Stopped.TheVariants.{Refused as StoppedRefused, Faulted as StoppedFaulted};
ghost use Rattle.recorder.specs.Answers.{told};

use crate::refusal::Refusal;
use device::Fault;

// The name of a call.
#[derive(Clone, Copy, PartialEq, Eq, Debug)]
pub enum Name {
    Format,
    Mount,
    Arm,
    Save,
    Begin,
    Record,
    End,
    Withdraw,
    Play,
    Export,
}

// Why a call was not done: it is refused, or the device answered a fault, which is told whole, with the call, its track and its take
// (0 where it has none).
#[derive(Clone, Copy, PartialEq, Eq, Debug)]
pub enum Failed {
    Refused(Refusal),
    Faulted {
        call: Name,
        track: u8,
        take: u32,
        fault: Fault,
    },
}

// Why the work of a call stopped.
#[derive(Clone, Copy, PartialEq, Eq, Debug)]
pub enum Stopped {
    Refused(Refusal),
    Faulted(Fault),
}

impl From<Refusal> for Stopped {
    ghost from_gives = { λ refusal stopped. stopped ≡ StoppedRefused refusal };

    fn from(refusal: Refusal) -> Stopped {
        Stopped::Refused(refusal)
    }
}

impl From<Fault> for Stopped {
    ghost from_gives = { λ fault stopped. stopped ≡ StoppedFaulted fault };

    fn from(fault: Fault) -> Stopped {
        Stopped::Faulted(fault)
    }
}

impl Stopped {
    // As the caller is told it.
    pub fn told(self, call: Name, track: u8, take: u32) -> Failed
        ensures { result ≡ told call track take self }
    {
        match self {
            Stopped::Refused(refusal) => Failed::Refused(refusal),
            Stopped::Faulted(fault) => Failed::Faulted {
                call,
                track,
                take,
                fault,
            },
        }
    }
}
