// Refusals: why a call is not done, although no device stands in its way.
ghost use Rattle.std.specs.Prelude.{◌≡◌, None};
ghost use Rattle.recorder.specs.Refusals.{refusal_number, unless, passed};

use thiserror::Error;

// Why a call is refused. A refused call has changed nothing.
#[derive(Clone, Copy, PartialEq, Eq, Debug, Error)]
pub enum Refusal {
    #[error("the device has fewer than two sectors")]
    TooSmall = 1,
    #[error("the recorder is mounted")]
    NotUnmounted = 2,
    #[error("a recording has one to eight tracks, each of sound or of marks")]
    BadTracks = 3,
    #[error("the rate is not from 8,000 to 48,000")]
    BadRate = 4,
    #[error("the recorder is not mounted")]
    NotMounted = 5,
    #[error("the device holds no recording")]
    NoRecording = 6,
    #[error("the recorder is armed")]
    AlreadyArmed = 7,
    #[error("the recorder is not armed")]
    NotArmed = 8,
    #[error("there is no such track")]
    NoSuchTrack = 9,
    #[error("there is no such take")]
    NoSuchTake = 10,
    #[error("the take is not open")]
    NotOpen = 11,
    #[error("a take is open on the track")]
    TakeOpen = 12,
    #[error("the position is beyond the end of the track")]
    BeyondEnd = 13,
    #[error("there are 64 takes")]
    TooManyTakes = 14,
    #[error("the track holds elements of another kind")]
    OtherKind = 15,
    #[error("a block holds no elements, or more than fit")]
    BadCount = 16,
    #[error("the device is full")]
    Full = 17,
    #[error("no take of the track is standing")]
    NoneStanding = 18,
    #[error("the buffer is shorter than the file")]
    TooShort = 19,
    #[error("an element is not lawful")]
    Unlawful = 20,
}

// The number that stands for a refusal.
impl From<Refusal> for u8 {
    ghost from_gives = { λ refusal number. number ≡ refusal_number refusal };

    fn from(refusal: Refusal) -> u8 {
        refusal as u8
    }
}

impl Refusal {
    // The refusal is due, unless the test holds.
    pub fn unless(self, holds: bool) -> Result<(), Refusal>
        ensures { result ≡ passed (unless holds self None) }
    {
        if holds { Ok(()) } else { Err(self) }
    }
}
