// What the panel asks of a recorder.
ghost use Rattle.std.specs.Prelude.{◌≡◌, None, Some, MatchOption};
ghost use Rattle.recorder.specs.Panel.{phase_of, session_of, sitting_of, rate_of, tracks_of, kind_on, end_on, takes_of, take_of, track_of, chosen_of, room_of};

use crate::checks::{chosen, has_take, has_track};
use crate::{Recorder, State};
use device::Device;
use element::Kind;
use journal::Session;
use takes::Row;

// A recorder's state without its session.
#[derive(Clone, Copy, PartialEq, Eq, Debug)]
pub enum Phase {
    Unmounted,
    Mounted,
    Armed,
}

impl<D> Recorder<D> {
    // Whether the recorder is mounted or armed.
    pub fn phase(&self) -> Phase
        ensures { result ≡ phase_of self.now.state }
    {
        match &self.state {
            State::Unmounted => Phase::Unmounted,
            State::Mounted(_) => Phase::Mounted,
            State::Armed(_) => Phase::Armed,
        }
    }

    // The session that the recorder goes by, if it is mounted.
    fn session(&self) -> Option<&Session>
        ensures { MatchOption result (session_of self.now.state ≡ None) (λ s. session_of self.now.state ≡ Some s.now) }
    {
        match &self.state {
            State::Unmounted => None,
            State::Mounted(session) => Some(session),
            State::Armed(armed) => Some(armed.session()),
        }
    }

    // The sitting number.
    pub fn sitting(&self) -> Option<u32>
        ensures { result ≡ sitting_of self.now.state }
    {
        self.session().map(|session| session.header().sitting)
    }

    // The rate, in samples a second.
    pub fn rate(&self) -> Option<u32>
        ensures { result ≡ rate_of self.now.state }
    {
        self.session().map(|session| session.header().rate)
    }

    // How many tracks there are; 0 where nothing is mounted.
    pub fn tracks(&self) -> u8
        ensures { result ≡ tracks_of self.now.state }
    {
        self.session().map_or(0, |session| session.header().tracks)
    }

    // The kind of a track.
    pub fn kind(&self, track: u8) -> Option<Kind>
        ensures { result ≡ kind_on self.now.state track }
    {
        let session = self.session()?;
        has_track(session, track).then_some(session.header().kind(track))
    }

    // Where a track ends; 0 where there is none.
    pub fn track_end(&self, track: u8) -> u64
        ensures { result ≡ end_on self.now.state track }
    {
        self.session().map_or(0, |session| session.track_end(track))
    }

    // How many takes were begun; 0 where nothing is mounted.
    pub fn takes(&self) -> u32
        ensures { result ≡ takes_of self.now.state }
    {
        self.session().map_or(0, Session::takes)
    }

    // A take without its elements.
    pub fn take(&self, take: u32) -> Option<Row>
        ensures { result ≡ take_of self.now.state take }
    {
        let session = self.session()?;
        has_take(session, take).then_some(session.row(take))
    }

    // The track of a take; 0 where there is none.
    pub(crate) fn track_of(&self, take: u32) -> u8
        ensures { result ≡ track_of self.now.state take }
    {
        self.session().map_or(0, |session| session.row(take).track)
    }

    // The take that a withdrawal on the track takes; 0 where there is none.
    pub(crate) fn chosen(&self, track: u8) -> u32
        ensures { result ≡ chosen_of self.now.state track }
    {
        self.session().map_or(0, |session| chosen(session, track))
    }
}

impl<D: Device> Recorder<D> {
    // How many entries there is room for; 0 where nothing is mounted.
    pub fn room(&self) -> u32
        ensures { result ≡ room_of self.now.state (D.Device.meaning self.now.device).size }
    {
        let size = self.device.size();
        self.session()
            .map_or(0, |session| size.saturating_sub(session.place()))
    }
}
