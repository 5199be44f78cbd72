// The work of an armed recorder: the calls that add an entry.
ghost use Rattle.std.specs.Prelude.{◌≡◌, ◌+◌, ◌<◌, ◌≤◌, [], length, OnOk};
ghost use Rattle.std.specs.List.{list_all};
ghost use Rattle.std.specs.Result.{result_err};
ghost use Rattle.device.specs.Calls.{Writes};
ghost use Rattle.sector.specs.Layout.{payload_of};
ghost use Rattle.journal.specs.Sessions.{table_of, session_place, SessionFollows, Adds};

use crate::State;
use crate::checks::{self, chosen};
use crate::entry::{blank, packed, size_of, write};
use crate::failed::{Name, Stopped};
use crate::refusal::Refusal;
use device::{Device, Fault};
use element::Element;
use journal::Session;
use takes::Outline;

// The session of an armed recorder. Its log has an opening, as the type says.
#[derive(Clone, Copy)]
pub struct ArmedSession {
    session: Session,
    ghost opened: { 1 ≤ session.entries },
}

impl ArmedSession {
    // Here, and not at the head of the file, since these definitions name the struct.
    ghost use Rattle.recorder.specs.Refusals.{chosen, begin_refusal, record_refusal, end_refusal, withdraw_refusal};
    ghost use Rattle.recorder.specs.Answers.{told_result};
    ghost use Rattle.recorder.specs.Runs.{epoch_by, armed_by};
    ghost use Rattle.recorder.specs.Entries.{Entered, AddedBy, Arms, Arming, Begins, Records, Ends, Withdraws, next_sector};

    // Writes the opening of a new epoch; the answer is the session that the recorder is armed with.
    pub fn open<D: Device>(device: &mut D, session: &Session) -> Result<ArmedSession, Stopped>
        ensures { Arms D.Device.layer (State.Mounted session.now) (D.Device.meaning device.old) (told_result Name.Arm 0 0 (epoch_by result)) (armed_by session.now result) (D.Device.meaning device.new) }
    {
        checks::arm(session, size_of(device))?;
        Self::start(device, session)
    }

    // Starts the epoch: the opening is written between two flushes.
    fn start<D: Device>(device: &mut D, session: &Session) -> Result<ArmedSession, Stopped>
        requires { session.now.entries < 65535 }
        ensures { Arming D.Device.layer session.now (D.Device.meaning device.old) (told_result Name.Arm 0 0 (epoch_by result)) (armed_by session.now result) (D.Device.meaning device.new) }
    {
        device.flush()?; // now no older entry can be missing below the opening
        Self::write_opening(device, session)?;
        device.flush()?; // now the opening is there
        Ok(Self::opened(session))
    }

    // Writes the opening at the session's next place.
    fn write_opening<D: Device>(device: &mut D, session: &Session) -> Result<(), Fault>
        requires { session.now.entries < 65535 }
        ensures { Writes D.Device.layer (D.Device.meaning device.old) (session_place session.now) (next_sector session.now Outline.Opening []) result (D.Device.meaning device.new) }
    {
        write(device, session, Outline::Opening, &mut blank())
    }

    // The session with the opening as its newest entry.
    fn opened(session: &Session) -> ArmedSession
        requires { session.now.entries < 65535 }
        ensures adds { Adds session.now Outline.Opening result.session }
        ensures epoch { result.session.epoch ≡ session.now.epoch + 1 }
    {
        let mut session = *session;
        session.add(Outline::Opening);
        ArmedSession { session }
    }

    // The session itself.
    pub fn session(&self) -> &Session
        ensures { result.now ≡ self.now.session }
    {
        &self.session
    }

    // Writes the sector of an entry that may follow, around the payload that stands in it, and goes on with the entry.
    fn enter<D: Device>(
        &mut self,
        device: &mut D,
        outline: Outline,
        sector: &mut [u8; 512],
    ) -> Result<(), Fault>
        requires { SessionFollows self.old.session outline }
        ensures { Entered D.Device.layer self.old outline (payload_of sector.old) (D.Device.meaning device.old) result self.new (D.Device.meaning device.new) }
    {
        write(device, &self.session, outline, sector)?;
        self.session.add(outline);
        Ok(())
    }

    // Enters the entry, and answers the number.
    fn add<D: Device>(
        &mut self,
        device: &mut D,
        outline: Outline,
        mut sector: [u8; 512],
        answer: u32,
    ) -> Result<u32, Stopped>
        requires { SessionFollows self.old.session outline }
        ensures { AddedBy D.Device.layer self.old outline (payload_of sector) answer (D.Device.meaning device.old) result self.new (D.Device.meaning device.new) }
    {
        self.enter(device, outline, &mut sector)?;
        Ok(answer)
    }

    // Tests a begin on the device. If it passes, its entry may follow.
    fn check_begin<D: Device>(&self, device: &D, track: u8, position: u32) -> Result<(), Refusal>
        ensures due { result_err result ≡ begin_refusal self.now.session (D.Device.meaning device.now).size track position }
        ensures follows { OnOk result (SessionFollows self.now.session (Outline.Begin track position)) }
    {
        checks::begin(&self.session, size_of(device), track, position)
    }

    // Begins a take on the track at the position.
    pub fn begin<D: Device>(
        &mut self,
        device: &mut D,
        track: u8,
        position: u32,
    ) -> Result<u32, Stopped>
        ensures { Begins D.Device.layer (State.Armed self.old) (D.Device.meaning device.old) track position (told_result Name.Begin track (self.old.session.table.inner.count + 1) result) (State.Armed self.new) (D.Device.meaning device.new) }
    {
        self.check_begin(device, track, position)?;
        let take = self.session.takes() + 1;
        self.add(device, Outline::Begin { track, position }, blank(), take)
    }

    // Tests a record on the device. If it passes, its block may follow.
    #[tactic(auto, using(crate::proofs::Decides::record_due))]
    fn check_record<D: Device, E: Element>(
        &self,
        device: &D,
        take: u32,
        elements: &[E],
    ) -> Result<(), Refusal>
        ensures due { result_err result ≡ record_refusal self.now.session (D.Device.meaning device.now).size take E.Element.KIND (length elements.now) (list_all E.Element.lawful elements.now) }
        ensures follows { OnOk result (SessionFollows self.now.session (Outline.Block take (length elements.now))) }
    {
        checks::record(&self.session, size_of(device), take, elements)
    }

    // Records the elements into the take, as one block.
    pub fn record<D: Device, E: Element>(
        &mut self,
        device: &mut D,
        take: u32,
        elements: &[E],
    ) -> Result<u32, Stopped>
        ensures { Records D.Device.layer E.Element.KIND E.Element.lawful E.Element.bytes (State.Armed self.old) (D.Device.meaning device.old) take elements.now (told_result Name.Record (table_of self.old.session take).track take result) (State.Armed self.new) (D.Device.meaning device.new) }
    {
        self.check_record(device, take, elements)?;
        let count = elements.len() as u16;
        let len = self.session.row(take).len + u32::from(count);
        self.add(
            device,
            Outline::Block { take, count },
            packed(elements),
            len,
        )
    }

    // Tests an end on the device. If it passes, its trailer may follow.
    fn check_end<D: Device>(&self, device: &D, take: u32) -> Result<(), Refusal>
        ensures due { result_err result ≡ end_refusal self.now.session (D.Device.meaning device.now).size take }
        ensures follows { OnOk result (SessionFollows self.now.session (Outline.Trailer take)) }
    {
        checks::end(&self.session, size_of(device), take)
    }

    // Ends the take.
    pub fn end<D: Device>(&mut self, device: &mut D, take: u32) -> Result<u32, Stopped>
        ensures { Ends D.Device.layer (State.Armed self.old) (D.Device.meaning device.old) take (told_result Name.End (table_of self.old.session take).track take result) (State.Armed self.new) (D.Device.meaning device.new) }
    {
        self.check_end(device, take)?;
        let len = self.session.row(take).len;
        self.add(device, Outline::Trailer { take }, blank(), len)
    }

    // Tests a withdrawal on the device. If it passes, its entry may follow.
    fn check_withdraw<D: Device>(&self, device: &D, track: u8) -> Result<(), Refusal>
        ensures due { result_err result ≡ withdraw_refusal self.now.session (D.Device.meaning device.now).size track }
        ensures follows { OnOk result (SessionFollows self.now.session (Outline.Withdrawal track (chosen self.now.session track))) }
    {
        checks::withdraw(&self.session, size_of(device), track)
    }

    // Withdraws the take of the track that is chosen.
    pub fn withdraw<D: Device>(&mut self, device: &mut D, track: u8) -> Result<u32, Stopped>
        ensures { Withdraws D.Device.layer (State.Armed self.old) (D.Device.meaning device.old) track (told_result Name.Withdraw track (chosen self.old.session track) result) (State.Armed self.new) (D.Device.meaning device.new) }
    {
        self.check_withdraw(device, track)?;
        let take = chosen(&self.session, track);
        self.add(device, Outline::Withdrawal { track, take }, blank(), take)
    }
}
