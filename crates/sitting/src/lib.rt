// A sitting: a recorder from its format on, through whatever happens to it. The book that is kept of it says what a mount finds, what
// a play shows, and what an export writes.
// docs/SITTING.md tells it in words; specs/ states it.
#![tactic(auto)]

ghost use Rattle.std.specs.Prelude.{◌≡◌, ◌≢◌, ℕ, List, ◌∷◌, [], map, length, take};
ghost use Rattle.device.specs.Meaning.{Meaning};
ghost use Rattle.device.specs.Cuts.{EachCut, cut_by};
ghost use Rattle.takes.specs.Entries.{begin, block, trailer, withdrawal};
ghost use Rattle.takes.specs.Takes.{takes};
ghost use Rattle.journal.specs.declared.header.Header.{Header};
ghost use Rattle.recorder.specs.declared.State.TheVariants.{Unmounted};
ghost use Rattle.recorder.specs.Formats.{Formats, header_of};
ghost use Rattle.recorder.specs.Mounts.{Mounts};
ghost use Rattle.recorder.specs.Entries.{Arms, Saves, Begins, Records, Ends, Withdraws};
ghost use Rattle.recorder.specs.Plays.{Plays};
ghost use Rattle.recorder.specs.Exports.{Exports};
ghost use Rattle.wave.specs.Export.{Exported};
ghost use Rattle.sitting.specs.Events.{Item, items_of, Asked, Format, Mount, Arm, Begin, Record, End, Withdraw, Save, Play, Export, called, cut, Events, book};
ghost use Rattle.sitting.specs.Sittings.{numbered, Begun, Resumes, Leads, CutLeads, InSittings};
ghost use Rattle.sitting.specs.Claims.{WhereAccepted, Names, NamesWithin, place_of, FindsBook, FindsSaved, PunchedIn, OtherTracksStay, TracksStay, Restored, PlaysLog, track_bytes, ExportsLog};

mod example;
mod office;
mod work;

use device::{CuttableDevice, Device};
use element::Element;
pub use example::a_sitting_with_a_gap;
use recorder::{Failed, Recorder};

// A recorder over a device whose power can be cut.
#[derive(Drop)]
pub struct Sitting<D> {
    pub recorder: Recorder<D>,
}

impl<D: CuttableDevice> Sitting<D> {
    // A recorder that is not mounted. A sitting begins with its first accepted format.
    pub fn new(device: D) -> Sitting<D>
        ensures { result.recorder ≡ record { device = device; state = Unmounted } }
    {
        Sitting {
            recorder: Recorder::new(device),
        }
    }

    // Formats the device for a recording whose tracks are of these kinds, by their numbers; the answer is how many sectors were blanked.
    // With an accepted format a sitting begins.
    pub fn format(&mut self, kinds: &[u8], rate: u32, sitting: u32) -> Result<u32, Failed>
        ensures does { Formats D.Device.layer self.old.recorder.state (D.Device.meaning self.old.recorder.device) kinds.now rate sitting result self.new.recorder.state (D.Device.meaning self.new.recorder.device) }
        ensures begins { Begun D.Device.meaning D.Device.layer (header_of kinds.now rate sitting) result self.new.recorder }
        ensures on { Resumes D.Device.meaning D.Device.layer (Format kinds.now rate sitting) result self.old.recorder self.new.recorder }
        ensures named { Names D.Device.pile 0 result }
    {
        self.format_recorder(kinds, rate, sitting)
    }

    // Finds the log on the device; the answer is how many entries it has.
    #[tactic(auto, using(crate::proofs::Calls::mount_leads, crate::proofs::Calls::mount_finds, crate::proofs::Calls::mount_finds_saved, crate::proofs::Faults::mount_names))]
    pub fn mount(&mut self) -> Result<u32, Failed>
        ensures does { Mounts D.Device.layer self.old.recorder.state (D.Device.meaning self.old.recorder.device) result self.new.recorder.state (D.Device.meaning self.new.recorder.device) }
        ensures on { Leads D.Device.meaning D.Device.layer Mount result self.old.recorder self.new.recorder }
        ensures finds { InSittings D.Device.meaning D.Device.layer self.old.recorder (λ hd es. FindsBook hd (book es) (D.Device.meaning self.old.recorder.device) result) }
        ensures saved { InSittings D.Device.meaning D.Device.layer self.old.recorder (λ hd es. WhereAccepted result (λ n. FindsSaved es n)) }
        ensures named { Names D.Device.pile 0 result }
    {
        self.recorder.mount()
    }

    // Arms a mounted recorder; the answer is the new epoch.
    pub fn arm(&mut self) -> Result<u32, Failed>
        ensures does { Arms D.Device.layer self.old.recorder.state (D.Device.meaning self.old.recorder.device) result self.new.recorder.state (D.Device.meaning self.new.recorder.device) }
        ensures on { Leads D.Device.meaning D.Device.layer Arm result self.old.recorder self.new.recorder }
        ensures named { Names D.Device.pile (place_of self.old.recorder.state) result }
    {
        self.arm_recorder()
    }

    // Begins a take on the track at the position; the answer is the take's number.
    pub fn begin(&mut self, track: u8, position: u32) -> Result<u32, Failed>
        ensures does { Begins D.Device.layer self.old.recorder.state (D.Device.meaning self.old.recorder.device) track position result self.new.recorder.state (D.Device.meaning self.new.recorder.device) }
        ensures on { Leads D.Device.meaning D.Device.layer (Begin track position) result self.old.recorder self.new.recorder }
        ensures named { Names D.Device.pile (place_of self.old.recorder.state) result }
        ensures tracks_stay { InSittings D.Device.meaning D.Device.layer self.old.recorder (λ hd es. WhereAccepted result (λ n. TracksStay (book es).entries (begin track position))) }
    {
        self.begin_recorder(track, position)
    }

    // Records the elements into the take as one block; the answer is the take's length with them.
    pub fn record<E: Element>(&mut self, take: u32, elements: &[E]) -> Result<u32, Failed>
        ensures does { Records D.Device.layer E.Element.KIND E.Element.lawful E.Element.bytes self.old.recorder.state (D.Device.meaning self.old.recorder.device) take elements.now result self.new.recorder.state (D.Device.meaning self.new.recorder.device) }
        ensures on { Leads D.Device.meaning D.Device.layer (Record E.Element.KIND take (items_of E.Element.lawful E.Element.bytes elements.now)) result self.old.recorder self.new.recorder }
        ensures punched_in { InSittings D.Device.meaning D.Device.layer self.old.recorder (λ hd es. WhereAccepted result (λ n. PunchedIn (block take (map E.Element.bytes elements.now) ∷ (book es).entries) take)) }
        ensures others_stay { InSittings D.Device.meaning D.Device.layer self.old.recorder (λ hd es. WhereAccepted result (λ n. OtherTracksStay (book es).entries (block take (map E.Element.bytes elements.now)) (takes (book es).entries take).track)) }
        ensures named { Names D.Device.pile (place_of self.old.recorder.state) result }
    {
        self.record_recorder(take, elements)
    }

    // Ends the take; the answer is its length.
    pub fn end(&mut self, take: u32) -> Result<u32, Failed>
        ensures does { Ends D.Device.layer self.old.recorder.state (D.Device.meaning self.old.recorder.device) take result self.new.recorder.state (D.Device.meaning self.new.recorder.device) }
        ensures on { Leads D.Device.meaning D.Device.layer (End take) result self.old.recorder self.new.recorder }
        ensures named { Names D.Device.pile (place_of self.old.recorder.state) result }
        ensures tracks_stay { InSittings D.Device.meaning D.Device.layer self.old.recorder (λ hd es. WhereAccepted result (λ n. TracksStay (book es).entries (trailer take))) }
    {
        self.end_recorder(take)
    }

    // Withdraws the track's highest standing take; the answer is its number.
    pub fn withdraw(&mut self, track: u8) -> Result<u32, Failed>
        ensures does { Withdraws D.Device.layer self.old.recorder.state (D.Device.meaning self.old.recorder.device) track result self.new.recorder.state (D.Device.meaning self.new.recorder.device) }
        ensures on { Leads D.Device.meaning D.Device.layer (Withdraw track) result self.old.recorder self.new.recorder }
        ensures restored { InSittings D.Device.meaning D.Device.layer self.old.recorder (λ hd es. WhereAccepted result (λ take. Restored (book es).entries track take)) }
        ensures others_stay { InSittings D.Device.meaning D.Device.layer self.old.recorder (λ hd es. WhereAccepted result (λ take. OtherTracksStay (book es).entries (withdrawal track take) track)) }
        ensures named { Names D.Device.pile (place_of self.old.recorder.state) result }
    {
        self.withdraw_recorder(track)
    }

    // Flushes the device: what was recorded so far outlasts a loss of power.
    #[tactic(auto, using(crate::proofs::Calls::save_leads, crate::proofs::Faults::save_names))]
    pub fn save(&mut self) -> Result<(), Failed>
        ensures does { Saves self.old.recorder.state (D.Device.meaning self.old.recorder.device) result self.new.recorder.state (D.Device.meaning self.new.recorder.device) }
        ensures on { Leads D.Device.meaning D.Device.layer Save (numbered result) self.old.recorder self.new.recorder }
        ensures named { Names D.Device.pile 0 (numbered result) }
    {
        self.recorder.save()
    }

    // Puts the track from the position on into the slice, as far as both reach, and answers how many elements that are.
    pub fn play<E: Element>(&mut self, track: u8, from: u32, out: &mut [E]) -> Result<usize, Failed>
        ensures does { Plays D.Device.layer E.Element.KIND E.Cell.value E.Cell.WIDTH self.old.recorder.state (D.Device.meaning self.old.recorder.device) track from out.old result self.new.recorder.state (D.Device.meaning self.new.recorder.device) out.new }
        ensures on { Leads D.Device.meaning D.Device.layer (Play E.Element.KIND track from) result self.old.recorder self.new.recorder }
        ensures named { NamesWithin D.Device.pile (place_of self.old.recorder.state) result }
        ensures shows { InSittings D.Device.meaning D.Device.layer self.old.recorder (λ hd es. WhereAccepted result (λ n. PlaysLog E.Cell.value (book es).entries track from out.old n out.new)) }
    {
        self.play_recorder(track, from, out)
    }

    // Writes a track of sound as a WAVE file to the front of the buffer, and answers how many bytes that is.
    pub fn export(&mut self, track: u8, out: &mut [u8]) -> Result<usize, Failed>
        ensures does { Exports D.Device.layer self.old.recorder.state (D.Device.meaning self.old.recorder.device) track out.old result self.new.recorder.state (D.Device.meaning self.new.recorder.device) out.new }
        ensures on { Leads D.Device.meaning D.Device.layer (Export track) result self.old.recorder self.new.recorder }
        ensures named { NamesWithin D.Device.pile (place_of self.old.recorder.state) result }
        ensures writes { InSittings D.Device.meaning D.Device.layer self.old.recorder (λ hd es. WhereAccepted result (λ n. ExportsLog hd (book es).entries track out.old n out.new)) }
        ensures readable { InSittings D.Device.meaning D.Device.layer self.old.recorder (λ hd es. WhereAccepted result (λ n. Exported (take n out.new) hd.rate (track_bytes (book es).entries track))) }
    {
        self.export_recorder(track, out)
    }

    // Cuts the power, and goes on with a recorder that is not mounted over what was left.
    #[tactic(auto, using(crate::proofs::Calls::cut_leads))]
    pub fn cut(self, plan: &[u8]) -> Sitting<D>
        ensures unmounted { result.recorder.state ≡ Unmounted }
        ensures images { D.CuttableDevice.images result.recorder.device ≡ map (cut_by plan.now) (D.CuttableDevice.images self.recorder.device) }
        ensures each { EachCut (D.Device.meaning self.recorder.device ∷ D.CuttableDevice.below self.recorder.device) (D.Device.meaning result.recorder.device ∷ D.CuttableDevice.below result.recorder.device) }
        ensures exact { D.CuttableDevice.severed self.recorder.device plan.now result.recorder.device }
        ensures on { CutLeads D.Device.meaning D.Device.layer self.recorder result.recorder }
    {
        let mut device = self.recorder.into_device();
        device.cut(plan);
        Sitting::new(device)
    }
}
