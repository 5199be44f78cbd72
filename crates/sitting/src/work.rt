// The work of those calls whose part in a sitting is shown by a lemma that is named for them; the calls hand on to these.
ghost use Rattle.std.specs.Prelude.{◌≡◌, ◌≢◌, ℕ, List, ◌∷◌, [], map, length, take};
ghost use Rattle.device.specs.Meaning.{Meaning};
ghost use Rattle.device.specs.Cuts.{EachCut, cut_by};
ghost use Rattle.takes.specs.Entries.{begin, block, trailer, withdrawal};
ghost use Rattle.takes.specs.Takes.{takes};
ghost use Rattle.journal.specs.declared.header.Header.{Header};
ghost use Rattle.recorder.specs.declared.State.TheVariants.{Unmounted};
ghost use Rattle.recorder.specs.Formats.{Formats, header_of};
ghost use Rattle.recorder.specs.Mounts.{Mounts};
ghost use Rattle.recorder.specs.Entries.{Arms, Saves, Begins, Records, Ends, Withdraws};
ghost use Rattle.recorder.specs.Plays.{Plays};
ghost use Rattle.recorder.specs.Exports.{Exports};
ghost use Rattle.wave.specs.Export.{Exported};
ghost use Rattle.sitting.specs.Events.{Item, items_of, Asked, Format, Mount, Arm, Begin, Record, End, Withdraw, Save, Play, Export, called, cut, Events, book};
ghost use Rattle.sitting.specs.Sittings.{numbered, Begun, Resumes, Leads, CutLeads, InSittings};
ghost use Rattle.sitting.specs.Claims.{WhereAccepted, Names, NamesWithin, place_of, FindsBook, FindsSaved, PunchedIn, OtherTracksStay, TracksStay, Restored, PlaysLog, track_bytes, ExportsLog};

use crate::Sitting;
use device::{CuttableDevice, Device};
use element::Element;
use recorder::Failed;

impl<D: CuttableDevice> Sitting<D> {
    // Formats the device.
    pub(crate) fn format_recorder(
        &mut self,
        kinds: &[u8],
        rate: u32,
        sitting: u32,
    ) -> Result<u32, Failed>
        ensures does { Formats D.Device.layer self.old.recorder.state (D.Device.meaning self.old.recorder.device) kinds.now rate sitting result self.new.recorder.state (D.Device.meaning self.new.recorder.device) }
        ensures begins { Begun D.Device.meaning D.Device.layer (header_of kinds.now rate sitting) result self.new.recorder }
        ensures on { Resumes D.Device.meaning D.Device.layer (Format kinds.now rate sitting) result self.old.recorder self.new.recorder }
        ensures named { Names D.Device.pile 0 result }
    {
        self.recorder.format(kinds, rate, sitting)
    }

    // Arms the recorder.
    pub(crate) fn arm_recorder(&mut self) -> Result<u32, Failed>
        ensures does { Arms D.Device.layer self.old.recorder.state (D.Device.meaning self.old.recorder.device) result self.new.recorder.state (D.Device.meaning self.new.recorder.device) }
        ensures on { Leads D.Device.meaning D.Device.layer Arm result self.old.recorder self.new.recorder }
        ensures named { Names D.Device.pile (place_of self.old.recorder.state) result }
    {
        self.recorder.arm()
    }

    // Begins a take.
    pub(crate) fn begin_recorder(&mut self, track: u8, position: u32) -> Result<u32, Failed>
        ensures does { Begins D.Device.layer self.old.recorder.state (D.Device.meaning self.old.recorder.device) track position result self.new.recorder.state (D.Device.meaning self.new.recorder.device) }
        ensures on { Leads D.Device.meaning D.Device.layer (Begin track position) result self.old.recorder self.new.recorder }
        ensures named { Names D.Device.pile (place_of self.old.recorder.state) result }
        ensures tracks_stay { InSittings D.Device.meaning D.Device.layer self.old.recorder (λ hd es. WhereAccepted result (λ n. TracksStay (book es).entries (begin track position))) }
    {
        self.recorder.begin(track, position)
    }

    // Records the elements.
    pub(crate) fn record_recorder<E: Element>(
        &mut self,
        take: u32,
        elements: &[E],
    ) -> Result<u32, Failed>
        ensures does { Records D.Device.layer E.Element.KIND E.Element.lawful E.Element.bytes self.old.recorder.state (D.Device.meaning self.old.recorder.device) take elements.now result self.new.recorder.state (D.Device.meaning self.new.recorder.device) }
        ensures on { Leads D.Device.meaning D.Device.layer (Record E.Element.KIND take (items_of E.Element.lawful E.Element.bytes elements.now)) result self.old.recorder self.new.recorder }
        ensures punched_in { InSittings D.Device.meaning D.Device.layer self.old.recorder (λ hd es. WhereAccepted result (λ n. PunchedIn (block take (map E.Element.bytes elements.now) ∷ (book es).entries) take)) }
        ensures others_stay { InSittings D.Device.meaning D.Device.layer self.old.recorder (λ hd es. WhereAccepted result (λ n. OtherTracksStay (book es).entries (block take (map E.Element.bytes elements.now)) (takes (book es).entries take).track)) }
        ensures named { Names D.Device.pile (place_of self.old.recorder.state) result }
    {
        self.recorder.record(take, elements)
    }

    // Ends the take.
    pub(crate) fn end_recorder(&mut self, take: u32) -> Result<u32, Failed>
        ensures does { Ends D.Device.layer self.old.recorder.state (D.Device.meaning self.old.recorder.device) take result self.new.recorder.state (D.Device.meaning self.new.recorder.device) }
        ensures on { Leads D.Device.meaning D.Device.layer (End take) result self.old.recorder self.new.recorder }
        ensures named { Names D.Device.pile (place_of self.old.recorder.state) result }
        ensures tracks_stay { InSittings D.Device.meaning D.Device.layer self.old.recorder (λ hd es. WhereAccepted result (λ n. TracksStay (book es).entries (trailer take))) }
    {
        self.recorder.end(take)
    }

    // Withdraws a take.
    pub(crate) fn withdraw_recorder(&mut self, track: u8) -> Result<u32, Failed>
        ensures does { Withdraws D.Device.layer self.old.recorder.state (D.Device.meaning self.old.recorder.device) track result self.new.recorder.state (D.Device.meaning self.new.recorder.device) }
        ensures on { Leads D.Device.meaning D.Device.layer (Withdraw track) result self.old.recorder self.new.recorder }
        ensures restored { InSittings D.Device.meaning D.Device.layer self.old.recorder (λ hd es. WhereAccepted result (λ take. Restored (book es).entries track take)) }
        ensures others_stay { InSittings D.Device.meaning D.Device.layer self.old.recorder (λ hd es. WhereAccepted result (λ take. OtherTracksStay (book es).entries (withdrawal track take) track)) }
        ensures named { Names D.Device.pile (place_of self.old.recorder.state) result }
    {
        self.recorder.withdraw(track)
    }

    // Plays the track.
    pub(crate) fn play_recorder<E: Element>(
        &mut self,
        track: u8,
        from: u32,
        out: &mut [E],
    ) -> Result<usize, Failed>
        ensures does { Plays D.Device.layer E.Element.KIND E.Cell.value E.Cell.WIDTH self.old.recorder.state (D.Device.meaning self.old.recorder.device) track from out.old result self.new.recorder.state (D.Device.meaning self.new.recorder.device) out.new }
        ensures on { Leads D.Device.meaning D.Device.layer (Play E.Element.KIND track from) result self.old.recorder self.new.recorder }
        ensures named { NamesWithin D.Device.pile (place_of self.old.recorder.state) result }
        ensures shows { InSittings D.Device.meaning D.Device.layer self.old.recorder (λ hd es. WhereAccepted result (λ n. PlaysLog E.Cell.value (book es).entries track from out.old n out.new)) }
    {
        self.recorder.play(track, from, out)
    }

    // Exports the track.
    pub(crate) fn export_recorder(&mut self, track: u8, out: &mut [u8]) -> Result<usize, Failed>
        ensures does { Exports D.Device.layer self.old.recorder.state (D.Device.meaning self.old.recorder.device) track out.old result self.new.recorder.state (D.Device.meaning self.new.recorder.device) out.new }
        ensures on { Leads D.Device.meaning D.Device.layer (Export track) result self.old.recorder self.new.recorder }
        ensures named { NamesWithin D.Device.pile (place_of self.old.recorder.state) result }
        ensures writes { InSittings D.Device.meaning D.Device.layer self.old.recorder (λ hd es. WhereAccepted result (λ n. ExportsLog hd (book es).entries track out.old n out.new)) }
        ensures readable { InSittings D.Device.meaning D.Device.layer self.old.recorder (λ hd es. WhereAccepted result (λ n. Exported (take n out.new) hd.rate (track_bytes (book es).entries track))) }
    {
        self.recorder.export(track, out)
    }
}
