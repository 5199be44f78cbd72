// The sitting that a script works, and its commands.
ghost use Rattle.std.specs.Prelude.{◌≡◌, ℕ, List, [], ◌∷◌, ◌++◌, None, Some, map, take, IfSome, IfOk, OnOk, MatchOption};
ghost use Rattle.std.specs.Io.KnownBytes.{Appends};
ghost use Rattle.std.specs.Result.{result_map_both};
ghost use Rattle.element.specs.Kinds.{kind_number};
ghost use Rattle.layers.specs.Fused.{unset, fuse_layer, fuse_meaning};
ghost use Rattle.script.specs.Commands.{said};
ghost use Rattle.script.specs.Meaning.{meaning};
ghost use Rattle.recorder.specs.declared.State.TheVariants.{Unmounted};
ghost use Rattle.recorder.specs.Panel.{kind_on};
ghost use Rattle.recorder.specs.Plays.{Plays};
ghost use Rattle.desk.specs.Desks.{Does, Meant, Played, PowerCut, TrackPlayed};
ghost use Rattle.desk.specs.Lines.{first_line, lines, rest};
ghost use Rattle.desk.specs.Scripts.{Answered, NextAnswered};
ghost use Rattle.desk.specs.Text.{text};

use crate::answer::Answer;
use crate::lines::next_line;
use device::CuttableDevice;
use element::{Element, Kind, Mark};
use layers::Fuse;
use recorder::Failed;
use script::Command;
use sitting::Sitting;
use std::alloc::{AllocError, Global};
use std::io;
use std::io::{BufRead, ErrorKind, Write};

// How many elements of a track are played at most.
const MOST_PLAYED: usize = 512;

// What a slice holds before marks are played into it.
const NO_MARK: Mark = Mark {
    tick: 0,
    point: 0,
    event: 0,
};

// A sitting over a device with a fuse.
#[derive(Drop)]
pub struct Desk<D> {
    sitting: Sitting<Fuse<D>>,
}

impl<D: CuttableDevice + Drop> Desk<D> {
    // A recorder that is not mounted, and a fuse that is not set.
    pub fn new(device: D) -> Desk<D>
        ensures { result.sitting.recorder ≡ record { device = record { counter = unset; inner = device }; state = Unmounted } }
    {
        Desk {
            sitting: Sitting::new(Fuse::new(device)),
        }
    }

    // Answers each line of the input by a line of the output, which is written before the next line is read.
    pub fn answer_all<R: BufRead, W: Write>(
        self,
        alloc: Global,
        input: &mut R,
        output: &mut W,
    ) -> io::Result<()>
        ensures { OnOk result (IfSome (R.Read.remaining input.old) (λ text. (written : List ℕ)
            × Answered (λ d line answer d'. Meant D.Device.meaning D.CuttableDevice.images D.CuttableDevice.below d (meaning line) answer d') self.sitting.recorder (lines text) written
            × Appends (W.contents output.old) (W.contents output.new) written)) }
    {
        let mut desk = self;
        for _ in 0..u64::MAX {
            match desk.answer_next(alloc, input, output)? {
                Some(next) => desk = next,
                None => return Ok(()),
            }
        }
        Err(ErrorKind::Other.into())
    }

    // Answers the next line of the input, if there is one.
    fn answer_next<R: BufRead, W: Write>(
        self,
        alloc: Global,
        input: &mut R,
        output: &mut W,
    ) -> io::Result<Option<Desk<D>>>
        ensures answered { IfOk result (λ next. MatchOption next
            (IfSome (R.Read.remaining input.old) (λ left. None ≡ first_line left) × (W.contents output.new ≡ W.contents output.old))
            (λ desk. NextAnswered (λ d line answer d'. Meant D.Device.meaning D.CuttableDevice.images D.CuttableDevice.below d (meaning line) answer d') self.sitting.recorder (R.Read.remaining input.old) desk.sitting.recorder (W.contents output.old) (W.contents output.new))) }
        ensures rest { OnOk result (IfSome (R.Read.remaining input.old) (λ left. R.Read.remaining input.new ≡ Some (rest left))) }
    {
        let Some(line) = next_line(alloc, input)? else {
            return Ok(None);
        };
        let (desk, answer) = self.answer(alloc, &line)?;
        tell(alloc, answer, output)?;
        Ok(Some(desk))
    }

    // Does what the line means, if it means anything. The desk is handed back, since after a cut it has another recorder.
    pub fn answer(self, alloc: Global, line: &[u8]) -> Result<(Desk<D>, Answer), AllocError>
        ensures { IfOk result (λ made. Meant D.Device.meaning D.CuttableDevice.images D.CuttableDevice.below self.sitting.recorder (meaning line.now) made.1 made.0.sitting.recorder) }
    {
        match script::parse(alloc, line)? {
            Some(command) => self.obey(alloc, command),
            None => Ok((self, Answer::Bad)),
        }
    }

    // Does the command.
    fn obey(mut self, alloc: Global, command: Command) -> Result<(Desk<D>, Answer), AllocError>
        ensures { IfOk result (λ made. Does D.Device.meaning D.CuttableDevice.images D.CuttableDevice.below self.sitting.recorder (said command) made.1 made.0.sitting.recorder) }
    {
        let answer = match command {
            Command::Format {
                kinds,
                rate,
                sitting,
            } => {
                let kinds = numbers_of(alloc, &kinds)?;
                self.sitting.format(&kinds, rate, sitting).into()
            }
            Command::Mount => self.sitting.mount().into(),
            Command::Arm => self.sitting.arm().into(),
            Command::Begin { track, position } => self.sitting.begin(track, position).into(),
            Command::Sound { take, samples } => self.sitting.record(take, &samples).into(),
            Command::Mark { take, mark } => self.sitting.record(take, &[mark]).into(),
            Command::End { take } => self.sitting.end(take).into(),
            Command::Withdraw { track } => self.sitting.withdraw(track).into(),
            Command::Play { track } => self.play(alloc, track)?,
            Command::Save => self.sitting.save().into(),
            Command::Cut { plan } => return Ok((self.cut(&plan), Answer::Cut)),
            Command::Fuse { count } => {
                self.sitting.recorder.device.set(count);
                Answer::Done
            }
        };
        Ok((self, answer))
    }

    // Cuts the power, and goes on with a new recorder over what was left.
    fn cut(self, plan: &[u8]) -> Desk<D>
        ensures { PowerCut D.Device.meaning D.CuttableDevice.images D.CuttableDevice.below plan.now self.sitting.recorder result.sitting.recorder }
    {
        Desk {
            sitting: self.sitting.cut(plan),
        }
    }

    // Plays a track from its start. A track that does not exist is asked for sound, and refused.
    fn play(&mut self, alloc: Global, track: u8) -> Result<Answer, AllocError>
        ensures { IfOk result (λ answer. TrackPlayed D.Device.meaning (kind_on self.old.sitting.recorder.state track) self.old.sitting.recorder track answer self.new.sitting.recorder) }
    {
        match self.sitting.recorder.kind(track) {
            Some(Kind::Mark) => Ok(
                self.played(alloc, track, &mut [NO_MARK; MOST_PLAYED])?
                    .map_or_else(Answer::from, Answer::Marks),
            ),
            _ => Ok(
                self.played(alloc, track, &mut [0i16; MOST_PLAYED])?
                    .map_or_else(Answer::from, Answer::Sound),
            ),
        }
    }

    // Plays a track from its start into the slice, and hands out what was played.
    fn played<E: Element>(
        &mut self,
        alloc: Global,
        track: u8,
        slice: &mut [E],
    ) -> Result<Result<Vec<E>, Failed>, AllocError>
        ensures { IfOk result (λ found. Played (λ r out. Plays fuse_layer E.Element.KIND E.Cell.value E.Cell.WIDTH self.old.sitting.recorder.state (fuse_meaning D.Device.meaning self.old.sitting.recorder.device) track 0 slice.old r self.new.sitting.recorder.state (fuse_meaning D.Device.meaning self.new.sitting.recorder.device) out) (result_map_both (λ elements. elements.items) (λ why. why) found)) }
    {
        match self.sitting.play(track, 0, slice) {
            Ok(count) => Ok(Ok(first(alloc, slice, count)?)),
            Err(failed) => Ok(Err(failed)),
        }
    }
}

// Writes an answer as a line of its own.
fn tell<W: Write>(alloc: Global, answer: Answer, output: &mut W) -> io::Result<()>
    ensures { OnOk result (Appends (W.contents output.old) (W.contents output.new) (text answer ++ 10 ∷ [])) }
{
    let line = format!(in alloc; "{answer}\n")?;
    output.write_all(line.as_bytes())
}

// The first elements of a slice.
fn first<E: Copy>(alloc: Global, slice: &[E], count: usize) -> Result<Vec<E>, AllocError>
    ensures { IfOk result (λ elements. elements.items ≡ take count slice.now) }
{
    slice.iter().take(count).copied().collect(alloc)
}

// The numbers of the kinds.
fn numbers_of(alloc: Global, kinds: &[Kind]) -> Result<Vec<u8>, AllocError>
    ensures { IfOk result (λ numbers. numbers.items ≡ map kind_number kinds.now) }
{
    kinds.iter().map(|kind| u8::from(*kind)).collect(alloc)
}
