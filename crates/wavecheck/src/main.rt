// Says of each file named whether it is a sound that an export writes, and what it holds.
#![tactic(auto)]

ghost use Rattle.std.specs.Prelude.{◌≡◌, ◌++◌, ℕ, List, Option, Some, None, ⊤, IfOk, IfErr, IfSome, OnOk, drop, string_bytes};
ghost use Rattle.std.specs.declared.io.Error.{Error};
ghost use Rattle.std.specs.Io.KnownBytes.{Appends};
ghost use Rattle.wavecheck.specs.declared.Problem.TheVariants.{Refused, Unreadable};
ghost use Rattle.wavecheck.specs.Findings.{Judged, Found, IfUnread, beginning};
ghost use Rattle.wavecheck.specs.Tallies.{counted};
ghost use Rattle.wavecheck.specs.Text.{noun_of, sound_text, tally_text, Told, Closing};
ghost use Rattle.wavecheck.specs.Reports.{Reported};

use std::alloc::{AllocError, Global};
use std::fs::File;
use std::io::{Read, Write};
use std::{env, fmt, io};
use wave::{LONGEST_FILE, Refusal};

// The longest file that can be a sound, and one byte more, by which a longer file shows.
const ROOM: u64 = LONGEST_FILE as u64 + 1;

// The noun for so many things.
fn noun<'a>(count: u64, one: &'a str, many: &'a str) -> &'a str
    ensures { result.now ≡ noun_of count one.now many.now }
{
    if count == 1 { one } else { many }
}

// What a file holds whose bytes are a sound that an export writes.
#[derive(Clone, Copy)]
struct Sound {
    rate: u32,
    count: usize,
    milliseconds: u128,
    peak: u16,
}

impl fmt::Display for Sound {
    ghost output = { λ sound. Some (sound_text sound) };

    #[tactic(auto, using(crate::proofs::Texts::three_padded))]
    fn fmt<W: fmt::Write>(&self, f: &mut fmt::Formatter<W>) -> fmt::Result {
        let Sound {
            rate,
            count,
            milliseconds,
            peak,
        } = *self;
        let noun = noun(count as u64, "sample", "samples");
        let seconds = milliseconds / 1000;
        let thousandths = milliseconds % 1000;
        write!(
            f,
            "{rate} Hz, {count} {noun}, {seconds}.{thousandths:03} s, peak {peak}"
        )
    }
}

// Why there is no sound to tell of.
#[derive(Drop)]
enum Problem {
    // the file was read, and is no sound that an export writes
    Refused(Refusal),
    // the file was not read
    Unreadable(io::Error),
}

impl From<Refusal> for Problem {
    ghost from_gives = { λ refusal problem. problem ≡ Refused refusal };

    fn from(refusal: Refusal) -> Problem {
        Problem::Refused(refusal)
    }
}

impl From<io::Error> for Problem {
    ghost from_gives = { λ error problem. problem ≡ Unreadable error };

    fn from(error: io::Error) -> Problem {
        Problem::Unreadable(error)
    }
}

// How many files there were of each kind.
#[derive(Clone, Copy, Default)]
struct Tally {
    files: u64,
    accepted: u64,
    refused: u64,
    unreadable: u64,
}

impl Tally {
    // Counts one file more.
    fn add(&mut self, finding: &Result<Sound, Problem>)
        ensures { self.new ≡ counted finding.now self.old }
    {
        self.files = self.files.saturating_add(1);
        match finding {
            Ok(_) => self.accepted = self.accepted.saturating_add(1),
            Err(Problem::Refused(_)) => self.refused = self.refused.saturating_add(1),
            Err(Problem::Unreadable(_)) => self.unreadable = self.unreadable.saturating_add(1),
        }
    }
}

impl fmt::Display for Tally {
    ghost output = { λ tally. Some (tally_text tally) };

    fn fmt<W: fmt::Write>(&self, f: &mut fmt::Formatter<W>) -> fmt::Result {
        let Tally {
            files,
            accepted,
            refused,
            unreadable,
        } = *self;
        let noun = noun(files, "file", "files");
        write!(
            f,
            "{files} {noun}: {accepted} accepted, {refused} refused, {unreadable} unreadable"
        )
    }
}

// What the bytes of a file are.
fn judge(file: &[u8]) -> Result<Sound, Refusal>
    ensures { Judged file.now result }
{
    let sound = wave::read(file)?;
    Ok(Sound {
        rate: sound.rate,
        count: sound.count(),
        milliseconds: sound.milliseconds(),
        peak: sound.peak(),
    })
}

// Where files are found by their names.
trait Shelf {
    // the bytes of the file of a name, where they are known
    ghost file: { Self → List ℕ → Option (List ℕ) } = { λ _ _. None };

    // the errors by which the file of a name may not be read
    ghost fails: { Self → List ℕ → Error → Type 0 } = { λ _ _ _. ⊤ };

    // The bytes of a file; of one that is too long to be a sound, only so many that this shows.
    fn load(&self, name: &str) -> io::Result<Vec<u8>>
        ensures err { IfErr result (λ error. fails self.now name.now error) }
        ensures ok { IfOk result (λ bytes. IfSome (file self.now name.now)
            (λ whole. bytes.items ≡ beginning whole)) };
}

impl Shelf for HostRuntime {
    fn load(&self, name: &str) -> io::Result<Vec<u8>> {
        let file = File::open(self, name)?;
        let about = file.metadata()?;
        let room = if about.is_file() {
            about.len().min(ROOM)
        } else {
            ROOM
        };
        let bytes = Vec::with_capacity(self.alloc(), room as usize)?;
        read_beginning(file, bytes)
    }
}

// Reads the first bytes of a file, behind those that are there.
fn read_beginning<R: Read + Drop>(file: R, mut bytes: Vec<u8>) -> io::Result<Vec<u8>>
    ensures { IfOk result (λ read. IfSome (R.remaining file)
        (λ whole. read.items ≡ bytes.items ++ beginning whole)) }
{
    file.take(ROOM).read_to_end(&mut bytes)?;
    Ok(bytes)
}

// What a named file turns out to be.
#[tactic(auto, using(crate::proofs::Beginnings::judged_whole))]
fn examine<S: Shelf>(shelf: &S, name: &str) -> Result<Sound, Problem>
    ensures found { IfSome (S.file shelf.now name.now) (λ whole. Found whole result) }
    ensures unread { IfUnread result (S.fails shelf.now name.now) }
{
    let bytes = shelf.load(name)?;
    let sound = judge(&bytes)?;
    Ok(sound)
}

// What is told of a file.
fn tell(alloc: Global, finding: &Result<Sound, Problem>) -> Result<String, AllocError>
    ensures { IfOk result (λ text. Told finding.now (string_bytes text)) }
{
    match finding {
        Ok(sound) => format!(in alloc; "{sound}"),
        Err(Problem::Refused(why)) => format!(in alloc; "refused with {}", u8::from(*why)),
        Err(Problem::Unreadable(why)) => {
            let reason = format!(in alloc; "{why}")?;
            format!(in alloc; "cannot be read: {reason}")
        }
    }
}

// The last line: what was counted, or where no file was named, how the program is used.
fn last_line(alloc: Global, tally: &Tally) -> Result<String, AllocError>
    ensures { IfOk result (λ text. Closing tally.now (string_bytes text)) }
{
    if tally.files == 0 {
        format!(in alloc; "usage: wavecheck FILE..")
    } else {
        format!(in alloc; "{tally}")
    }
}

// The names of the files; the first name is the program's own.
fn files_of(names: &[String]) -> &[String]
    ensures { result.now ≡ drop 1 names.now }
{
    if names.is_empty() { names } else { &names[1..] }
}

// A line for each file, and a last line.
fn report<S: Shelf, W: Write>(
    alloc: Global,
    shelf: &S,
    names: &[String],
    out: &mut W,
) -> io::Result<()>
    ensures { OnOk result ((text : List ℕ)
        × Reported (S.file shelf.now) (S.fails shelf.now) (drop 1 names.now) text
        × Appends (W.contents out.old) (W.contents out.new) text) }
{
    let files = files_of(names);
    let mut tally = Tally::default();
    for name in files {
        let finding = examine(shelf, name.as_str());
        let text = tell(alloc, &finding)?;
        writeln!(out, "{name}: {text}")?;
        tally.add(&finding);
    }
    let last = last_line(alloc, &tally)?;
    writeln!(out, "{last}")
}

fn main(rt: HostRuntime) -> io::Result<()> {
    match env::args(&rt) {
        Ok(names) => {
            let names: Vec<String> = names.collect(rt.alloc())?;
            let mut out = io::LineWriter::new(rt.alloc(), rt.stdout())?;
            report(rt.alloc(), &rt, &names, &mut out)
        }
        Err(error) => println!(rt; "the names of the files cannot be read: {error}"),
    }
}
