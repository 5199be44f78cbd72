// Format: every sector is blanked, and the first is given the header of a recording that has no entry yet.
ghost use Rattle.std.specs.Prelude.{◌≡◌, ℕ, ◌<◌, ◌≤◌, length, MatchBool};
ghost use Rattle.device.specs.declared.fault.Cause.TheVariants.{Sick};
ghost use Rattle.device.specs.Meaning.{Meaning};
ghost use Rattle.journal.specs.declared.header.Header.{Header};
ghost use Rattle.recorder.specs.declared.State.TheVariants.{Unmounted};
ghost use Rattle.recorder.specs.declared.failed.Name.TheVariants.{Format as FormatCall};
ghost use Rattle.recorder.specs.Answers.{told_result};
ghost use Rattle.recorder.specs.Formats.{kind_named, header_of, zeros, Formats, LaidOut, Blanking, Wiped, AllWiped, AllZeroed, Blanked, HeaderWritten};

use crate::checks;
use crate::entry::{blank, size_of};
use crate::failed::Stopped;
use device::{Cause, Device, Fault};
use element::Kind;
use journal::{Header, MOST_TRACKS};

// The kind that a number stands for: 2 for marks, else sound.
fn kind_named(number: u8) -> Kind
    ensures { result ≡ kind_named number }
{
    Kind::try_from(number).unwrap_or(Kind::Sound)
}

// The header of a recording whose tracks are of these kinds, by their numbers.
fn header_of(numbers: &[u8], rate: u32, sitting: u32) -> Header
    requires { length numbers.now ≤ 8 }
    ensures { result ≡ header_of numbers.now rate sitting }
{
    let mut kinds = [Kind::Sound; MOST_TRACKS];
    for (i, number) in numbers.iter().enumerate() {
        kinds[i] = kind_named(*number);
    }
    Header {
        sitting,
        rate,
        tracks: numbers.len() as u8,
        kinds,
    }
}

// Whether a format goes on behind a sector that answered the fault: it is sick, and not that of the header.
fn passes_over(fault: Fault, place: u32) -> bool
    ensures { MatchBool result ((0 < place) × (fault.cause ≡ Sick)) (0 < place → fault.cause ≡ Sick → ⊥) }
{
    place > 0 && fault.cause == Cause::Sick
}

// Blanks the sector, and answers whether that was done: a sick sector is passed over, but not that of the header.
fn wipe<D: Device>(device: &mut D, place: u32, blank: &[u8; 512]) -> Result<bool, Fault>
    requires zeros { blank.now ≡ zeros }
    requires place { place < (D.Device.meaning device.old).size }
    ensures { (start : Meaning) (blanked : ℕ) → Blanking start place blanked (D.Device.meaning device.old) → Wiped D.Device.layer start place blanked result (D.Device.meaning device.new) }
{
    match device.write(place, blank) {
        Ok(()) => Ok(true),
        Err(fault) if passes_over(fault, place) => Ok(false),
        Err(fault) => Err(fault),
    }
}

// Blanks every sector, from 0 up. Answers how many sectors were blanked.
fn wipe_all<D: Device>(device: &mut D) -> Result<u32, Fault>
    ensures { AllWiped D.Device.layer (D.Device.meaning device.old) result (D.Device.meaning device.new) }
{
    let blank = blank();
    let mut blanked = 0;
    for place in 0..size_of(device) {
        blanked += u32::from(wipe(device, place, &blank)?);
    }
    Ok(blanked)
}

// Blanks every sector, and settles the blanks. Answers how many sectors were blanked.
#[tactic(auto, using(crate::proofs::Blanks::blanks_settle, crate::proofs::Blanks::blanks_fail))]
fn blank_all<D: Device>(device: &mut D) -> Result<u32, Fault>
    requires { 0 < (D.Device.meaning device.old).size }
    ensures { Blanked D.Device.layer (D.Device.meaning device.old) result (D.Device.meaning device.new) }
{
    let blanked = wipe_all(device)?;
    device.flush()?; // now no older content can be left beside the header
    Ok(blanked)
}

// Writes the header to sector 0 of a device that was blanked, and settles it.
#[tactic(auto, using(crate::proofs::Blanks::header_fails, crate::proofs::Blanks::header_settles))]
fn write_header<D: Device>(device: &mut D, header: &Header) -> Result<(), Fault>
    ensures { (start : Meaning) → 0 < start.size → AllZeroed start (D.Device.meaning device.old) → HeaderWritten header.now start result (D.Device.meaning device.new) }
{
    let mut sector = blank();
    header.write(&mut sector);
    device.write(0, &sector)?;
    device.flush() // now the header is there
}

// Blanks the device and writes the header. Answers how many sectors were blanked.
fn lay_out<D: Device>(device: &mut D, header: &Header) -> Result<u32, Fault>
    requires { 0 < (D.Device.meaning device.old).size }
    ensures { LaidOut D.Device.layer header.now (D.Device.meaning device.old) result (D.Device.meaning device.new) }
{
    let blanked = blank_all(device)?;
    write_header(device, header)?;
    Ok(blanked)
}

// Formats the device for a recording whose tracks are of these kinds, by their numbers. Answers how many sectors were blanked.
pub fn format<D: Device>(
    device: &mut D,
    kinds: &[u8],
    rate: u32,
    sitting: u32,
) -> Result<u32, Stopped>
    ensures { Formats D.Device.layer Unmounted (D.Device.meaning device.old) kinds.now rate sitting (told_result FormatCall 0 0 result) Unmounted (D.Device.meaning device.new) }
{
    checks::format(size_of(device), kinds, rate)?;
    let blanked = lay_out(device, &header_of(kinds, rate, sitting))?;
    Ok(blanked)
}
