// WAVE files of 16-bit mono sound: a header of 44 bytes, then two bytes for each sample.
#![tactic(auto)]

ghost use Rattle.std.specs.Prelude.{◌≡◌, ◌≤◌, ◌↔◌, ℕ, ◌+◌, ◌*◌, ◌%◌, ◌^◌, List, ◌++◌, length, All, Any, IsNone, IfSome, IsSomeAnd, MatchResult};
ghost use Rattle.wave.specs.declared.Refusal.TheVariants.{NotWave};
ghost use Rattle.wave.specs.Reading.{refusal_number, Gives};
ghost use Rattle.wave.specs.Export.{header_bytes, sample_count, Exported, distance, duration, Peak};

use thiserror::Error;

// The lowest rate that an export writes, in samples a second.
pub const LOWEST_RATE: u32 = 8_000;

// The highest rate that an export writes, in samples a second.
pub const HIGHEST_RATE: u32 = 48_000;

// How many samples an export writes at most.
pub const MOST_SAMPLES: usize = 15_727_920;

// How many bytes a file that an export writes has at most.
pub const LONGEST_FILE: usize = 44 + 2 * MOST_SAMPLES;

// Why a file is refused.
#[derive(Clone, Copy, PartialEq, Eq, Debug, Error)]
pub enum Refusal {
    // it is not what an export writes
    #[error("not a sound that an export writes")]
    NotWave,
}

// The number that stands for a refusal. It stands here and not in the enum, whose own number, which a cast gives, is 0.
impl From<Refusal> for u8 {
    ghost from_gives = { λ refusal number. number ≡ refusal_number refusal };

    fn from(refusal: Refusal) -> u8 {
        match refusal {
            Refusal::NotWave => 21,
        }
    }
}

// The sound of a file: samples a second, and the bytes of the samples, a part of the file.
#[derive(Clone, Copy, PartialEq, Eq, Debug)]
pub struct Wave<'a> {
    pub rate: u32,
    pub samples: &'a [u8],
}

impl Wave<'_> {
    // How many samples there are.
    pub fn count(&self) -> usize
        ensures { result ≡ sample_count self.now.samples.now }
    {
        self.samples.len() / 2
    }

    // How long they last, rounded down to a millisecond; 0 at a rate of 0.
    pub fn milliseconds(&self) -> u128
        ensures { result ≡ duration self.now.rate (sample_count self.now.samples.now) }
    {
        (1000 * self.count() as u128)
            .checked_div(u128::from(self.rate))
            .unwrap_or(0)
    }

    // The largest distance of a sample from 0: 32,768 at most, and 0 if there is no sample.
    pub fn peak(&self) -> u16
        ensures { Peak self.now.samples.now result }
    {
        let (pairs, _) = self.samples.as_chunks();
        largest_distance(pairs).unwrap_or(0)
    }
}

// The largest distance from 0 of the numbers that stand in two bytes each.
fn largest_distance(pairs: &[[u8; 2]]) -> Option<u16>
    ensures none { IsNone result ↔ (length pairs.now ≡ 0) }
    ensures bound { IfSome result (λ most. All (λ pair. distance pair ≤ most) pairs.now) }
    ensures reached { IfSome result (λ most. Any (λ pair. distance pair ≡ most) pairs.now) }
{
    pairs
        .iter()
        .map(|pair| i16::from_le_bytes(*pair).unsigned_abs())
        .max()
}

// A header whose four numbers are still 0: the two sizes, the rate, and the bytes a second.
// The others say: 16 bytes of format, form 1 (PCM), one channel, 2 bytes and 16 bits a sample.
const BLANK: [u8; 44] = *b"RIFF\0\0\0\0WAVE\
    fmt \x10\0\0\0\x01\0\x01\0\0\0\0\0\0\0\0\0\x02\0\x10\0\
    data\0\0\0\0";

// The numbers of a header; the rest of it is the same in every file.
#[derive(Clone, Copy)]
struct Numbers {
    // the bytes after the first size
    whole: u32,
    rate: u32,
    // the bytes a second
    speed: u32,
    // the bytes of the samples
    size: u32,
}

impl Numbers {
    // The header with these numbers.
    fn header(self) -> [u8; 44]
        ensures { (n : ℕ)
            → self.whole ≡ (36 + 2 * n) % 2 ^ 32
            → self.speed ≡ 2 * self.rate % 2 ^ 32
            → self.size ≡ 2 * n % 2 ^ 32
            → result ≡ header_bytes self.rate n }
    {
        let mut out = BLANK;
        out[4..8].copy_from_slice(&self.whole.to_le_bytes());
        out[24..28].copy_from_slice(&self.rate.to_le_bytes());
        out[28..32].copy_from_slice(&self.speed.to_le_bytes());
        out[40..44].copy_from_slice(&self.size.to_le_bytes());
        out
    }
}

// The header of so many samples at a rate. A number that does not fit its 4 bytes is stored modulo 2^32, so the sums wrap.
pub fn header(rate: u32, samples: u32) -> [u8; 44]
    ensures { result ≡ header_bytes rate samples }
{
    let size = samples.wrapping_mul(2);
    Numbers {
        whole: size.wrapping_add(36),
        rate,
        speed: rate.wrapping_mul(2),
        size,
    }
    .header()
}

// The sound of a file that begins with the header of what follows, at any rate and of any length.
fn parse(file: &[u8]) -> Option<Wave<'_>>
    ensures only { IfSome result
        (λ w. file.now ≡ header_bytes w.rate (sample_count w.samples.now) ++ w.samples.now) }
    ensures back { (rate : ℕ) (samples : List ℕ) → Exported file.now rate samples
        → IsSomeAnd result (λ w. (w.rate ≡ rate) × (w.samples.now ≡ samples)) }
{
    let (head, samples) = file.split_first_chunk::<44>()?;
    let rate = u32::from_le_bytes(*head[24..].first_chunk().unwrap());
    let wave = Wave { rate, samples };
    let count = u32::try_from(wave.count()).ok()?;
    (*head == header(rate, count)).then_some(wave)
}

// The sound of a file that an export writes: a header, with a rate from 8,000 to 48,000, then exactly its samples,
// at most 15,727,920. Any other file is refused.
pub fn read(file: &[u8]) -> Result<Wave<'_>, Refusal>
    ensures only { MatchResult result (λ w. Exported file.now w.rate w.samples.now) (λ e. e ≡ NotWave) }
    ensures back { (rate : ℕ) (samples : List ℕ) → Exported file.now rate samples → Gives rate samples result }
{
    parse(file)
        .filter(|wave| {
            (LOWEST_RATE..=HIGHEST_RATE).contains(&wave.rate)
                && wave.count() <= MOST_SAMPLES
                && wave.samples.len().is_multiple_of(2)
        })
        .ok_or(Refusal::NotWave)
}
