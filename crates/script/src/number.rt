// Numbers as the words of a line write them: decimal digits, and a minus ahead of those below 0.
ghost use Rattle.std.specs.Prelude.{◌≡◌, List, ℕ, Option};
ghost use Rattle.script.specs.Numbers.{byte, two_bytes, four_bytes, sample};

// A number of a field's width.
pub(crate) trait Number: Copy {
    // the number that a word writes, if it writes one of this width
    ghost written: { List ℕ → Option Self };

    fn read(word: &str) -> Option<Self>
        ensures { result ≡ written word.now };
}

impl Number for u8 {
    ghost written = { byte };

    fn read(word: &str) -> Option<u8> {
        u8::try_from(u32::read(word)?).ok()
    }
}

impl Number for u16 {
    ghost written = { two_bytes };

    fn read(word: &str) -> Option<u16> {
        u16::try_from(u32::read(word)?).ok()
    }
}

impl Number for u32 {
    ghost written = { four_bytes };

    fn read(word: &str) -> Option<u32> {
        digits(word.as_bytes())
    }
}

impl Number for i16 {
    ghost written = { sample };

    fn read(word: &str) -> Option<i16> {
        let number = match word.as_bytes() {
            [b'-', rest @ ..] => -i64::from(digits(rest).filter(|number| *number != 0)?),
            bytes => i64::from(digits(bytes)?),
        };
        i16::try_from(number).ok()
    }
}

// The number that digits write, one or more, if 4 bytes can hold it.
#[tactic(auto, using(crate::proofs::Numerals::natural_after_large, crate::proofs::Numerals::natural_after_all))]
fn digits(word: &[u8]) -> Option<u32>
    ensures { result ≡ four_bytes word.now }
{
    if word.is_empty() {
        return None;
    }
    let mut value = 0u32;
    for byte in word {
        if !byte.is_ascii_digit() {
            return None;
        }
        value = value.checked_mul(10)?.checked_add(u32::from(byte - b'0'))?;
    }
    Some(value)
}
