// The kinds of element, and what each fixes.
ghost use Rattle.std.specs.Prelude.{◌≡◌};
ghost use Rattle.element.specs.Kinds.{kind_number, width_of, capacity_of, bytes_lawful, DecodesKind};

use crate::mark::is_stamp;
use thiserror::Error;

// The bytes of a block that hold its elements.
const BLOCK_BYTES: usize = 480;

// What the elements of a track are.
#[derive(Clone, Copy, PartialEq, Eq, Debug)]
pub enum Kind {
    Sound = 1,
    Mark = 2,
}

// A number that no kind has.
#[derive(Clone, Copy, PartialEq, Eq, Debug, Error)]
#[error("no kind of element has number {0}")]
pub struct UnknownKind(pub u8);

// The number that is stored for a kind. (Each such enum has its own two impls: none of our macros may write them, and a generic one
// would be no plainer.)
impl From<Kind> for u8 {
    ghost from_gives = { λ kind number. number ≡ kind_number kind };

    fn from(kind: Kind) -> u8 {
        kind as u8
    }
}

// The kind that a stored number stands for.
impl TryFrom<u8> for Kind {
    type Error = UnknownKind;

    ghost try_from_gives = { DecodesKind };

    fn try_from(number: u8) -> Result<Kind, UnknownKind> {
        match number {
            1 => Ok(Kind::Sound),
            2 => Ok(Kind::Mark),
            _ => Err(UnknownKind(number)),
        }
    }
}

impl Kind {
    // The bytes of an element.
    pub fn width(self) -> usize
        ensures { result ≡ width_of self }
    {
        match self {
            Kind::Sound => 2,
            Kind::Mark => 8,
        }
    }

    // How many elements a block can hold.
    pub fn capacity(self) -> usize
        ensures { result ≡ capacity_of self }
    {
        BLOCK_BYTES / self.width()
    }

    // Whether these are the bytes of a lawful element.
    pub fn accepts(self, bytes: &[u8]) -> bool
        ensures { result ≡ bytes_lawful self bytes.now }
    {
        match (self, bytes) {
            (Kind::Sound, [_, _]) => true,
            (Kind::Mark, [_, _, _, _, low, high, event, 0]) => {
                is_stamp(u16::from_le_bytes([*low, *high]), *event)
            }
            _ => false,
        }
    }
}
