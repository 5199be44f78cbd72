// Elements: what a track is made of. By this trait the same code packs, unpacks and parses every type of element.
#![tactic(auto)]

ghost use Rattle.std.specs.Prelude.{◌≡◌, ℕ, Bool, true, List, length};
ghost use Rattle.little_endian.specs.Little.{Bytes};
ghost use Rattle.element.specs.Kinds.{width_of, bytes_lawful};
ghost use Rattle.element.specs.declared.kind.Kind.{Kind};

mod cell;
pub mod kind;
pub mod mark;
pub mod payload;
mod sound;

pub use cell::Cell;
pub use kind::{Kind, UnknownKind};
pub use mark::{Event, Mark, UnknownEvent};

// A type of value that a track can hold. Its bytes are those of a cell.
pub trait Element: Cell {
    // its kind, which fixes the width and the lawful bytes
    ghost KIND: { Kind };

    const KIND: Kind;

    // which values may be recorded
    ghost lawful: { Self → Bool };

    // the bytes of a value
    ghost bytes: { Self → List ℕ };

    fn is_lawful(self) -> bool
        ensures { result ≡ lawful self };

    fn put(self, out: &mut [u8])
        requires { length out.old ≡ width_of KIND }
        ensures { out.new ≡ bytes self };

    // a cell is as wide as the kind fixes
    ghost same_width: { Self.WIDTH ≡ width_of KIND };

    // each value has as many bytes as its kind fixes
    ghost wide: { (x : Self) → length (bytes x) ≡ width_of KIND };

    // the bytes of a lawful value are bytes
    ghost small: { (x : Self) → lawful x ≡ true → Bytes (bytes x) };

    // the bytes of a lawful value are lawful and say it
    ghost told: { (x : Self) → lawful x ≡ true → (bytes_lawful KIND (bytes x) ≡ true) × (Self.value (bytes x) ≡ x) };

    // lawful bytes are those of the lawful value that they say
    ghost only: { (bs : List ℕ) → Bytes bs → bytes_lawful KIND bs ≡ true → (lawful (Self.value bs) ≡ true) × (bytes (Self.value bs) ≡ bs) };
}
