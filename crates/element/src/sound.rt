// Sound: a sample is an i16.
ghost use Rattle.std.specs.Prelude.{refl};
ghost use Rattle.std.proofs.Common.{lit<, lit≤};
ghost use Rattle.element.specs.Sounds.{sample_lawful, sample_bytes, sample_of};
ghost use Rattle.element.specs.declared.kind.Kind.TheVariants.{Sound};
ghost use Rattle.element.specs.Samples;

use crate::kind::Kind;
use crate::{Cell, Element};

impl Cell for i16 {
    ghost WIDTH = { 2 };

    ghost value = { sample_of };

    ghost nonzero = { lit< tt };

    ghost within_payload = { lit≤ tt };

    const WIDTH: usize = 2;

    fn get(from: &[u8]) -> i16 {
        i16::from_le_bytes(from.try_into().unwrap())
    }
}

impl Element for i16 {
    ghost KIND = { Sound };

    ghost lawful = { sample_lawful };

    ghost bytes = { sample_bytes };

    ghost same_width = { refl };

    ghost wide = { λ _. refl };

    ghost small = { Samples.small };

    ghost told = { Samples.told };

    ghost only = { Samples.only };

    const KIND: Kind = Kind::Sound;

    fn is_lawful(self) -> bool {
        true
    }

    fn put(self, out: &mut [u8]) {
        out.copy_from_slice(&self.to_le_bytes());
    }
}
