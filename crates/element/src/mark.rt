// Alarm marks.
ghost use Rattle.std.specs.Prelude.{◌≡◌, refl};
ghost use Rattle.std.proofs.Common.{lit<, lit≤};
ghost use Rattle.element.specs.Marks.{event_number, stamp_lawful, mark_lawful, mark_bytes, mark_of, DecodesEvent};
ghost use Rattle.element.specs.declared.kind.Kind.TheVariants.{Mark as MarkKind};
ghost use Rattle.element.specs.Stamps;

use crate::kind::Kind;
use crate::{Cell, Element};
use thiserror::Error;

// What happened at a measuring point.
#[derive(Clone, Copy, PartialEq, Eq, Debug)]
pub enum Event {
    Raised = 1,
    Acknowledged = 2,
    Cleared = 3,
}

// A number that no event has; a type of its own, so that a caller sees from the error which number was wrong.
#[derive(Clone, Copy, PartialEq, Eq, Debug, Error)]
#[error("no event has number {0}")]
pub struct UnknownEvent(pub u8);

// The number that is stored for an event.
impl From<Event> for u8 {
    ghost from_gives = { λ event number. number ≡ event_number event };

    fn from(event: Event) -> u8 {
        event as u8
    }
}

// The event that a stored number stands for.
impl TryFrom<u8> for Event {
    type Error = UnknownEvent;

    ghost try_from_gives = { DecodesEvent };

    fn try_from(number: u8) -> Result<Event, UnknownEvent> {
        match number {
            1 => Ok(Event::Raised),
            2 => Ok(Event::Acknowledged),
            3 => Ok(Event::Cleared),
            _ => Err(UnknownEvent(number)),
        }
    }
}

// An alarm mark. Its event stays a number by a rule of the project: one that does not exist has to reach the call that refuses it.
#[derive(Clone, Copy, PartialEq, Eq, Debug)]
pub struct Mark {
    pub tick: u32,
    pub point: u16,
    pub event: u8,
}

impl Cell for Mark {
    ghost WIDTH = { 8 };

    ghost value = { mark_of };

    ghost nonzero = { lit< tt };

    ghost within_payload = { lit≤ tt };

    const WIDTH: usize = 8;

    fn get(from: &[u8]) -> Mark {
        Mark {
            tick: u32::from_le_bytes(from[..4].try_into().unwrap()),
            point: u16::from_le_bytes(from[4..6].try_into().unwrap()),
            event: from[6],
        }
    }
}

impl Element for Mark {
    ghost KIND = { MarkKind };

    ghost lawful = { mark_lawful };

    ghost bytes = { mark_bytes };

    ghost same_width = { refl };

    ghost wide = { λ _. refl };

    ghost small = { Stamps.small };

    ghost told = { Stamps.told };

    ghost only = { Stamps.only };

    const KIND: Kind = Kind::Mark;

    fn is_lawful(self) -> bool {
        is_stamp(self.point, self.event)
    }

    fn put(self, out: &mut [u8]) {
        let [t0, t1, t2, t3] = self.tick.to_le_bytes();
        let [p0, p1] = self.point.to_le_bytes();
        out.copy_from_slice(&[t0, t1, t2, t3, p0, p1, self.event, 0]);
    }
}

// Whether a point and an event exist, each by its number, as in a mark.
pub fn is_stamp(point: u16, event: u8) -> bool
    ensures { result ≡ stamp_lawful point event }
{
    (1..=9999).contains(&point) && Event::try_from(event).is_ok()
}
