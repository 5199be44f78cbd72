// What is answered to a line, and how it is written.
ghost use Rattle.std.specs.Prelude.{◌≡◌, Some};
ghost use Rattle.std.specs.List.{flat_map};
ghost use Rattle.desk.specs.Answers.{failed, numbered, done};
ghost use Rattle.desk.specs.Text.{sample_text, mark_text, text};

use device::Fault;
use element::Mark;
use recorder::{Failed, Refusal};
use std::fmt;

// What came of a line.
#[derive(PartialEq, Eq, Debug, Drop)]
pub enum Answer {
    // it was done, and there is nothing to tell
    Done,
    // it was done, and the call answered this
    Number(u32),
    // what was played of a track of sound
    Sound(Vec<i16>),
    // what was played of a track of marks
    Marks(Vec<Mark>),
    Refused(Refusal),
    Faulted(Fault),
    // the power was cut
    Cut,
    // the line means nothing
    Bad,
}

impl From<Failed> for Answer {
    ghost from_gives = { λ why answer. answer ≡ failed why };

    fn from(why: Failed) -> Answer {
        match why {
            Failed::Refused(refusal) => Answer::Refused(refusal),
            Failed::Faulted { fault, .. } => Answer::Faulted(fault),
        }
    }
}

// Of a call that answers a number.
impl From<Result<u32, Failed>> for Answer {
    ghost from_gives = { λ outcome answer. answer ≡ numbered outcome };

    fn from(outcome: Result<u32, Failed>) -> Answer {
        match outcome {
            Ok(number) => Answer::Number(number),
            Err(why) => why.into(),
        }
    }
}

// Of a call that answers nothing.
impl From<Result<(), Failed>> for Answer {
    ghost from_gives = { λ outcome answer. answer ≡ done outcome };

    fn from(outcome: Result<(), Failed>) -> Answer {
        match outcome {
            Ok(()) => Answer::Done,
            Err(why) => why.into(),
        }
    }
}

// Samples as an answer tells them.
#[derive(Clone, Copy)]
struct Samples<'a>(&'a [i16]);

impl fmt::Display for Samples<'_> {
    ghost output = { λ samples. Some (flat_map sample_text samples.0.now) };

    fn fmt<W: fmt::Write>(&self, f: &mut fmt::Formatter<W>) -> fmt::Result {
        for sample in self.0 {
            write!(f, " {sample}")?;
        }
        Ok(())
    }
}

// Marks as an answer tells them.
#[derive(Clone, Copy)]
struct Marks<'a>(&'a [Mark]);

impl fmt::Display for Marks<'_> {
    ghost output = { λ marks. Some (flat_map mark_text marks.0.now) };

    fn fmt<W: fmt::Write>(&self, f: &mut fmt::Formatter<W>) -> fmt::Result {
        for mark in self.0 {
            let Mark { tick, point, event } = *mark;
            write!(f, " {tick} {point} {event}")?;
        }
        Ok(())
    }
}

impl fmt::Display for Answer {
    ghost output = { λ answer. Some (text answer) };

    fn fmt<W: fmt::Write>(&self, f: &mut fmt::Formatter<W>) -> fmt::Result {
        match self {
            Answer::Done => write!(f, "ok"),
            Answer::Number(number) => write!(f, "ok {number}"),
            Answer::Sound(samples) => write!(f, "ok {}{}", samples.len(), Samples(samples)),
            Answer::Marks(marks) => write!(f, "ok {}{}", marks.len(), Marks(marks)),
            Answer::Refused(refusal) => write!(f, "no {}", u8::from(*refusal)),
            Answer::Faulted(fault) => {
                let Fault {
                    cause,
                    sector,
                    layer,
                    depth,
                } = *fault;
                write!(f, "fault {} {sector} {layer} {depth}", u32::from(cause))
            }
            Answer::Cut => write!(f, "cut"),
            Answer::Bad => write!(f, "bad"),
        }
    }
}
