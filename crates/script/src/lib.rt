// The language of `replay`: what a line means.
#![tactic(auto)]

ghost use Rattle.std.specs.Prelude.{◌≡◌, ◌↔◌, ℕ, List, Some, MatchOption, IfOk, IsTrue, IsFalse};
ghost use Rattle.std.specs.Option.{option_map};
ghost use Rattle.script.specs.Said.{Said};
ghost use Rattle.script.specs.Meaning.{words, is_plain, meaning};
ghost use Rattle.script.specs.Grammar.{Says};
ghost use Rattle.script.specs.Commands.{said, texts};

mod form;
mod number;

use element::{Kind, Mark};
use std::alloc::{AllocError, Global};

// How many bytes a line has at most.
const LONGEST_LINE: usize = 2048;

// What a line tells the recorder.
#[derive(PartialEq, Eq, Debug, Drop)]
pub enum Command {
    Format {
        kinds: Vec<Kind>,
        rate: u32,
        sitting: u32,
    },
    Mount,
    Arm,
    Begin {
        track: u8,
        position: u32,
    },
    Sound {
        take: u32,
        samples: Vec<i16>,
    },
    Mark {
        take: u32,
        mark: Mark,
    },
    End {
        take: u32,
    },
    Withdraw {
        track: u8,
    },
    Play {
        track: u8,
    },
    Save,
    Cut {
        plan: Vec<u8>,
    },
    Fuse {
        count: u32,
    },
}

// What a line means, if it is not bad. The line feed is no part of it.
pub fn parse(alloc: Global, line: &[u8]) -> Result<Option<Command>, AllocError>
    ensures { IfOk result (λ found. option_map said found ≡ meaning line.now) }
{
    let Some(text) = plain(line) else {
        return Ok(None);
    };
    form::command(alloc, &words(alloc, text)?)
}

// The line as text, if it is ASCII and not too long.
#[tactic(auto, using(crate::proofs::Ascii::ascii_steps))]
fn plain(line: &[u8]) -> Option<&str>
    ensures { MatchOption result (IsFalse (is_plain line.now))
        (λ text. IsTrue (is_plain line.now) × (text.now ≡ line.now)) }
{
    if line.len() > LONGEST_LINE || !line.is_ascii() {
        return None;
    }
    str::from_utf8(line).ok()
}

// The words of a line, with one space between each two.
fn words(alloc: Global, line: &str) -> Result<Vec<&str>, AllocError>
    ensures { IfOk result (λ found. texts found.items ≡ words line.now) }
{
    line.split(' ').collect(alloc)
}

// A line means a command exactly if it says that command by the rules, which know nothing of reading.
pub fn meaning_is_by_rule()
    ensures { (line : List ℕ) (command : Said)
        → (meaning line ≡ Some command) ↔ Says line command }
{}
