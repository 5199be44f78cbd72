// The forms of a line: a name, and what that name wants after it.
ghost use Rattle.std.specs.Prelude.{◌≡◌, Option, IfOk};
ghost use Rattle.std.specs.Option.{option_map};
ghost use Rattle.script.specs.Meaning.{one, each, kind, kinds, format, alone, begin, sound, mark, cut, fuse, command};
ghost use Rattle.script.specs.Commands.{said, texts};

use crate::Command;
use crate::number::Number;
use element::{Kind, Mark};
use std::alloc::{AllocError, Global};

// What the words of a line say.
pub(crate) fn command(alloc: Global, words: &[&str]) -> Result<Option<Command>, AllocError>
    ensures { IfOk result (λ found. option_map said found ≡ command (texts words.now)) }
{
    let Some((name, args)) = words.split_first() else {
        return Ok(None);
    };
    match *name {
        "format" => format(alloc, args),
        "mount" => Ok(alone(Command::Mount, args)),
        "arm" => Ok(alone(Command::Arm, args)),
        "begin" => Ok(begin(args)),
        "sound" => sound(alloc, args),
        "mark" => Ok(mark(args)),
        "end" => Ok(one(args).map(|take| Command::End { take })),
        "withdraw" => Ok(one(args).map(|track| Command::Withdraw { track })),
        "play" => Ok(one(args).map(|track| Command::Play { track })),
        "save" => Ok(alone(Command::Save, args)),
        "cut" => cut(alloc, args),
        "fuse" => Ok(fuse(args)),
        _ => Ok(None),
    }
}

fn format(alloc: Global, args: &[&str]) -> Result<Option<Command>, AllocError>
    ensures { IfOk result (λ found. option_map said found ≡ format (texts args.now)) }
{
    let [letters, rate, sitting] = args else {
        return Ok(None);
    };
    let (Some(rate), Some(sitting)) = (u32::read(rate), u32::read(sitting)) else {
        return Ok(None);
    };
    Ok(kinds(alloc, letters)?.map(|kinds| Command::Format {
        kinds,
        rate,
        sitting,
    }))
}

// The command, if no words stand after its name.
fn alone(command: Command, args: &[&str]) -> Option<Command>
    ensures { option_map said result ≡ alone (said command) (texts args.now) }
{
    args.is_empty().then_some(command)
}

fn begin(args: &[&str]) -> Option<Command>
    ensures { option_map said result ≡ begin (texts args.now) }
{
    let [track, position] = args else {
        return None;
    };
    Some(Command::Begin {
        track: u8::read(track)?,
        position: u32::read(position)?,
    })
}

fn sound(alloc: Global, args: &[&str]) -> Result<Option<Command>, AllocError>
    ensures { IfOk result (λ found. option_map said found ≡ sound (texts args.now)) }
{
    let Some((take, samples)) = args.split_first() else {
        return Ok(None);
    };
    let Some(take) = u32::read(take) else {
        return Ok(None);
    };
    Ok(each(alloc, samples, i16::read)?.map(|samples| Command::Sound { take, samples }))
}

fn mark(args: &[&str]) -> Option<Command>
    ensures { option_map said result ≡ mark (texts args.now) }
{
    let [take, tick, point, event] = args else {
        return None;
    };
    Some(Command::Mark {
        take: u32::read(take)?,
        mark: Mark {
            tick: u32::read(tick)?,
            point: u16::read(point)?,
            event: u8::read(event)?,
        },
    })
}

fn cut(alloc: Global, args: &[&str]) -> Result<Option<Command>, AllocError>
    ensures { IfOk result (λ found. option_map said found ≡ cut (texts args.now)) }
{
    Ok(each(alloc, args, u8::read)?.map(|plan| Command::Cut { plan }))
}

fn fuse(args: &[&str]) -> Option<Command>
    ensures { option_map said result ≡ fuse (texts args.now) }
{
    let count: u32 = one(args)?;
    (count > 0).then_some(Command::Fuse { count })
}

// The number that the only word writes.
fn one<N: Number>(args: &[&str]) -> Option<N>
    ensures { result ≡ one N.written (texts args.now) }
{
    let [word] = args else {
        return None;
    };
    N::read(word)
}

// What is read of each item, in order, if something is read of each.
fn each<T: Copy, U: Drop, F: Fn(T) -> Option<U>>(
    alloc: Global,
    items: &[T],
    read: F,
) -> Result<Option<Vec<U>>, AllocError>
    requires { F.IsAlwaysCallable read }
    ensures { (said : T → Option U)
        → ((item : T) (found : Option U) → F.post read item found → found ≡ said item)
        → IfOk result (λ found. option_map (λ each. each.items) found ≡ each said items.now) }
{
    let mut found = Vec::new(alloc);
    for item in items {
        let Some(value) = read(*item) else {
            return Ok(None);
        };
        found.push(value)?;
    }
    Ok(Some(found))
}

// The kinds that letters name, of which there is one at least.
fn kinds(alloc: Global, letters: &str) -> Result<Option<Vec<Kind>>, AllocError>
    ensures { IfOk result (λ found. option_map (λ kinds. kinds.items) found ≡ kinds letters.now) }
{
    if letters.is_empty() {
        return Ok(None);
    }
    each(alloc, letters.as_bytes(), kind)
}

// The kind that a letter names.
fn kind(letter: u8) -> Option<Kind>
    ensures { result ≡ kind letter }
{
    match letter {
        b's' => Some(Kind::Sound),
        b'm' => Some(Kind::Mark),
        _ => None,
    }
}
