// Lines of input.
ghost use Rattle.std.specs.Prelude.{◌≡◌, [], ◌∷◌, Some, IfSome, IfOk, OnOk, MatchOption};
ghost use Rattle.std.specs.Option.{option_map};
ghost use Rattle.std.specs.Io.KnownBytes.{Consumes, IsAtEnd, Keeps};
ghost use Rattle.desk.specs.Lines.{first_line, rest};

use std::alloc::Global;
use std::io;
use std::io::{BufRead, ErrorKind};

// How much is kept of a line: one byte more than a line may have, by which a longer one shows.
const KEPT: usize = 2049;

// The next line, without its line feed, if there is one. Of a line that is too long only so much is kept that this shows.
#[tactic(auto, using(crate::proofs::Readings::first_line_from))]
pub fn next_line<R: BufRead>(alloc: Global, input: &mut R) -> io::Result<Option<Vec<u8>>>
    ensures line { IfSome (R.Read.remaining input.old) (λ text. IfOk result (λ found. option_map (λ line. line.items) found ≡ first_line text)) }
    ensures rest { IfSome (R.Read.remaining input.old) (λ text. OnOk result (R.Read.remaining input.new ≡ Some (rest text))) }
{
    let mut line = Vec::new(alloc);
    for _ in 0..u64::MAX {
        match next_byte(input)? {
            None if line.is_empty() => return Ok(None),
            None => return Ok(Some(line)),
            Some(b'\n') => return Ok(Some(line)),
            Some(byte) => {
                if line.len() < KEPT {
                    line.push(byte)?;
                }
            }
        }
    }
    Err(ErrorKind::Other.into())
}

// The next byte, if there is one.
fn next_byte<R: BufRead>(input: &mut R) -> io::Result<Option<u8>>
    ensures { IfOk result (λ found. MatchOption found
        (IsAtEnd (R.Read.remaining input.old) × Keeps (R.Read.remaining input.old) (R.Read.remaining input.new))
        (λ byte. Consumes (R.Read.remaining input.old) (R.Read.remaining input.new) (byte ∷ []))) }
{
    let mut byte = [0];
    for _ in 0..u64::MAX {
        match input.read(&mut byte) {
            Ok(0) => return Ok(None),
            Ok(_) => return Ok(Some(byte[0])),
            Err(error) if error.kind() == ErrorKind::Interrupted => {}
            Err(error) => return Err(error),
        }
    }
    Err(ErrorKind::Other.into())
}
