// What the payload of an entry's sector holds: the elements of a block, and zeros behind them.
ghost use Rattle.std.specs.Prelude.{◌≡◌, ◌≤◌, ◌↔◌, true, MatchBool, replicate, length};
ghost use Rattle.element.specs.Kinds.{capacity_of};
ghost use Rattle.journal.specs.Payloads.{Holds, all_lawful};

use element::Kind;

// Whether every byte is zero.
pub fn is_zero(bytes: &[u8]) -> bool
    ensures { MatchBool result (bytes.now ≡ replicate (length bytes.now) 0) (bytes.now ≡ replicate (length bytes.now) 0 → ⊥) }
{
    bytes.iter().all(|byte| *byte == 0)
}

// Whether the payload holds that many lawful elements of the kind, and zeros behind them.
pub fn holds(kind: Kind, count: u16, payload: &[u8; 480]) -> bool
    ensures { MatchBool result (Holds kind count payload.now) (Holds kind count payload.now → ⊥) }
{
    let count = usize::from(count);
    if count > kind.capacity() {
        return false;
    }
    let (elements, rest) = parts(kind, count, payload);
    are_lawful(kind, elements) && is_zero(rest)
}

// The bytes of the payload's first elements, and the rest: these two tell what it holds.
fn parts(kind: Kind, count: usize, payload: &[u8; 480]) -> (&[u8], &[u8])
    requires { count ≤ capacity_of kind }
    ensures { Holds kind count payload.now ↔ ((all_lawful kind result.0.now ≡ true) × (result.1.now ≡ replicate (length result.1.now) 0)) }
{
    payload.split_at(count * kind.width())
}

// Whether the elements of the kind that stand in the bytes, one after the other, are lawful.
fn are_lawful(kind: Kind, elements: &[u8]) -> bool
    ensures { result ≡ all_lawful kind elements.now }
{
    elements
        .chunks_exact(kind.width())
        .all(|element| kind.accepts(element))
}
