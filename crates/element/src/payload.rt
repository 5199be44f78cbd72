// Elements in a payload, one after the other.
ghost use Rattle.std.specs.Prelude.{◌≡◌, ◌≢◌, ◌↔◌, ℕ, ◌/◌, ◌≤◌, min, true, List, ◌++◌, length, take, drop, MatchOption, IsOk, OnOk, OnErr};
ghost use Rattle.std.specs.List.{flat_map, AllPass};
ghost use Rattle.element.specs.Kinds.{width_of};
ghost use Rattle.element.specs.Payload.{unpacked};

use crate::{Cell, Element};
use thiserror::Error;

// More elements than the payload has room for.
#[derive(Clone, Copy, PartialEq, Eq, Debug, Error)]
#[error("the payload has no room for the elements")]
pub struct NoRoom;

// The lawful element that has these bytes, if there is one.
#[tactic(auto, using(crate::proofs::Tested::by_test))]
pub fn parse<E: Element>(bytes: &[u8]) -> Option<E>
    ensures { MatchOption result ((x : E) → E.Element.lawful x ≡ true → E.Element.bytes x ≢ bytes.now) (λ x. (E.Element.lawful x ≡ true) × (E.Element.bytes x ≡ bytes.now)) }
{
    E::KIND.accepts(bytes).then(|| E::get(bytes))
}

// Writes the elements over the front of the payload, if they fit; otherwise the payload stays as it is.
pub fn pack<E: Element>(elements: &[E], payload: &mut [u8]) -> Result<(), NoRoom>
    ensures fits { IsOk result ↔ (length elements.now ≤ length payload.old / width_of E.Element.KIND) }
    ensures ok { OnOk result (payload.new ≡ flat_map E.Element.bytes elements.now ++ drop (length (flat_map E.Element.bytes elements.now)) payload.old) }
    ensures err { OnErr result (payload.new ≡ payload.old) }
{
    let width = E::KIND.width();
    if elements.len() > payload.len() / width {
        return Err(NoRoom);
    }
    // By place (tried otherwise): of what is written through `chunks_exact_mut` nothing is known once the loop is over.
    for (i, x) in elements.iter().enumerate() {
        let at = i * width;
        x.put(&mut payload[at..at + width]);
    }
    Ok(())
}

// Fills the slice with the elements that the front of the payload holds, as far as both reach; returns how many.
pub fn unpack<E: Element>(payload: &[u8], out: &mut [E]) -> usize
    ensures count { result ≡ min (length out.old) (length payload.now / width_of E.Element.KIND) }
    ensures elements { out.new ≡ unpacked E.Cell.value (width_of E.Element.KIND) result payload.now ++ drop result out.old }
    ensures back { (xs : List E) (rest : List ℕ) → AllPass E.Element.lawful xs → payload.now ≡ flat_map E.Element.bytes xs ++ rest → length xs ≤ result → take (length xs) out.new ≡ xs }
{
    fill(payload, out)
}

// Fills the slice with the cells that the front of the payload holds, as far as both reach; returns how many.
pub fn fill<C: Cell>(payload: &[u8], out: &mut [C]) -> usize
    ensures count { result ≡ min (length out.old) (length payload.now / C.Cell.WIDTH) }
    ensures elements { out.new ≡ unpacked C.Cell.value C.Cell.WIDTH result payload.now ++ drop result out.old }
{
    // No `zip` of the two (tried): what is written through `iter_mut` is known after the loop under `enumerate`, and not under `zip`.
    let mut chunks = payload.chunks_exact(C::WIDTH);
    for (i, slot) in out.iter_mut().enumerate() {
        let Some(bytes) = chunks.next() else {
            return i;
        };
        *slot = C::get(bytes);
    }
    out.len()
}
