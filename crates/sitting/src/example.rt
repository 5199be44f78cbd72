// A worked example of what a power cut may leave.
ghost use Rattle.std.specs.Prelude.{ℕ};
ghost use Rattle.sitting.specs.Examples.{GapAndLeftover};

// There are sittings in which a cut leaves a gap and, behind it, an older block that is still sound, and a later mount leaves that block
// out. There is nothing to run: the contract is the example.
#[tactic(auto, using(crate::proofs::ExampleGap::gap_and_leftover))]
pub fn a_sitting_with_a_gap()
    ensures { (layer : ℕ) → GapAndLeftover layer }
{}
