// Tests of the crates below against values from outside: published ones, and ones that other programs computed.
// There is no code here but the tests.
#![tactic(auto)]

mod checks;
mod elements;
mod journals;
mod sectors;
mod waves;
