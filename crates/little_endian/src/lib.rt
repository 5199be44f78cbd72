#![tactic(auto)]

// Bytes and little-endian numbers: what they are (specs/Little.antt) and the laws that the crates above share (proofs/Little.antt).
// There is no code here: a program writes and reads such numbers by the standard library.
