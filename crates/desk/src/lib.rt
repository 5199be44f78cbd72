// The desk: a recorder over its devices, and what it answers to the lines of a script.
#![tactic(auto)]

mod answer;
mod desk;
mod lines;

pub use answer::Answer;
pub use desk::Desk;
pub use lines::next_line;
