// The journal: the header and the entries of a recording as sectors, and the session that follows a log from sector to sector.
#![tactic(auto)]

mod examples;
mod header;
mod paint;
mod payload;
mod session;
mod table;

pub use examples::worked_examples;
pub use header::{HIGHEST_RATE, Header, LOWEST_RATE, MOST_TRACKS};
pub use session::Session;
pub use table::MOST_TAKES;
