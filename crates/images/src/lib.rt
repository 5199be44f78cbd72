// Images: devices that keep their sectors in bytes that the caller lends.
// A plain image settles each write at once; a queued image lets up to 16 writes wait.
#![tactic(auto)]

mod plain;
mod queue;
mod queued;
mod sectors;

pub use plain::PlainImage;
pub use queued::QueuedImage;
