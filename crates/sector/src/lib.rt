// Sectors of 512 bytes: their layout and their check.
#![tactic(auto)]

pub mod crc;
pub mod layout;
mod tables;

pub use crc::crc32;
pub use layout::{Fields, Kind, Record, UnknownKind, decode, encode, seal};
