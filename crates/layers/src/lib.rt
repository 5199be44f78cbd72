// Layers: devices over devices. docs/DEVICE.md tells what each means; specs/ states it.
#![tactic(auto)]

pub mod fuse;
pub mod mirror;

pub use fuse::Fuse;
pub use mirror::Mirror;
