//! Devices in memory: they tell all, and can be made to fail.
#![tactic(auto)]

mod areas;
mod calls;
mod copy;
mod disk;
mod laws;
mod note;
mod operate;
mod pick;
mod sink;
mod site;
mod source;
mod stop;
mod wire;

pub use disk::MemDisk;
pub use laws::law_calls_keep;
pub use sink::MemSink;
pub use site::MemSite;
pub use source::MemSource;
pub use wire::MemWire;
