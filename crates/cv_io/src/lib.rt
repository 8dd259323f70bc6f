//! Devices as the verifier sees them: where bytes are read from, written to, loaded from and saved to. Each counts
//! its faults and may tell its content, so that contracts above can say what came in, what went out and why a call
//! failed. There are forms in memory and adapters of the host's streams and files.
#![tactic(auto)]

mod calls;
mod devices;
mod host;
mod memory;
mod store;

pub use devices::{Failed, Sink, SinkError, Source, Store, StoreError};
pub use host::{HostErr, HostIn, HostOut, HostStore};
pub use memory::{MemSink, MemSource, SteadySink, SteadySource};
pub use store::{MemStore, SteadyStore};
