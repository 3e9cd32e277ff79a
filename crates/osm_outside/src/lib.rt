//! What the server asks of the outside: bytes in, bytes out, the time, the users text, links that
//! come to a port. And stand-ins in memory.
#![tactic(auto)]

mod bad_sink;
mod calls;
mod gate;
mod host;
mod host_trace;
mod lent_links;
mod mem_port;
mod memory;
mod outside;
mod trace;
mod watch;

pub use bad_sink::BadSink;
pub use gate::{Gate, NoGate, Point};
pub use host::MemHost;
pub use host_trace::HostTrace;
pub use lent_links::LinksLent;
pub use mem_port::MemPort;
pub use memory::MemLink;
pub use outside::{
    Clock, Failed, Host, HostFault, Link, Outside, Port, PortOutside, Sink, Source, Witness,
};
pub use trace::Trace;
