//! The real outside: streams, listeners, files and the system's clock. Each adapter counts its faults, and a link keeps its trace
//! for contracts. That it gives, takes and leaves what the standard library says of its reader and writer is proved; what the
//! system does is trusted. A server that is to stop in order is told so by a `Stop` that all of them look at.
#![tactic(auto)]

mod duplex;
mod given;
mod host;
mod journals;
mod listen;
mod named_file;
mod older_file;
mod patient;
mod stop;
mod stopping_file;
mod stream;
mod watch;

pub use duplex::{Duplex, Pair};
pub use host::FileHost;
pub use journals::FileJournals;
pub use listen::ListenPort;
pub use named_file::NamedFile;
pub use patient::PatientStream;
pub use stop::Stop;
pub use stopping_file::StoppingFile;
pub use stream::StreamLink;
pub use watch::ask_at_end;
