//! How serving ports ended.

/// How serving ports ended.
#[derive(Clone, Copy)]
pub enum Outcome {
    /// No port has a link to come.
    Served,
    /// Accepting failed at a port.
    Failed,
    /// Keeping failed, so a reply may have been withheld.
    Unkept,
    /// There was no memory before the first link.
    LacksMemory,
}
