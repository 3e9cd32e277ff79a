//! What of an element is beyond a limit.
/// What of an element's own parts is beyond a limit. The lowest that holds is named.
#[derive(Clone, Copy, PartialEq, Eq)]
pub enum LocalFault {
    /// A key of no or of more than 255 characters.
    TagKey,
    /// A value of more than 255 characters.
    TagValue,
    /// A way without nodes.
    WayEmpty,
    /// A way of more than 2,000 nodes.
    WayLong,
    /// A relation of more than 32,000 members.
    RelationLong,
    /// A role of more than 255 characters.
    Role,
    /// A position outside the globe.
    Position,
}
