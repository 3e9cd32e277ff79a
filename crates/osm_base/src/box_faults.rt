//! Why numbers or a text are no box.
/// Why numbers or a text give no box. The lowest that holds is named.
#[derive(Clone, Copy)]
pub enum BoxFault {
    /// Not exactly four parts between commas.
    NotFour,
    /// A part that isn't a decimal number.
    NotDecimal,
    /// An edge outside the globe.
    OutOfRange,
    /// The left edge lies right of the right one, or the bottom above the top.
    Crossed,
}
