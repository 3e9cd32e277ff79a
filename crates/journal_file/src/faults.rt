//! What can go wrong with the file.
/// Why lines were not added.
#[derive(Clone, Copy, PartialEq, Eq)]
pub enum AppendFault {
    /// A call of the device has failed, now or before. Nothing more is written until the file is opened again.
    Failed,
    /// The file has 2^62 bytes or more.
    Full,
}

/// Why a file was not opened.
#[derive(Clone, Copy, PartialEq, Eq)]
pub enum OpenFault {
    /// It doesn't begin with the header. Nothing was changed.
    Foreign,
    /// A call of the device failed.
    Failed,
}
