//! A program to which the system gave no words.
ghost use Rattle.std.specs.Prelude.{◌≡◌};
ghost use Rattle.std.specs.IoError.{error_kind};
ghost use Rattle.server_frame.specs.Words.{exit_without_words};

use crate::exit::Exit;
use std::io;

/// How a program ends to which the system gave no words, for want of memory or since they are no text.
pub fn exit_without_words(why: &io::Error) -> Exit
    ensures { result ≡ exit_without_words (error_kind why.now) }
{
    match why.kind() {
        io::ErrorKind::OutOfMemory => Exit::NoMemory,
        _ => Exit::NoReading,
    }
}
