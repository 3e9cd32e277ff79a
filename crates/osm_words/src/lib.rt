//! The words of a program's command line, read with `clap`: which command of the server they give, or
//! how a mirror is to serve, and with which options.
#![tactic(auto)]

mod commands;
mod given;
mod matches;
mod reading;
mod values;
mod words;

pub use given::{is_until_input_ends, words_of};
pub use reading::{read_mirror_words, read_words};
pub use words::{
    LEVEL_LIMIT, LoadOptions, MirrorWords, UPLOAD_LIMIT, UPLOADS_A_SESSION, Words, WordsFault,
};
