//! The words that the system gave a program.
ghost use Rattle.std.specs.Prelude.{◌≡◌, true, IfOk, IsTrue, map, string_bytes};
ghost use Rattle.std.specs.Vec.Iter.{into_iter_items};
ghost use Rattle.osm_words.specs.Words.{until_input_ends};

use crate::reading::until_input_ends;
use std::alloc::{AllocError, Global};
use std::env::Args;
use std::io;

/// The words, in their order.
pub fn words_of(alloc: Global, args: Args) -> Result<Vec<String>, AllocError>
    ensures { IfOk result (λ words. words.items ≡ into_iter_items args) }
{
    args.collect(alloc)
}

/// Whether `--until-input-ends` stands among the words that the system gave. Where there is no memory for their list the
/// program ends anyhow.
pub fn is_until_input_ends(alloc: Global, args: io::Result<Args>) -> bool
    ensures { IsTrue result → IfOk args (λ words. until_input_ends (map string_bytes (into_iter_items words)) ≡ true) }
{
    let Ok(args) = args else {
        return false;
    };
    match words_of(alloc, args) {
        Ok(words) => until_input_ends(words.as_slice()),
        Err(_) => false,
    }
}
