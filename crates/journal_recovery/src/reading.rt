//! How the text of a journal is read again.
ghost use Rattle.std.specs.Prelude.{◌≡◌, true, ◌++◌, List, IfErr, IfOk};
ghost use Rattle.journal_file.specs.Whole.{IsText};
ghost use Rattle.journal_recovery.specs.Header.{is_header};
ghost use Rattle.line_text.specs.Lines.{lines_of};
ghost use Rattle.line_text.specs.OneLine.{is_one_line};
ghost use Rattle.journal_recovery.specs.declared.faults.TextFault.{TextFault};

use crate::faults::TextFault;
use durable_log::Lines;
use std::alloc::Global;

/// How the lines of entries are read again. Reading a line hangs on nothing but the line.
pub trait KeptText<E>: Lines<E> {
    ghost use Rattle.std.specs.Prelude.{ℕ, List};

    // What the fields of an entry allow.
    ghost is_entry: { E → Type 0 };

    // The line of an entry, without the byte 10 that ends it.
    ghost line: { E → List ℕ };

    // The first line of each text.
    ghost header: { List ℕ };

    /// The first line of each text, with the byte 10 that ends it.
    fn header() -> &'static [u8]
        ensures header { result.now ≡ header }
        ensures text { IsText header }
        ensures one { is_header header ≡ true };

    /// The entry whose line this is.
    fn read_line(alloc: Global, bytes: &[u8]) -> Result<E, TextFault>
        ensures is { IfOk result (λ entry. bytes.now ≡ line entry) }
        ensures typed { IfOk result is_entry }
        ensures refused { IfErr result (λ fault. fault ≡ TextFault.NoJournal → (entry : E) → is_entry entry → bytes.now ≡ line entry → ⊥) };

    /// Laws. A text is the header with the lines of its entries behind it, which are theirs one after
    /// another, each ended by byte 10; no byte 10 stands in a line; and a line tells its entry.
    fn text_law()
        ensures begins { (entries : List E) → Self.text entries ≡ header ++ Self.lines entries }
        ensures lines { (entries : List E) → Self.lines entries ≡ lines_of line entries }
        ensures one { (entry : E) → is_entry entry → is_one_line (line entry) ≡ true }
        ensures tell { (entry other : E) → is_entry entry → is_entry other → line entry ≡ line other → entry ≡ other };
}
