//! Laws on texts that are written and read again.
ghost use Rattle.std.specs.Prelude.{◌≡◌, ℕ, ◌^◌, ◌<◌, Bool, true, List, ◌++◌, Some};
ghost use Rattle.json.specs.Lex.{tokens};
ghost use Rattle.json.specs.Token.{Token};
ghost use Rattle.serde_json.specs.Data.{Data, boolean, string};
ghost use Rattle.serde_json.specs.Find.{as_bool, as_str};
ghost use Rattle.serde_json.specs.Written.{compact_text};
ghost use Rattle.osm_base.specs.declared.keys.Kind.{Kind};
ghost use Rattle.osm_element.specs.Tags.{Tag, KeysRise};
ghost use Rattle.osm_change.specs.Document.{document_of};
ghost use Rattle.osm_change.specs.declared.operations.Op.{Op};
ghost use Rattle.osm_json.specs.Again.{IsPlainData, has_no_zero, is_one_line, natural_of, next_as, ops_of};
ghost use Rattle.osm_json.specs.Reading.{kind_of, tags_of};
ghost use Rattle.osm_json.specs.Rows.{tags as tags_data};
ghost use Rattle.osm_json.specs.Sent.{tokens_of};
ghost use Rattle.osm_json.specs.Shown.{natural, kind};
ghost use Rattle.osm_json.specs.Uploads.{IsChange, change};

use osm_change::changes_are_read_again;

/// The tokens of the compact text of plain data are those that were written for it, and the text
/// is one line: no byte 10 stands in it, and no byte 0 either.
pub fn texts_are_read_again()
    ensures tokens { (d : Data) → IsPlainData d → tokens (compact_text d) ≡ tokens_of d }
    ensures line { (d : Data) → IsPlainData d → is_one_line (compact_text d) ≡ true }
    ensures full { (d : Data) → IsPlainData d → has_no_zero (compact_text d) ≡ true }
{}

/// What is written for tags and for a change is plain, and is read as those tags and as the
/// operations of that change, whatever stands behind it.
pub fn parts_are_read_again()
    ensures tags { (tags : List Tag) → KeysRise tags → IsPlainData (tags_data tags) }
    ensures change { (ops : List Op) → IsChange ops → IsPlainData (change ops) }
    ensures tags_again { (tags : List Tag) → KeysRise tags → (rest : List Token)
        → next_as tags_of (tokens_of (tags_data tags) ++ rest) ≡ Some (tags, rest) }
    ensures change_again { (ops : List Op) → IsChange ops → (rest : List Token)
        → next_as ops_of (tokens_of (change ops) ++ rest) ≡ Some (document_of ops, rest) }
{
    changes_are_read_again();
}

/// So is what is written for values.
pub fn values_are_read_again()
    ensures natural { (n : ℕ) → n < 2 ^ 64 → (rest : List Token) → next_as natural_of (tokens_of (natural n) ++ rest) ≡ Some (n, rest) }
    ensures flag { (b : Bool) (rest : List Token) → next_as as_bool (tokens_of (boolean b) ++ rest) ≡ Some (b, rest) }
    ensures text { (text : List ℕ) (rest : List Token) → next_as as_str (tokens_of (string text) ++ rest) ≡ Some (text, rest) }
    ensures kind { (k : Kind) (rest : List Token) → next_as kind_of (tokens_of (kind k) ++ rest) ≡ Some (k, rest) }
{}
