//! Laws on the pieces of a journal and their texts.
ghost use Rattle.std.specs.Prelude.{◌≡◌, ℕ, List, All, map, take};
ghost use Rattle.osm_model.specs.Journal.{replay};
ghost use Rattle.osm_model.specs.declared.commands.Entry.{Entry};
ghost use Rattle.replication_feed.specs.Piece.{pieces, entries_in, IsPiece, IsFeed, IsPieceText, AreTextsOf};
ghost use Rattle.replication_feed.specs.Text.{text_of};
ghost use Rattle.replication_feed.specs.declared.pieces.Piece.{Piece};

use journal_text::lines_tell_entries;

/// A text is that of one piece at most.
pub fn texts_tell_pieces()
    ensures { (text : List ℕ) (p other : Piece) → IsPieceText text p → IsPieceText text other → p ≡ other }
{
    lines_tell_entries();
}

/// The texts of a journal's pieces give the journal back. Each piece of a journal has its text. Whoever
/// reads the texts of the pieces 1 to n has read these pieces and no others, each with its number:
/// they hold the first n entries, and replay to the state of these entries.
pub fn pieces_replay()
    ensures pieces { (journal : List Entry) → IsFeed journal → All IsPiece (pieces journal) }
    ensures texts { (journal : List Entry) → IsFeed journal → AreTextsOf (map text_of (pieces journal)) (pieces journal) }
    ensures read { (journal : List Entry) (n : ℕ) (texts : List (List ℕ)) (found : List Piece) → AreTextsOf texts (take n (pieces journal)) → AreTextsOf texts found
        → found ≡ take n (pieces journal) }
    ensures entries { (journal : List Entry) (n : ℕ) (texts : List (List ℕ)) (found : List Piece) → AreTextsOf texts (take n (pieces journal)) → AreTextsOf texts found
        → entries_in found ≡ take n journal }
    ensures replay { (journal : List Entry) (n : ℕ) (texts : List (List ℕ)) (found : List Piece) → AreTextsOf texts (take n (pieces journal)) → AreTextsOf texts found
        → replay (entries_in found) ≡ replay (take n journal) }
{
    texts_tell_pieces();
}
