//! Laws on what a follower keeps of the pieces that it takes.
ghost use Rattle.std.specs.Prelude.{◌≡◌, ◌↔◌, ℕ, ◌+◌, ◌-◌, ◌≤◌, ◌<◌, List, [], ◌∷◌, ◌++◌, length, map, take, slice_range, slice_get, All, Some, IsOk};
ghost use mathlib.Core.List.{IsPrefix};
ghost use Rattle.osm_model.specs.Journal.{IsLegal};
ghost use Rattle.osm_model.specs.declared.commands.Entry.{Entry};
ghost use Rattle.journal_text.specs.Line.{IsEntry};
ghost use Rattle.replication_feed.specs.Piece.{pieces};
ghost use Rattle.replication_feed.specs.declared.pieces.Piece.{Piece};
ghost use Rattle.journal_follower.specs.Calls.{Call, AreCalls, AreOf, Agrees, after_all};
ghost use Rattle.journal_follower.specs.Taken.{taken, after};
ghost use Rattle.journal_follower.specs.declared.answers.Taken.TheVariants.{Folded, Old, Differs, Gap, Illegal};

use journal_text::{legal_journals_grow, lines_tell_entries};

/// What is said of a piece, and why. `kept` is what a follower keeps, and the piece's number is 1 at
/// least.
pub fn answers_say_why()
    ensures folded { (kept : List Entry) (p : Piece) → IsLegal kept → 1 ≤ p.number → (taken kept p ≡ Folded)
        ↔ ((p.number ≡ length kept + 1) × IsLegal (kept ++ p.entry ∷ [])) }
    ensures old { (kept : List Entry) (p : Piece) → All IsEntry kept → IsEntry p.entry → 1 ≤ p.number → (taken kept p ≡ Old)
        ↔ (slice_get kept (p.number - 1) ≡ Some p.entry) }
    ensures differs { (kept : List Entry) (p : Piece) → All IsEntry kept → IsEntry p.entry → 1 ≤ p.number → (taken kept p ≡ Differs)
        ↔ ((p.number ≤ length kept) × (slice_get kept (p.number - 1) ≡ Some p.entry → ⊥)) }
    ensures gap { (kept : List Entry) (p : Piece) (next : ℕ) → 1 ≤ p.number → (taken kept p ≡ Gap next)
        ↔ ((length kept + 1 < p.number) × (next ≡ length kept + 1)) }
    ensures illegal { (kept : List Entry) (p : Piece) → IsLegal kept → 1 ≤ p.number → (taken kept p ≡ Illegal)
        ↔ ((p.number ≡ length kept + 1) × (IsLegal (kept ++ p.entry ∷ []) → ⊥)) }
    ensures legal { (kept : List Entry) (p : Piece) → IsLegal kept → IsLegal (after kept p) }
{
    legal_journals_grow();
    lines_tell_entries();
}

/// Calls, and more calls behind them, are calls together.
pub fn calls_append()
    ensures calls { (kept : List Entry) (calls more : List Call) → AreCalls kept calls → AreCalls (after_all kept calls) more → AreCalls kept (calls ++ more) }
    ensures after { (kept : List Entry) (calls more : List Call) → after_all kept (calls ++ more) ≡ after_all (after_all kept calls) more }
{}

/// Whoever takes the pieces of a legal journal, in any order, with losses and repeats, keeps a
/// beginning of it that never falls back, and is never told that a piece is of another one. From n
/// entries the pieces n + 1 to m in order bring it to m, unless memory runs out.
pub fn feeds_are_followed()
    ensures prefix { (journal kept : List Entry) (calls : List Call) → IsPrefix kept journal → AreOf journal calls → IsPrefix (after_all kept calls) journal }
    ensures grows { (kept : List Entry) (calls : List Call) → IsPrefix kept (after_all kept calls) }
    ensures agrees { (journal kept : List Entry) (calls : List Call) → IsLegal journal → IsPrefix kept journal → AreOf journal calls → AreCalls kept calls
        → All (λ c. Agrees c.came) calls }
    ensures reaches { (journal : List Entry) (n m : ℕ) (calls : List Call) → IsLegal journal → n ≤ m → m ≤ length journal
        → map (λ c. c.piece) calls ≡ slice_range (pieces journal) n m → All (λ c. IsOk c.came) calls → after_all (take n journal) calls ≡ take m journal }
{
    legal_journals_grow();
}
