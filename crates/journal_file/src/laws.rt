//! What batches are, for whoever writes them.
ghost use Rattle.std.specs.Prelude.{◌≡◌, ◌⊎◌, ◌++◌, ◌∷◌, [], List, ℕ};
ghost use Rattle.journal_file.specs.Settled.{AreZeros, IsDamaged};
ghost use Rattle.journal_file.specs.Whole.{whole, AreLines, IsBatch, IsOneLine, GoesOn};

/// Laws. Whole lines and an empty one are a batch of these lines. A line that begins with `{` is one with
/// what is behind it, and a front of whole lines that isn't empty has it whole.
pub fn batch_law()
    ensures ends { (lines : List ℕ) → AreLines lines → (whole (lines ++ 10 ∷ []) ≡ lines) × IsBatch (lines ++ 10 ∷ []) }
    ensures counts { (line more : List ℕ) → IsOneLine line → whole (123 ∷ (line ++ 10 ∷ more)) ≡ 123 ∷ (line ++ 10 ∷ whole more) }
    ensures fronts { (line more some rest : List ℕ) → IsOneLine line → AreLines some → 123 ∷ (line ++ 10 ∷ more) ≡ some ++ rest
        → (some ≡ []) ⊎ GoesOn line more some rest }
{}

/// A law: where a byte of a file is 0, and behind it two bytes 10 stand side by side and something is
/// written behind those, the file is damaged, whatever else stands in it. So what rots to a zero in a
/// batch that isn't the last one, and in the last one of a sealed file, isn't cut off.
pub fn lost_bytes_are_told()
    ensures { (before after more : List ℕ) → (AreZeros more → ⊥) → IsDamaged (before ++ 0 ∷ (after ++ 10 ∷ 10 ∷ more)) }
{}
