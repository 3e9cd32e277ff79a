//! Laws on the operations of changes.
ghost use Rattle.std.specs.Prelude.{◌≡◌, ℕ, List, All, slice_get, Some, Ok};
ghost use Rattle.osm_change.specs.Build.{IsRaw, change_of};
ghost use Rattle.osm_change.specs.Change.{IsWellFormed, names_given};
ghost use Rattle.osm_change.specs.Document.{document_of};
ghost use Rattle.osm_change.specs.Said.{IsSaid};
ghost use Rattle.osm_change.specs.declared.operations.Op.{Op};

/// Whatever an operation of a change names can be said.
pub fn names_are_said()
    ensures { (ops : List Op) → IsWellFormed ops → (n : ℕ) (o : Op) → slice_get ops n ≡ Some o → All
        (λ given. IsSaid ops given.name) (names_given o) }
{}

/// Whatever the type of a change allows can be read: its operations, given as a document of any
/// changeset, are read as that change again.
pub fn changes_are_read_again()
    ensures document { (ops : List Op) → IsWellFormed ops → IsRaw (document_of ops) }
    ensures same { (ops : List Op) → IsWellFormed ops → (changeset : ℕ) → change_of changeset (document_of ops) ≡ Ok ops }
{}
