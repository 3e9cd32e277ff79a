//! Where a text that is read piece by piece is closed.
ghost use Rattle.std.specs.Prelude.{◌≡◌, ◌∷◌, ◌++◌, [], List, ℕ};
ghost use Rattle.journal_input.specs.Place.{IsOpen, has_gate_first, next_place, Sees};

/// Closes a text where it stands at a line's beginning.
pub(crate) const GATE: u8 = b'#';

/// Whether bytes that a line begins with are a gate.
pub(crate) fn has_gate_first(bytes: &[u8]) -> bool
    ensures { result ≡ has_gate_first bytes.now }
{
    match bytes.first() {
        Some(first) => *first == GATE,
        None => false,
    }
}

/// What the next byte of a text is.
#[derive(Clone, Copy)]
pub(crate) enum Place {
    /// The first one of a line.
    LineStart,
    /// One of a line that is begun.
    InLine,
    /// One behind a gate, which doesn't count.
    BehindGate,
}

impl Place {
    /// The place behind one more byte.
    fn next(self, byte: u8) -> Place
        ensures { result ≡ next_place self byte }
    {
        match self {
            Place::BehindGate => Place::BehindGate,
            Place::LineStart if byte == GATE => Place::BehindGate,
            _ if byte == b'\n' => Place::LineStart,
            _ => Place::InLine,
        }
    }

    /// The place behind these bytes.
    pub(crate) fn behind(self, piece: &[u8]) -> Place
        ensures { (text : List ℕ) → Sees self text → Sees result (text ++ piece.now) }
    {
        let mut place = self;
        for byte in piece {
            place = place.next(*byte);
        }
        place
    }

    /// Whether no gate was before.
    pub(crate) fn is_open(self) -> bool
        ensures { (text : List ℕ) → Sees self text → IsOpen result text }
    {
        match self {
            Place::LineStart => true,
            Place::InLine => true,
            Place::BehindGate => false,
        }
    }
}
