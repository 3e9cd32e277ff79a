//! What is compared part by part.

/// A part of the plain map, which is compared with what the indexed one has in its place.
pub trait Same<Other> {
    fn is_same(&self, other: &Other) -> bool;
}

/// Whether both have as many parts, and the same in each place.
pub fn are_same<Part: Same<Other>, Other>(plain: &[Part], came: &[Other]) -> bool {
    if plain.len() != came.len() {
        return false;
    }
    for (one, other) in plain.iter().zip(came.iter()) {
        if !one.is_same(other) {
            return false;
        }
    }
    true
}
