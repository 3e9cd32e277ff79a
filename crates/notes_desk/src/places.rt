//! The paths of the notes.
ghost use Rattle.std.specs.Prelude.{◌≡◌, option_map};
ghost use Rattle.std.specs.Option.{option_copied};
ghost use Rattle.notes_desk.specs.Routes.{behind, place_named, with_id, below, at_rest, route_at};

use osm_base::split_once;

/// What a path is a path of.
#[derive(Clone, Copy)]
pub enum NotePlace {
    /// All notes.
    All,
    Note,
    Comment,
    Closing,
    Reopening,
}

/// What stands behind a beginning.
fn behind<'a>(front: &[u8], text: &'a [u8]) -> Option<&'a [u8]>
    ensures { option_copied result ≡ behind front.now text.now }
{
    text.strip_prefix(front)
}

fn place_named(word: &[u8]) -> Option<NotePlace>
    ensures { result ≡ place_named word.now }
{
    if word == b"comment".as_slice() {
        Some(NotePlace::Comment)
    } else if word == b"close".as_slice() {
        Some(NotePlace::Closing)
    } else if word == b"reopen".as_slice() {
        Some(NotePlace::Reopening)
    } else {
        None
    }
}

/// The part that names a note has one byte at least.
fn with_id(id: &[u8], place: NotePlace) -> Option<(NotePlace, &[u8])>
    ensures { option_map (λ route. (route.0, route.1.now)) result ≡ with_id id.now place }
{
    if id.is_empty() {
        None
    } else {
        Some((place, id))
    }
}

fn below(rest: &[u8]) -> Option<(NotePlace, &[u8])>
    ensures { option_map (λ route. (route.0, route.1.now)) result ≡ below rest.now }
{
    match split_once(rest, b'/') {
        Some((id, word)) => with_id(id, place_named(word)?),
        None => with_id(rest, NotePlace::Note),
    }
}

fn at_rest(rest: &[u8]) -> Option<(NotePlace, &[u8])>
    ensures { option_map (λ route. (route.0, route.1.now)) result ≡ at_rest rest.now }
{
    if rest.is_empty() {
        Some((NotePlace::All, rest))
    } else {
        below(behind(b"/".as_slice(), rest)?)
    }
}

/// What a path of the notes is a path of, and the part of it that names a note: it is empty for all
/// notes.
pub fn route_at(path: &[u8]) -> Option<(NotePlace, &[u8])>
    ensures { option_map (λ route. (route.0, route.1.now)) result ≡ route_at path.now }
{
    at_rest(behind(b"/api/0.6/notes".as_slice(), path)?)
}
