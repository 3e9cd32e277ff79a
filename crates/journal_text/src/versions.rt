//! The versions of the text's form, each told by the first line of a text.
//!
//! The versions of the text share one definition of a line. A text of version 1 is its header and
//! the same lines, where no entry has what version 1 has no member for. So what a version lacks is
//! seen in the entry that was read, and nothing is read or written twice.
ghost use Rattle.std.specs.Prelude.{◌≡◌, ◌++◌, IfSome, None};
ghost use Rattle.journal_text.specs.Faults.{LacksHeader};
ghost use Rattle.journal_text.specs.Text.{header};
ghost use Rattle.journal_text.specs.Version.{fits, has_no_limits, tells_no_moment};

use osm_model::{Command, Entry};

/// The first line of a text of version 1, with the byte 10 that ends it.
const FIRST_HEADER: &[u8] = b"osm-journal 1\n";

/// The first line of a text of version 2, the one that is written. Each version's has this length.
pub const HEADER: &[u8] = b"osm-journal 2\n";

/// A version of the form. `One` has no member for a user's limit, and none for the moment from which
/// new changesets are large.
#[derive(Clone, Copy, PartialEq, Eq)]
pub enum Version {
    One,
    Two,
}

impl Version {
    /// Whether the version has a member for each part of the entry.
    pub(crate) fn fits(self, entry: &Entry) -> bool
        ensures { result ≡ fits self entry.now }
    {
        match self {
            Version::One => has_no_limits(entry),
            Version::Two => true,
        }
    }
}

fn has_no_limits(entry: &Entry) -> bool
    ensures { result ≡ has_no_limits entry.now }
{
    entry.user.limit.is_none() && tells_no_moment(&entry.command)
}

fn tells_no_moment(command: &Command) -> bool
    ensures { result ≡ tells_no_moment command.now }
{
    match command {
        Command::CreateChangeset { large_from, .. } => large_from.is_none(),
        _ => true,
    }
}

/// The version of a text, and the lines behind its header: none where it begins with no header.
pub fn split_header(text: &[u8]) -> Option<(Version, &[u8])>
    ensures some { IfSome result (λ p. text.now ≡ header p.0 ++ p.1.now) }
    ensures none { result ≡ None → LacksHeader text.now }
{
    if let Some(lines) = text.strip_prefix(FIRST_HEADER) {
        return Some((Version::One, lines));
    }
    let lines = text.strip_prefix(HEADER)?;
    Some((Version::Two, lines))
}
