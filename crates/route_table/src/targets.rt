//! A target as its path and its query.
//!
//! A query that is absent has no parts; an empty one has one, with an empty name.
ghost use Rattle.std.specs.Prelude.{◌≡◌, IfSome, IsAscii};
ghost use Rattle.std.specs.Option.{option_copied};
ghost use Rattle.std.specs.List.{list_all, before_first, ends_with};
ghost use Rattle.std.specs.Char.{is_ascii};
ghost use Rattle.osm_base.specs.Parts.{is_byte};
ghost use Rattle.route_table.specs.Targets.{question_mark, path_of, query_of, without_json};

use osm_base::split_once;
use percent_encoding::ascii_str;

/// What stands behind the first question mark.
pub fn query_of(target: &[u8]) -> Option<&[u8]>
    ensures { option_copied result ≡ query_of target.now }
{
    match split_once(target, b'?') {
        Some((_, query)) => Some(query),
        None => None,
    }
}

/// The path that has or hasn't a route: without a query, and without one ending `.json`.
pub fn path_of(target: &[u8]) -> Option<&str>
    ensures path { option_copied result ≡ path_of target.now }
    ensures ascii { IfSome result (λ path. IsAscii path.now) }
{
    if !is_ascii(target) {
        return None;
    }
    Some(ascii_str(without_json(before_query(target))))
}

/// The target up to its first question mark.
pub fn before_query(target: &[u8]) -> &[u8]
    ensures { result.now ≡ before_first (is_byte question_mark) target.now }
{
    match split_once(target, b'?') {
        Some((path, _)) => path,
        None => target,
    }
}

fn is_ascii(target: &[u8]) -> bool
    ensures { result ≡ list_all is_ascii target.now }
{
    target.iter().all(|byte| byte.is_ascii())
}

fn without_json(path: &[u8]) -> &[u8]
    ensures { result.now ≡ without_json path.now }
{
    if path.ends_with(b".json".as_slice()) {
        &path[..path.len() - 5]
    } else {
        path
    }
}
