//! The parts of a line that lines of any entries have, read token by token.
ghost use Rattle.std.specs.Prelude.{◌≡◌};
ghost use Rattle.serde_json.specs.Find.{as_str};
ghost use Rattle.osm_json.specs.Again.{natural_of};
ghost use Rattle.json_line.specs.Heard.{Hears, heard_of};
ghost use Rattle.json_line.specs.Read.{begin_next, end_next, key_next, member_next, session_next};

use json::{Reader, Token};
use line_text::LineFault;
use osm_json::{BodyFault, next_natural, next_text};

// Tokens.

/// The beginning of a record.
pub fn begin(reader: &mut Reader<'_>) -> Result<(), LineFault>
    ensures { Hears (λ u. u) result (begin_next reader.old) reader.new }
{
    match reader.next() {
        Some(Token::BeginObject) => Ok(()),
        _ => Err(LineFault::NotLine),
    }
}

/// The end of a record.
pub fn end(reader: &mut Reader<'_>) -> Result<(), LineFault>
    ensures { Hears (λ u. u) result (end_next reader.old) reader.new }
{
    match reader.next() {
        Some(Token::EndObject) => Ok(()),
        _ => Err(LineFault::NotLine),
    }
}

/// The name of a member, which has to be this one.
pub fn key(reader: &mut Reader<'_>, name: &str) -> Result<(), LineFault>
    ensures { Hears (λ u. u) result (key_next name.now reader.old) reader.new }
{
    match reader.next() {
        Some(Token::Key(found)) => if found == name {
            Ok(())
        } else {
            Err(LineFault::NotLine)
        },
        _ => Err(LineFault::NotLine),
    }
}

// Members.

/// What reading a part of a body gave, where it is a part of a line.
pub fn heard<T: Drop>(read: Result<T, BodyFault>) -> Result<T, LineFault>
    ensures { result ≡ heard_of read }
{
    match read {
        Ok(value) => Ok(value),
        Err(BodyFault::Memory) => Err(LineFault::Memory),
        Err(BodyFault::NotJson | BodyFault::Shape { .. }) => Err(LineFault::NotLine),
    }
}

/// The member of this name, a number.
#[tactic(auto, using(crate::proofs::Hearing::hears))]
pub fn natural(reader: &mut Reader<'_>, name: &str) -> Result<u64, LineFault>
    ensures { Hears (λ n. n) result (member_next name.now natural_of reader.old) reader.new }
{
    key(reader, name)?;
    heard(next_natural(reader))
}

/// The member of this name, a text, which is not copied.
#[tactic(auto, using(crate::proofs::Hearing::hears))]
pub fn lent_text<'a>(reader: &mut Reader<'a>, name: &str) -> Result<&'a str, LineFault>
    ensures { Hears (λ t. t.now) result (member_next name.now as_str reader.old) reader.new }
{
    key(reader, name)?;
    heard(next_text(reader))
}

/// The member `session`, the number of a session.
#[tactic(auto, unfolding(crate::specs::Read::session_next))]
pub fn session(reader: &mut Reader<'_>) -> Result<u32, LineFault>
    ensures { Hears (λ n. n) result (session_next reader.old) reader.new }
{
    let session = natural(reader, "session")?;
    if session <= u32::MAX as u64 {
        Ok(session as u32)
    } else {
        Err(LineFault::NotLine)
    }
}
