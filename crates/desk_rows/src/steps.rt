//! The lines of a row.
use crate::desks::Sender;
use crate::faults::Fault;
use row_lines::{number, word_of};

/// What a line says.
#[derive(Clone, Copy)]
pub enum Step<'a> {
    Nothing,
    /// The clock goes on by so many seconds.
    Wait(u64),
    /// So many entries must have been accepted.
    Entries(u64),
    /// An empty map takes all entries.
    Anew,
    /// A load is sent: of so many sessions, and so many uploads.
    Load((u32, u32)),
    /// It is played as events.
    Interleave((u32, u32)),
    /// A session plans the command of a request.
    Plan(u32, &'a str),
    /// A session commits its plan.
    Commit(u32),
    /// The journal is published.
    Publish,
    /// What the sessions planned, committed and published is played, and each commit told, or else
    /// their paths counted.
    Meet { is_told: bool },
    /// A request at that session and moment.
    Timed(Sender, &'a str),
    /// A request.
    Ask(&'a str),
}

/// What a line does whose first word names it.
#[derive(Clone, Copy)]
enum Verb {
    Wait,
    Entries,
    Anew,
    Load,
    Interleave,
    Plan,
    Commit,
    Publish,
    Meet,
    Tally,
}

const VERBS: [(&str, Verb); 10] = [
    ("wait", Verb::Wait),
    ("=", Verb::Entries),
    ("anew", Verb::Anew),
    ("load", Verb::Load),
    ("interleave", Verb::Interleave),
    ("plan", Verb::Plan),
    ("commit", Verb::Commit),
    ("publish", Verb::Publish),
    ("meet", Verb::Meet),
    ("tally", Verb::Tally),
];

fn verb_of(word: &str) -> Option<Verb> {
    for (name, verb) in VERBS {
        if name == word {
            return Some(verb);
        }
    }
    None
}

fn small(text: &str) -> Result<u32, Fault> {
    Ok(u32::try_from(number(text)?).unwrap_or(u32::MAX))
}

/// `SESSIONS UPLOADS`.
fn load_of(text: &str) -> Result<(u32, u32), Fault> {
    let (sessions, uploads) = word_of(text);
    Ok((small(sessions)?, small(uploads)?))
}

/// `SESSION REQUEST`.
fn plan_of(text: &str) -> Result<Step<'_>, Fault> {
    let (session, request) = word_of(text);
    Ok(Step::Plan(small(session)?, request))
}

/// `SESSION MOMENT REQUEST`, or a request alone.
fn request_of(line: &str) -> Result<Step<'_>, Fault> {
    let (session, rest) = word_of(line);
    let Ok(session) = small(session) else {
        return Ok(Step::Ask(line));
    };
    let (moment, request) = word_of(rest);
    let moment = number(moment)?;
    Ok(Step::Timed(Sender { session, moment }, request))
}

impl Step<'_> {
    pub fn of(line: &str) -> Result<Step<'_>, Fault> {
        if line.is_empty() || line.starts_with('#') {
            return Ok(Step::Nothing);
        }
        let (word, rest) = word_of(line);
        match verb_of(word) {
            Some(Verb::Wait) => Ok(Step::Wait(number(rest)?)),
            Some(Verb::Entries) => Ok(Step::Entries(number(rest)?)),
            Some(Verb::Anew) => Ok(Step::Anew),
            Some(Verb::Load) => Ok(Step::Load(load_of(rest)?)),
            Some(Verb::Interleave) => Ok(Step::Interleave(load_of(rest)?)),
            Some(Verb::Plan) => plan_of(rest),
            Some(Verb::Commit) => Ok(Step::Commit(small(rest)?)),
            Some(Verb::Publish) => Ok(Step::Publish),
            Some(Verb::Meet) => Ok(Step::Meet { is_told: true }),
            Some(Verb::Tally) => Ok(Step::Meet { is_told: false }),
            None => request_of(line),
        }
    }
}
