//! The first words of lines.

/// What a line gives to the next run, or does.
#[derive(Clone, Copy)]
pub enum Gift {
    /// The text's header.
    Text,
    /// A line of the text.
    Line,
    /// The file is the text, and what stands behind it.
    File,
    /// There is no file yet.
    New,
    /// The file that came back of the run before.
    Again,
    /// Another byte in the file.
    Byte,
    /// After how many calls the file fails.
    Fails,
    Users,
    BadCalls,
    /// A port, by its links' clock.
    Port,
    /// The accepts of the port that fail.
    BadAccepts,
    /// A link of the port, or so many.
    Link,
    /// The lines of a session, by a form.
    Session,
    Request,
    Reply,
}

/// What a line asks of the last run.
#[derive(Clone, Copy)]
pub enum Check {
    Status,
    /// The status by how many numbers were told.
    Ends,
    Ports,
    Links,
    Replied,
    Replies,
    Some,
    Numbers,
    Places,
    Last,
    Found,
    Holds,
    Sealed,
    Mixed,
    State,
    Untouched,
    Same,
    Ungiven,
    Unused,
}

#[derive(Clone, Copy)]
pub enum Mark {
    /// The program is run.
    Run,
    Gift(Gift),
    Check(Check),
}

const GIFTS: [(&str, Gift); 13] = [
    ("text", Gift::Text),
    ("|", Gift::Line),
    ("file", Gift::File),
    ("new", Gift::New),
    ("again", Gift::Again),
    ("byte", Gift::Byte),
    ("fails", Gift::Fails),
    ("users", Gift::Users),
    ("bad_calls", Gift::BadCalls),
    ("port", Gift::Port),
    ("bad_accepts", Gift::BadAccepts),
    ("link", Gift::Link),
    ("session", Gift::Session),
];

const CHECKS: [(&str, Check); 19] = [
    ("status", Check::Status),
    ("ends", Check::Ends),
    ("ports", Check::Ports),
    ("links", Check::Links),
    ("replied", Check::Replied),
    ("replies", Check::Replies),
    ("some", Check::Some),
    ("numbers", Check::Numbers),
    ("places", Check::Places),
    ("last", Check::Last),
    ("found", Check::Found),
    ("holds", Check::Holds),
    ("sealed", Check::Sealed),
    ("mixed", Check::Mixed),
    ("state", Check::State),
    ("untouched", Check::Untouched),
    ("same", Check::Same),
    ("ungiven", Check::Ungiven),
    ("unused", Check::Unused),
];

fn gift_of(word: &str) -> Option<Gift> {
    for (name, gift) in GIFTS {
        if name == word {
            return Some(gift);
        }
    }
    None
}

fn check_of(word: &str) -> Option<Check> {
    for (name, check) in CHECKS {
        if name == word {
            return Some(check);
        }
    }
    None
}

/// A line that begins with no such word is a reply where it begins with a digit, else a request.
fn call_of(word: &str) -> Gift {
    match word.as_bytes().first() {
        Some(b'0'..=b'9') => Gift::Reply,
        _ => Gift::Request,
    }
}

/// What the first word of a line says.
pub fn mark_of(word: &str) -> Mark {
    if word == "run" {
        return Mark::Run;
    }
    match (gift_of(word), check_of(word)) {
        (Some(gift), _) => Mark::Gift(gift),
        (None, Some(check)) => Mark::Check(check),
        (None, None) => Mark::Gift(call_of(word)),
    }
}
