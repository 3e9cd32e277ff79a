//! What is told of outcomes.
use crate::listing::{Lack, Noted, Wish};
use hub_core::{Done, Path};
use osm_base::Memory;
use row_lines::{RowFault, number, word_of};
use snapshot_hub::End;

/// What a commit gives, in plain values.
#[derive(Clone, Copy)]
pub enum Given {
    /// The number was added, and is the answer.
    Added {
        place: u64,
        answer: Option<u8>,
    },
    /// The same where the plan stood no longer, by the look that it gave.
    AddedAnew {
        place: u64,
        answer: Option<u8>,
        look: u64,
    },
    Refused,
}

/// The one byte that there is.
fn one_of(bytes: &[u8]) -> Option<u8> {
    match bytes {
        [one] => Some(*one),
        _ => None,
    }
}

pub fn given_of(done: &Done<u64>) -> Given {
    let answer = one_of(done.answer.as_slice());
    match (done.place, &done.path) {
        (Some(place), Path::Fast) => Given::Added { place, answer },
        (Some(place), Path::Slow(look)) => Given::AddedAnew {
            place,
            answer,
            look: *look,
        },
        (None, _) => Given::Refused,
    }
}

/// The call that finds no memory, by its word.
const LACKS: [(&str, Lack); 5] = [
    ("", Lack::Nothing),
    ("plan", Lack::Plan),
    ("settle", Lack::Settle),
    ("copy", Lack::Copy),
    ("room", Lack::MakeRoom),
];

fn lack_of(word: &str) -> Result<Lack, RowFault> {
    for (name, lack) in LACKS {
        if name == word {
            return Ok(lack);
        }
    }
    Err(RowFault::Unread)
}

fn word_for(lack: Lack) -> &'static str {
    for (name, known) in LACKS {
        if known == lack {
            return name;
        }
    }
    "?"
}

/// `NUMBER LACK`.
pub fn wish_of(text: &str) -> Result<Wish, RowFault> {
    let (digits, lack) = word_of(text);
    Ok(Wish {
        number: number(digits)?,
        lack: lack_of(lack)?,
    })
}

/// `PLACE: ANSWER`.
fn tell_place(told: &mut String, place: u64, answer: Option<u8>) -> Result<(), RowFault> {
    write!(told, "added {place}: ")?;
    tell_number(told, answer)
}

fn tell_look(told: &mut String, look: u64) -> Result<(), RowFault> {
    write!(told, " after {look}")?;
    Ok(())
}

fn tell_given(told: &mut String, given: Given) -> Result<(), RowFault> {
    match given {
        Given::Added { place, answer } => tell_place(told, place, answer),
        Given::AddedAnew {
            place,
            answer,
            look,
        } => {
            tell_place(told, place, answer)?;
            tell_look(told, look)
        }
        Given::Refused => tell_text(told, "refused"),
    }
}

pub fn tell_added(told: &mut String, came: Result<Given, Memory>) -> Result<(), RowFault> {
    match came {
        Ok(given) => tell_given(told, given),
        Err(Memory) => tell_lack(told),
    }
}

pub fn tell_crossed(
    told: &mut String,
    came: Result<(Given, Given), Memory>,
) -> Result<(), RowFault> {
    match came {
        Ok((first, second)) => {
            tell_given(told, first)?;
            told.push_str(", ")?;
            tell_given(told, second)
        }
        Err(Memory) => tell_lack(told),
    }
}

pub fn tell_freshened(told: &mut String, came: Result<bool, Memory>) -> Result<(), RowFault> {
    let text = match came {
        Ok(true) => "done",
        Ok(false) => "less than was found",
        Err(Memory) => "no memory",
    };
    tell_text(told, text)
}

pub fn tell_lack(told: &mut String) -> Result<(), RowFault> {
    tell_text(told, "no memory")
}

fn tell_text(told: &mut String, text: &str) -> Result<(), RowFault> {
    told.push_str(text)?;
    Ok(())
}

/// Parts what is listed, and says where nothing is.
fn begin_list(told: &mut String, is_empty: bool) -> Result<(), RowFault> {
    tell_text(told, if is_empty { "none" } else { "" })
}

fn part_list(told: &mut String) -> Result<(), RowFault> {
    let is_first = told.is_empty();
    tell_text(told, if is_first { "" } else { " " })
}

pub fn tell_whether(told: &mut String, came: bool) -> Result<(), RowFault> {
    tell_text(told, if came { "yes" } else { "no" })
}

pub fn tell_number(told: &mut String, came: Option<u8>) -> Result<(), RowFault> {
    match came {
        Some(number) => write!(told, "{number}")?,
        None => told.push_str("nothing")?,
    }
    Ok(())
}

/// `SESSION:CALL:NUMBER`, and the call that found no memory.
fn tell_entry(told: &mut String, entry: &Noted) -> Result<(), RowFault> {
    let (session, call, number) = (entry.tag.session, entry.tag.call, entry.wish.number);
    let lack = word_for(entry.wish.lack);
    write!(told, "{session}:{call}:{number}{lack}")?;
    Ok(())
}

pub fn tell_entries(told: &mut String, entries: &[Noted]) -> Result<(), RowFault> {
    begin_list(told, entries.is_empty())?;
    for entry in entries {
        part_list(told)?;
        tell_entry(told, entry)?;
    }
    Ok(())
}

pub fn tell_numbers(told: &mut String, numbers: &[u64]) -> Result<(), RowFault> {
    begin_list(told, numbers.is_empty())?;
    for number in numbers {
        part_list(told)?;
        write!(told, "{number}")?;
    }
    Ok(())
}

pub fn tell_ends(told: &mut String, ends: &[End]) -> Result<(), RowFault> {
    begin_list(told, ends.is_empty())?;
    for end in ends {
        part_list(told)?;
        tell_text(told, word_of_end(end))?;
    }
    Ok(())
}

fn word_of_end(end: &End) -> &'static str {
    match end {
        End::Matched => "matched",
        End::Unmatched { .. } => "unmatched",
    }
}
