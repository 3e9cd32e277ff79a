//! The runs of a row's sweeps.
use crate::plays::Play;
use crate::rows::{Row, Sweep};

/// The numbers of a sweep's runs: from the first on, to before the second.
pub fn numbers_of(row: &Row, sweep: Sweep) -> (usize, usize) {
    let input = row.requests.all().len();
    match sweep {
        Sweep::Piece | Sweep::Cut => (1, input),
        Sweep::End => (0, input),
        // The last read that fails is the one that finds the end.
        Sweep::Read(size) => (0, input.div_ceil(size.max(1)).saturating_add(1)),
        Sweep::Write => (0, row.replies.len()),
        Sweep::Room => (0, row.replies.all().len().saturating_add(1)),
    }
}

/// A run of a sweep.
pub fn play_of(row: &Row, sweep: Sweep, number: usize) -> Play<'_> {
    let play = Play {
        number,
        ..Play::whole(row)
    };
    match sweep {
        Sweep::Piece => Play {
            way: "in reads of so many bytes:",
            cut: number,
            cut_count: play.input.len(),
            ..play
        },
        Sweep::Cut => Play {
            way: "cut behind byte",
            cut: number,
            cut_count: 1,
            ..play
        },
        Sweep::End => ended(row, play),
        Sweep::Read(size) => with_bad_read(row, size, play),
        Sweep::Write => with_bad_write(row, play),
        Sweep::Room => with_room(play),
    }
}

/// The replies to the requests that came whole, and status 0 where these end with a request.
fn ended<'a>(row: &'a Row, play: Play<'a>) -> Play<'a> {
    let (count, between) = row.requests.whole_in(play.number);
    Play {
        way: "ended behind byte",
        input: play.input.get(..play.number).unwrap_or(play.input),
        wanted: row.replies.first(count),
        status: if between { 0 } else { 7 },
        ..play
    }
}

fn with_bad_read<'a>(row: &'a Row, size: usize, play: Play<'a>) -> Play<'a> {
    let (count, _) = row.requests.whole_in(play.number.saturating_mul(size));
    Play {
        way: "with a read that fails, of number",
        cut: size,
        cut_count: play.input.len(),
        bad_read: Some(play.number as u64),
        wanted: row.replies.first(count),
        status: 3,
        ..play
    }
}

/// A small reply is one write, and nothing is written after one that failed.
fn with_bad_write<'a>(row: &'a Row, play: Play<'a>) -> Play<'a> {
    Play {
        way: "with a write that fails, of number",
        bad_write: Some(play.number as u64),
        wanted: row.replies.first(play.number),
        status: 4,
        ..play
    }
}

/// A write that takes no byte is a fault; those before it stay.
fn with_room(play: Play<'_>) -> Play<'_> {
    let room = play.number;
    let is_less = room < play.wanted.len();
    Play {
        way: "with room for so many bytes:",
        room,
        wanted: play.wanted.get(..room).unwrap_or(play.wanted),
        status: if is_less { 4 } else { play.status },
        ..play
    }
}
