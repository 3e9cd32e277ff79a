//! Taking in a text part by part: while the worlds of both copies follow the entries of one part, which
//! are then kept as a journal keeps them, the next one is read. So there are never more than two parts as
//! they were read.
ghost use Rattle.std.specs.Prelude.{IfSome};
ghost use Rattle.journal_recovery.specs.Intakes.{HasFollowed, IsNext, IsTakenIn, entries_in};
ghost use Rattle.journal_file.specs.Whole.{packed};
ghost use Rattle.line_text.specs.Cut.{IsCut};
ghost use Rattle.journal_recovery.specs.Parts.{IsRead};
ghost use Rattle.journal_recovery.specs.Judged.{IsFollowed, IsJudged};

use crate::faults::TextFault;
use crate::judging::{EntryJudge, Worlds, follow_both};
use crate::parts::read_lines;
use crate::reading::KeptText;
use line_text::cut_behind;
use std::alloc::Global;
use std::thread::{Threads, join};

/// In how many threads a part is read, while two others follow the one before: together as many as most
/// machines have processors.
const READERS: usize = 2;

/// How many bytes a part has, up to the end of a line behind them. To follow so many takes far longer
/// than to start the threads for it.
const PART: usize = 1_048_576;

/// Entries that are kept, and worlds that followed them.
#[derive(Drop)]
struct Followed<W, K> {
    kept: K,
    worlds: Worlds<W>,
}

/// What was followed, and the entries of the part behind it.
#[derive(Drop)]
struct Intake<E, W, K> {
    followed: Followed<W, K>,
    part: Vec<E>,
}

/// The first part of a text that is longer than one, and what is behind it.
fn first_part(text: &[u8]) -> Option<(&[u8], &[u8])>
    ensures { IfSome result (λ cut. IsCut text.now cut.0.now cut.1.now) }
{
    if text.len() <= PART {
        return None;
    }
    cut_behind(text, PART)
}

/// Has the worlds follow the part too, and keeps it.
fn follow_part<R: Threads + Sync, E: Send + Sync + Drop, S: EntryJudge<E> + Send>(
    rt: &R,
    alloc: Global,
    intake: Intake<E, S::World, S::Kept>,
) -> Result<Followed<S::World, S::Kept>, TextFault>
    requires { HasFollowed S.keeps S.follows intake.followed (S.keeps intake.followed.kept) }
    ensures { IsFollowed (HasFollowed S.keeps S.follows) S.is_legal (entries_in S.keeps intake) result }
{
    let Intake { followed, part } = intake;
    let Followed { mut kept, worlds } = followed;
    let worlds = follow_both::<R, E, S>(rt, alloc, worlds, part.as_slice())?;
    S::keep(alloc, &mut kept, part)?;
    Ok(Followed { kept, worlds })
}

/// Has the part followed and kept, and reads the next one meanwhile.
fn take_in<
    R: Threads + Sync,
    E: Send + Sync + Drop,
    T: KeptText<E> + Send,
    S: EntryJudge<E> + Send,
>(
    rt: &R,
    alloc: Global,
    intake: Intake<E, S::World, S::Kept>,
    text: &[u8],
) -> Result<Intake<E, S::World, S::Kept>, TextFault>
    requires { HasFollowed S.keeps S.follows intake.followed (S.keeps intake.followed.kept) }
    ensures { IsNext T.lines T.is_entry S.is_legal S.keeps S.follows (entries_in S.keeps intake) (packed text.now) result }
{
    let follow = move || -> Result<Followed<S::World, S::Kept>, TextFault>
        requires { HasFollowed S.keeps S.follows intake.followed (S.keeps intake.followed.kept) }
        ensures { IsFollowed (HasFollowed S.keeps S.follows) S.is_legal (entries_in S.keeps intake) result }
    { follow_part::<R, E, S>(rt, alloc, intake) };
    let read_next = move || -> Result<Vec<E>, TextFault>
        ensures { IsRead T.lines T.is_entry (packed text.entry.now) (λ v. v.items) result }
    { read_lines::<R, E, T>(rt, alloc, text, READERS) };
    let (after, more) = join(rt, follow, read_next);
    let followed = after?;
    let part = more?;
    Ok(Intake { followed, part })
}

/// Takes in all of a text, and follows it.
pub(crate) fn take_in_all<
    R: Threads + Sync,
    E: Send + Sync + Drop,
    T: KeptText<E> + Send,
    S: EntryJudge<E> + Send,
>(rt: &R, alloc: Global, text: &[u8]) -> Result<S::Journal, TextFault>
    ensures { IsTakenIn T.lines T.is_entry S.is_legal S.entries (packed text.now) result }
{
    T::text_law();
    let worlds = Worlds {
        first: S::begin(alloc),
        second: S::begin(alloc),
    };
    let kept = S::none(alloc);
    let mut intake = Intake {
        followed: Followed { kept, worlds },
        part: Vec::new(alloc),
    };
    let mut rest = text;
    while let Some((part, behind)) = first_part(rest) {
        intake = take_in::<R, E, T, S>(rt, alloc, intake, part)?;
        rest = behind;
    }
    let intake = take_in::<R, E, T, S>(rt, alloc, intake, rest)?;
    judge::<R, E, S>(rt, alloc, intake)
}

/// The journal of what was read, once its last part is followed.
fn judge<R: Threads + Sync, E: Send + Sync + Drop, S: EntryJudge<E> + Send>(
    rt: &R,
    alloc: Global,
    intake: Intake<E, S::World, S::Kept>,
) -> Result<S::Journal, TextFault>
    requires { HasFollowed S.keeps S.follows intake.followed (S.keeps intake.followed.kept) }
    ensures { IsJudged S.entries S.is_legal (entries_in S.keeps intake) result }
{
    let followed = follow_part::<R, E, S>(rt, alloc, intake)?;
    let Followed { kept, worlds } = followed;
    Ok(S::journal_of(kept, worlds.first, worlds.second))
}
