//! Sessions that plan and commit by turns: as events of the map on one thread, and by the plain
//! program, which judges each command anew when it is committed.
ghost use Rattle.std.specs.Prelude.{◌≡◌, ◌<◌, IfOk};
ghost use Rattle.map_machine.specs.Machine.{map_rules};
ghost use Rattle.hub_core.specs.Journal.{IsJournal};

use crate::desks::{Sender, message_of};
use crate::faults::Fault;
use crate::plain::PlainDesk;
use api_desk::{Request, request_of};
use desk_parts::RequestFault;
use http_link::Reply;
use hub_core::{Done, Event, Path, Run, Seen, interleave};
use journal_text::journal_text;
use map_machine::{Asked, MapMachine, journals_are_the_maps};
use osm_base::{Key, Kind, Memory, Steps};
use osm_model::{Entry, Query};
use plain_model::Journal;
use std::alloc::Global;
use std::io;
use std::marker::Brand;
use std::sync::ledger::{Blank, Ledger};
use upload_check::Look;

/// How many sessions a meeting has.
const SESSIONS: u32 = 4;

/// A request whose command a session planned.
#[derive(Drop)]
struct Sent {
    session: u32,
    bytes: Vec<u8>,
}

/// What sessions do, in order, and what the plain program answers each commit.
#[derive(Drop)]
pub struct Meeting {
    events: Vec<Event<Asked, Query>>,
    sent: Vec<Sent>,
    journal: Journal,
    replies: Vec<Reply>,
}

impl Meeting {
    pub fn new(alloc: Global) -> Meeting {
        Meeting {
            events: Vec::new(alloc),
            sent: Vec::new(alloc),
            journal: Journal::new(alloc),
            replies: Vec::new(alloc),
        }
    }

    fn add(&mut self, event: Event<Asked, Query>) -> Result<(), Fault> {
        match self.events.push(event) {
            Ok(()) => Ok(()),
            Err(_) => Err(Fault::Memory),
        }
    }

    /// A session plans the command of a request.
    pub fn plan(
        &mut self,
        plain: &PlainDesk<'_>,
        session: u32,
        bytes: Vec<u8>,
    ) -> Result<(), Fault> {
        let command = command_in(plain, bytes.as_slice())?;
        match self.sent.push(Sent { session, bytes }) {
            Ok(()) => self.add(Event::Plan { session, command }),
            Err(_) => Err(Fault::Memory),
        }
    }

    /// A session commits its plan. The plain program does the session's last request.
    pub fn commit(&mut self, plain: &PlainDesk<'_>, sender: Sender) -> Result<(), Fault> {
        let Sender { session, moment } = sender;
        let reply = self.reply(plain, sender)?;
        match self.replies.push(reply) {
            Ok(()) => self.add(Event::Commit { session, moment }),
            Err(_) => Err(Fault::Memory),
        }
    }

    fn reply(&mut self, plain: &PlainDesk<'_>, sender: Sender) -> Result<Reply, Fault> {
        let found = self
            .sent
            .iter()
            .rev()
            .find(|sent| sent.session == sender.session);
        let Some(sent) = found else {
            return Err(Fault::Line);
        };
        let message = message_of(plain.alloc, sent.bytes.as_slice())?;
        Ok(plain.answer(&mut self.journal, sender, &message)?)
    }

    /// The journal is published.
    pub fn publish(&mut self) -> Result<(), Fault> {
        self.add(Event::Publish)
    }
}

/// The command that bytes ask for.
fn command_in(plain: &PlainDesk<'_>, bytes: &[u8]) -> Result<Asked, Fault> {
    let message = message_of(plain.alloc, bytes)?;
    match request_of(plain.alloc, &message, plain.routes, plain.users) {
        Ok(Request::Change(asked)) => Ok(asked),
        Ok(Request::Read(_) | Request::Feed(_)) => Err(Fault::Line),
        Err(RequestFault::Refused(_)) => Err(Fault::Line),
        Err(RequestFault::Memory) => Err(Fault::Memory),
    }
}

/// How many commits went which way.
#[derive(Clone, Copy)]
struct Tally {
    fast: u64,
    counts: u64,
    users: u64,
    /// Those that made no entry.
    refused: u64,
}

impl Tally {
    const NONE: Tally = Tally {
        fast: 0,
        counts: 0,
        users: 0,
        refused: 0,
    };

    fn add(&mut self, done: &Done<Look>) {
        let way = match done.path {
            Path::Fast => &mut self.fast,
            Path::Slow(Look::Count { .. }) => &mut self.counts,
            Path::Slow(Look::Users { .. }) => &mut self.users,
        };
        *way = way.saturating_add(1);
        self.refused = self.refused.saturating_add(u64::from(done.place.is_none()));
    }

    fn tell<R: Print>(&self, rt: &R) -> io::Result<()> {
        let Tally {
            fast,
            counts,
            users,
            refused,
        } = *self;
        println!(rt; "  {fast} fast, {counts} slow by a count, {users} by users; {refused} refused")
    }
}

fn kind_name(kind: Kind) -> &'static str {
    match kind {
        Kind::Node => "node",
        Kind::Way => "way",
        Kind::Relation => "relation",
    }
}

fn tell_look<R: Print>(rt: &R, look: &Look) -> io::Result<()> {
    match look {
        Look::Count {
            key: Key { kind, id },
            planned,
            found,
        } => println!(rt;
            "    slow: {} {id} had {planned} versions, has {found}",
            kind_name(*kind)
        ),
        Look::Users { key, user } => println!(rt;
            "    slow: {} {} has or had the user {} {}",
            kind_name(key.kind),
            key.id,
            kind_name(user.kind),
            user.id
        ),
    }
}

fn tell_path<R: Print>(rt: &R, path: &Path<Look>) -> io::Result<()> {
    match path {
        Path::Fast => println!(rt; "    fast"),
        Path::Slow(look) => tell_look(rt, look),
    }
}

/// An answer begins with its status, high byte first.
fn tell_answer<R: Print>(rt: &R, answer: &[u8]) -> io::Result<()> {
    match answer {
        [high, low, body @ ..] => {
            let status = u16::from_be_bytes([*high, *low]);
            println!(rt; "  {status} {}", str::from_utf8(body).unwrap_or("no text"))
        }
        _ => println!(rt; "  no answer"),
    }
}

fn tell_done<R: Print>(rt: &R, done: &Done<Look>) -> io::Result<()> {
    tell_answer(rt, done.answer.as_slice())?;
    tell_path(rt, &done.path)?;
    match done.place {
        Some(place) => println!(rt; "    entry {place}"),
        None => println!(rt; "    no entry"),
    }
}

/// Whether a commit was answered so. Its answer begins with the status, high byte first.
fn is_answered(done: &Done<Look>, reply: &Reply) -> bool {
    match done.answer.as_slice() {
        [high, low, body @ ..] => {
            u16::from_be_bytes([*high, *low]) == reply.status && body == reply.body.as_slice()
        }
        _ => false,
    }
}

/// Goes through the commits, in their order, and gives whether each was answered as by the plain
/// program.
fn go_through<R: Print>(
    rt: &R,
    seen: &[Seen<Look>],
    replies: &[Reply],
    is_told: bool,
) -> io::Result<bool> {
    let mut tally = Tally::NONE;
    let mut wanted = replies.iter();
    let mut are_same = true;
    for seen in seen {
        let Seen::Committed(done) = seen else {
            continue;
        };
        tally.add(done);
        are_same &= wanted.next().is_some_and(|reply| is_answered(done, reply));
        if is_told {
            tell_done(rt, done)?;
        }
    }
    if !is_told {
        tally.tell(rt)?;
    }
    Ok(are_same && wanted.next().is_none())
}

/// Whether the run's journal has the same entries as the plain program's. The text of a journal tells
/// all of it, and what the machine kept is a legal journal of the map.
fn are_same_entries(alloc: Global, run: &[Entry], journal: &Journal) -> Result<bool, Memory>
    requires kept { IsJournal map_rules run.now }
{
    journals_are_the_maps();
    let quick = journal_text(alloc, run)?;
    let slow = journal_text(alloc, journal.entries())?;
    Ok(slow.as_slice() == quick.as_slice())
}

fn play<L: Ledger>(
    alloc: Global,
    events: Vec<Event<Asked, Query>>,
    blank: Blank,
) -> Result<Run<Entry, Look>, Memory>
    requires name { blank.name ≡ L.name }
    requires parts { blank.parts ≡ L.parts }
    requires some { 0 < blank.parts }
    ensures kept { IfOk result (λ run. IsJournal map_rules run.journal.items) }
{
    let (ledger, share) = blank.open::<L>();
    let mut steps = Steps::of(ledger, share);
    interleave::<MapMachine, L>(alloc, SESSIONS, events, &mut steps)
}

fn play_on_brand(
    alloc: Global,
    events: Vec<Event<Asked, Query>>,
) -> Result<Run<Entry, Look>, Memory>
    ensures kept { IfOk result (λ run. IsJournal map_rules run.journal.items) }
{
    play::<Brand>(alloc, events, Blank::new(1))
}

/// Plays a meeting, and tells what each commit gave: its answer, the path, and the place of its entry;
/// or else how many commits went which way. What the plain program gave otherwise is the result.
pub fn meet<R: Print>(
    rt: &R,
    alloc: Global,
    meeting: Meeting,
    is_told: bool,
) -> Result<Option<&'static str>, Fault> {
    let Meeting {
        events,
        sent: _,
        journal,
        replies,
    } = meeting;
    let run = play_on_brand(alloc, events)?;
    if !go_through(rt, run.replies.as_slice(), replies.as_slice(), is_told)? {
        return Ok(Some("a commit's answer"));
    }
    if are_same_entries(alloc, run.journal.as_slice(), &journal)? {
        Ok(None)
    } else {
        Ok(Some("the journals of the meeting"))
    }
}
