//! A generated load as events of the map on one thread.
ghost use Rattle.std.specs.Prelude.{◌≡◌, ◌<◌, ◌≤◌};

use api_desk::{LoadFault, events};
use hub_core::{Done, Path, Run, Seen, interleave};
use map_machine::MapMachine;
use osm_base::{Coord, SESSION_LIMIT, Steps};
use osm_change::Op;
use osm_element::Content;
use osm_model::{Command, Entry};
use std::alloc::Global;
use std::io;
use std::marker::Brand;
use std::sync::ledger::{Blank, Ledger};
use upload_check::Look;

const SEED: u64 = 1;

/// How many nodes and ways were created, and where the first node stands.
#[derive(Clone, Copy)]
struct Created {
    nodes: u64,
    ways: u64,
    first: Option<Coord>,
}

impl Created {
    /// What the uploads of a journal create.
    fn by(journal: &[Entry]) -> Created {
        let mut created = Created {
            nodes: 0,
            ways: 0,
            first: None,
        };
        for entry in journal {
            created.add_entry(entry);
        }
        created
    }

    fn add_entry(&mut self, entry: &Entry) {
        if let Command::Upload { change, .. } = &entry.command {
            for op in change.operations() {
                self.add(op);
            }
        }
    }

    fn add(&mut self, op: &Op) {
        let Op::Create { content, .. } = op else {
            return;
        };
        match content {
            Content::Node(at) => {
                self.nodes = self.nodes.saturating_add(1);
                self.first = self.first.or(Some(*at));
            }
            Content::Way(_) => self.ways = self.ways.saturating_add(1),
            Content::Relation(_) => {}
        }
    }
}

/// What was found of replies.
#[derive(Clone, Copy)]
struct Tally {
    idle: u64,
    /// The commits that were accepted at once.
    accepted: u64,
    /// Whether they go round: a plan, a commit, and the publication, which is idle.
    by_turns: bool,
}

impl Tally {
    fn of(replies: &[Seen<Look>]) -> Tally {
        let mut tally = Tally {
            idle: 0,
            accepted: 0,
            by_turns: true,
        };
        for (place, seen) in replies.iter().enumerate() {
            tally.add(place, seen);
        }
        tally
    }

    fn add(&mut self, place: usize, seen: &Seen<Look>) {
        let turn = place % 3;
        self.by_turns &= match seen {
            Seen::Planned => turn == 0,
            Seen::Committed(_) => turn == 1,
            Seen::Idle => turn == 2,
            Seen::Answered(_) => false,
        };
        self.idle = self.idle.saturating_add(u64::from(is_idle(seen)));
        self.accepted = self.accepted.saturating_add(u64::from(is_accepted(seen)));
    }
}

fn is_idle(seen: &Seen<Look>) -> bool {
    matches!(seen, Seen::Idle)
}

/// Whether it is a commit with an entry, on a plan that stood, that was answered 200.
fn is_accepted(seen: &Seen<Look>) -> bool {
    match seen {
        Seen::Committed(done) => stood(done) && done.place.is_some() && says_200(done),
        _ => false,
    }
}

fn stood(done: &Done<Look>) -> bool {
    matches!(done.path, Path::Fast)
}

/// An answer begins with its status, high byte first.
fn says_200(done: &Done<Look>) -> bool {
    done.answer.as_slice().starts_with(&[0, 200])
}

fn play<L: Ledger>(
    alloc: Global,
    sessions: u32,
    uploads: u32,
    blank: Blank,
) -> Result<Run<Entry, Look>, LoadFault>
    requires some_session { 0 < sessions }
    requires few { sessions ≤ 64 }
    requires name { blank.name ≡ L.name }
    requires parts { blank.parts ≡ L.parts }
    requires some { 0 < blank.parts }
{
    let (ledger, share) = blank.open::<L>();
    let mut steps = Steps::of(ledger, share);
    let events = events(alloc, SEED, sessions, uploads)?;
    Ok(interleave::<MapMachine, L>(alloc, sessions, events, &mut steps)?)
}

fn tell_replies<R: Print>(rt: &R, run: &Run<Entry, Look>) -> io::Result<()> {
    let tally = Tally::of(run.replies.as_slice());
    let turns = if tally.by_turns {
        "each third"
    } else {
        "not each third"
    };
    println!(rt; "entries {}", run.journal.len())?;
    println!(rt; "replies {}", run.replies.len())?;
    println!(rt; "idle {}, {turns}", tally.idle)?;
    println!(rt; "accepted {}", tally.accepted)
}

fn tell_created<R: Print>(rt: &R, created: Created) -> io::Result<()> {
    println!(rt; "nodes {}", created.nodes)?;
    println!(rt; "ways {}", created.ways)?;
    match created.first {
        Some(at) => println!(rt; "first {} {}", at.lat7(), at.lon7()),
        None => println!(rt; "first none"),
    }
}

fn tell_journal<R: Print>(rt: &R, journal: &[Entry]) -> io::Result<()> {
    tell_created(rt, Created::by(journal))?;
    match journal.last() {
        Some(last) => println!(rt; "last session {} call {}", last.session, last.call),
        None => println!(rt; "last none"),
    }
}

fn tell_run<R: Print>(rt: &R, run: &Run<Entry, Look>) -> io::Result<()> {
    tell_replies(rt, run)?;
    tell_journal(rt, run.journal.as_slice())
}

/// Plays a load of so many sessions and uploads, and tells what came of it.
pub fn tell_interleaved<R: Print>(rt: &R, alloc: Global, load: (u32, u32)) -> io::Result<()> {
    let (sessions, uploads) = load;
    if sessions == 0 || sessions > SESSION_LIMIT {
        return println!(rt; "no events: there are no {sessions} sessions");
    }
    match play::<Brand>(alloc, sessions, uploads, Blank::new(1)) {
        Ok(run) => tell_run(rt, &run),
        Err(fault) => println!(rt; "no events: {fault:?}"),
    }
}
