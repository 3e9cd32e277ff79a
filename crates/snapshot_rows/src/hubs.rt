//! Hubs of the small machine, and what their sessions do there.
ghost use Rattle.std.specs.Prelude.{◌≡◌, ◌<◌, false};

use crate::listing::{Lack, Listing, Noted, Wish};
use crate::tells::{Given, given_of};
use osm_base::{Memory, Steps};
use osm_outside::NoGate;
use shared_front::HubName;
use snapshot_hub::{Hub, Session, Shown};
use std::marker::Brand;
use std::sync::Wait;
use std::sync::ledger::{Blank, Ledger};

pub type ListHub<N, R> = Hub<N, Listing, Shown<N, Listing>, NoGate, R>;

pub type ListSession<N> = Session<N, Listing, Shown<N, Listing>>;

/// Commits a number by a session that owes nothing.
pub fn add<N: HubName, R: Wait + Drop, W: Wait, L: Ledger>(
    rt: &W,
    hub: &ListHub<N, R>,
    session: &mut ListSession<N>,
    wish: Wish,
    steps: &mut Steps<L>,
) -> Result<Given, Memory> {
    if session.owes() {
        return Err(Memory);
    }
    let plan = session.plan(hub.gate(), wish, steps)?;
    Ok(given_of(&hub.commit(rt, session, plan, 0, steps)?))
}

/// Plans a wish by a session, has another session add its own, and commits the plan then.
pub fn cross<N: HubName, R: Wait + Drop, W: Wait, L: Ledger>(
    rt: &W,
    hub: &ListHub<N, R>,
    session: &mut ListSession<N>,
    other: &mut ListSession<N>,
    wish: Wish,
    others: Wish,
    steps: &mut Steps<L>,
) -> Result<(Given, Given), Memory> {
    if session.owes() {
        return Err(Memory);
    }
    let plan = session.plan(hub.gate(), wish, steps)?;
    let first = add(rt, hub, other, others, steps)?;
    let second = given_of(&hub.commit(rt, session, plan, 0, steps)?);
    Ok((first, second))
}

/// The wish for a number that finds its memory.
pub fn plain(number: u64) -> Wish {
    Wish {
        number,
        lack: Lack::Nothing,
    }
}

/// The number at a place, for a session that owes nothing.
pub fn at<N: HubName, R: Wait + Drop, L: Ledger>(
    _hub: &ListHub<N, R>,
    session: &mut ListSession<N>,
    place: u64,
    steps: &mut Steps<L>,
) -> Result<Option<u8>, Memory> {
    if session.owes() {
        return Err(Memory);
    }
    let bytes = session.ask(&place, 0, steps)?;
    Ok(bytes.as_slice().first().copied())
}

/// Adds the numbers from 0 on by a new session, so many, and answers whether it owed after none.
fn add_all<N: HubName, R: Wait + Drop, W: Wait, L: Ledger>(
    rt: &W,
    hub: &ListHub<N, R>,
    session: &mut ListSession<N>,
    count: u64,
    blank: Blank,
) -> Result<bool, Memory>
    requires name { blank.name ≡ L.name }
    requires parts { blank.parts ≡ L.parts }
    requires some { 0 < blank.parts }
{
    let (book, share) = blank.open::<L>();
    let mut steps = Steps::of(book, share);
    for number in 0..count {
        add(rt, hub, session, plain(number), &mut steps)?;
    }
    Ok(session.calls() == count && session.debts() == 0)
}

/// The same, with the ledger picked.
pub fn add_many<N: HubName, R: Wait + Drop, W: Wait>(
    rt: &W,
    hub: &ListHub<N, R>,
    session: &mut ListSession<N>,
    count: u64,
) -> Result<bool, Memory> {
    add_all::<N, R, W, Brand>(rt, hub, session, count, Blank::new(1))
}
