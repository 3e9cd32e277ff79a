//! Requests of a session of a hub, answered once it owes nothing: each call is one row.
ghost use Rattle.std.specs.Prelude.{◌≡◌, ◌⊎◌, ◌++◌, OnOk, OnErr, IfOk, IfSome};
ghost use Rattle.session_desk.specs.Rows.Request.{Does, Reads};
ghost use Rattle.session_desk.specs.Steps.{told, Answers};
ghost use Rattle.session_desk.specs.Answered.{IsFresh, IsSettled};

use crate::calls::{answer_command, answer_query};
use machine_law::Machine;
use osm_base::{Bytes, Memory, Steps};
use osm_outside::Gate;
use shared_front::{FoundFront, Front, HubName};
use snapshot_hub::{Hub, Session, Snapshot};
use std::sync::Wait;
use std::sync::ledger::Ledger;

/// Publishes what the session owes, if it owes a commit.
#[tactic(auto, using(crate::proofs::Settled::settled_of, crate::proofs::Settled::rested))]
fn settle_first<N: HubName, M: Machine, S: Snapshot<N, M>, G: Gate + Drop, R: Wait + Drop, W: Wait>(
    rt: &W,
    hub: &Hub<N, M, S, G, R>,
    session: &mut Session<N, M, S>,
) -> Result<(), Memory>
    ensures ok { OnOk result (IsSettled session.old session.new) }
    ensures err { OnErr result (session.new ≡ session.old) }
{
    if session.owes() {
        let _found = hub.freshen(rt, session)?;
    }
    Ok(())
}

/// Publishes the journal that is found under the lock, and lets the session see it. That journal comes
/// back, told where its end is.
#[tactic(auto, using(crate::proofs::Settled::fresh_of))]
pub fn freshen<N: HubName, M: Machine, S: Snapshot<N, M>, G: Gate + Drop, R: Wait + Drop, W: Wait>(
    rt: &W,
    hub: &Hub<N, M, S, G, R>,
    session: &mut Session<N, M, S>,
) -> Result<FoundFront<N, M::Entry>, Memory>
    ensures found { IfOk result (λ found. found ≡ session.new.front) }
    ensures ok { OnOk result (IsFresh M.rules session.old session.new) }
    ensures err { OnErr result (session.new ≡ session.old) }
{
    hub.freshen(rt, session)
}

/// Freshens the session, and copies the entries of its front behind this beginning of the journal.
/// `None` where the session has seen less than this front, which no run has shown.
pub fn behind<N: HubName, M: Machine, S: Snapshot<N, M>, G: Gate + Drop, R: Wait + Drop, W: Wait>(
    rt: &W,
    hub: &Hub<N, M, S, G, R>,
    session: &mut Session<N, M, S>,
    front: &Front<N, M::Entry>,
) -> Result<Option<Vec<M::Entry>>, Memory>
    ensures part { IfOk result (λ copied. IfSome copied (λ part. session.new.front ≡ front.now ++ part.items)) }
    ensures session { (session.new ≡ session.old) ⊎ IsFresh M.rules session.old session.new }
{
    let part = hub.part(rt, session, front.len(), u64::MAX)?;
    let _seen = session.seen();
    if front.begins(session.front()) {
        Ok(Some(part))
    } else {
        Ok(None)
    }
}

/// Plans a command and commits it, once the session owes nothing.
pub fn command_bytes<
    N: HubName,
    M: Machine,
    S: Snapshot<N, M>,
    G: Gate + Drop,
    R: Wait + Drop,
    W: Wait,
    L: Ledger,
>(
    rt: &W,
    hub: &Hub<N, M, S, G, R>,
    session: &mut Session<N, M, S>,
    command: M::Command,
    moment: u64,
    steps: &mut Steps<L>,
) -> Result<Bytes, Memory>
    ensures { Answers M.rules session.old (Does command) moment (told result) session.new }
{
    match settle_first(rt, hub, session) {
        Ok(()) => answer_command(rt, hub, session, command, moment, steps),
        Err(memory) => Err(memory),
    }
}

/// Asks a query, once the session owes nothing.
pub fn query_bytes<
    N: HubName,
    M: Machine,
    S: Snapshot<N, M>,
    G: Gate + Drop,
    R: Wait + Drop,
    W: Wait,
    L: Ledger,
>(
    rt: &W,
    hub: &Hub<N, M, S, G, R>,
    session: &mut Session<N, M, S>,
    query: &M::Query,
    moment: u64,
    steps: &mut Steps<L>,
) -> Result<Bytes, Memory>
    ensures { Answers M.rules session.old (Reads query.now) moment (told result) session.new }
{
    match settle_first(rt, hub, session) {
        Ok(()) => answer_query(session, query, moment, steps),
        Err(memory) => Err(memory),
    }
}
