//! Requests of a session, answered by a hub: each call is one row.
ghost use Rattle.std.specs.Prelude.{◌≡◌, false};
ghost use Rattle.session_desk.specs.Rows.Request.{Does, Reads};
ghost use Rattle.session_desk.specs.Steps.{told, Answers};

use machine_law::Machine;
use osm_base::{Bytes, Memory, Steps};
use osm_outside::Gate;
use shared_front::HubName;
use snapshot_hub::{Hub, Session, Snapshot};
use std::sync::Wait;
use std::sync::ledger::Ledger;

/// Plans a command and commits it, for a session that owes nothing.
pub fn answer_command<
    N: HubName,
    M: Machine,
    S: Snapshot<N, M>,
    G: Gate + Drop,
    R: Wait + Drop,
    W: Wait,
    L: Ledger,
>(
    rt: &W,
    hub: &Hub<N, M, S, G, R>,
    session: &mut Session<N, M, S>,
    command: M::Command,
    moment: u64,
    steps: &mut Steps<L>,
) -> Result<Bytes, Memory>
    requires settled { session.old.owes ≡ false }
    ensures { Answers M.rules session.old (Does command) moment (told result) session.new }
{
    match session.plan(hub.gate(), command, steps) {
        Ok(plan) => match hub.commit(rt, session, plan, moment, steps) {
            Ok(done) => Ok(done.answer),
            Err(memory) => Err(memory),
        },
        Err(memory) => Err(memory),
    }
}

/// Asks a query, for a session that owes nothing.
pub fn answer_query<N: HubName, M: Machine, S: Snapshot<N, M>, L: Ledger>(
    session: &mut Session<N, M, S>,
    query: &M::Query,
    moment: u64,
    steps: &mut Steps<L>,
) -> Result<Bytes, Memory>
    requires settled { session.old.owes ≡ false }
    ensures { Answers M.rules session.old (Reads query.now) moment (told result) session.new }
{
    match session.ask(query, moment, steps) {
        Ok(bytes) => Ok(bytes),
        Err(memory) => Err(memory),
    }
}
