//! Uploads as they are asked for, and their plans.
//!
//! A plan owns what is asked for (`UploadCmd`), since it outlives the request, and the entry has it
//! once it is accepted, as a second plan of it has: nothing of an upload is copied.
//! Whoever follows a journal asks `accepts_upload`, which is lent the change and keeps no plan.
use osm_base::{Box7, Items, User};
use osm_change::{Change, OpDones, Refusal};
use osm_later::{CountLook, UsersLook};
use std::marker::Model;

/// An upload to a changeset, or a single change, as a user asks for it.
#[derive(Drop)]
pub struct UploadCmd {
    pub user: User,
    pub changeset: u64,
    pub change: Change,
    pub single: bool,
}

impl Model for UploadCmd {
    ghost use Rattle.upload_check.specs.Asked.{AskedUpload, IsAsked};

    ghost Value = { AskedUpload };

    ghost view = { λ c. record { user = c.user; changeset = c.changeset; change = c.change; single = c.single } };

    ghost invariant = { λ c. IsAsked (record { user = c.user; changeset = c.changeset; change = c.change; single = c.single }) };
}

/// What the operations of an upload did and the least box of what they touched, or why one is refused.
#[derive(Drop)]
pub enum Found {
    Done {
        rows: OpDones,
        touched: Option<Box7>,
    },
    Refused(Refusal),
}

/// An upload with what was found out about it on some world: what its operations came to there, and
/// all that this depends on. Elements that it creates have no ids yet.
#[derive(Drop)]
pub struct Plan {
    pub(crate) cmd: UploadCmd,
    pub(crate) counts: Items<CountLook>,
    pub(crate) users: Items<UsersLook>,
    pub(crate) found: Found,
}

impl Model for Plan {
    ghost use Rattle.upload_check.specs.Planned.{Planned, outcome_of, IsKept};

    ghost Value = { Planned };

    ghost view = { λ p. record { asked = p.cmd; counts = p.counts; users = p.users; outcome = outcome_of p.found } };

    ghost invariant = { λ p. IsKept (record { asked = p.cmd; counts = p.counts; users = p.users; outcome = outcome_of p.found }) };
}

impl Plan {
    ghost use Rattle.std.specs.Prelude.{◌≡◌};
    ghost use Rattle.upload_check.specs.Asked.{IsAsked};
    ghost use Rattle.upload_check.specs.Planned.{IsKept};

    /// The upload that is planned.
    pub fn cmd(&self) -> &UploadCmd
        ensures value { result.now ≡ self.now.asked }
        ensures one { IsAsked self.now.asked }
    {
        let _ = &self.cmd.changeset;
        &self.cmd
    }

    /// What every plan has.
    pub(crate) fn laws(&self)
        ensures { IsKept self.now }
    {
        let _ = &self.cmd;
    }
}
