//! The requests of a load, one at a time or all of them.
ghost use Rattle.std.specs.Prelude.{◌≡◌, ◌+◌, ◌++◌, ◌<◌, ◌≤◌, IfOk, OnOk, length};
ghost use Rattle.osm_base.specs.declared.limits.TheConstants.{SESSION_LIMIT};
ghost use Rattle.workload.specs.Request.{creation, upload, upload_head, requests};
ghost use Rattle.workload.specs.Numbers.{number_after};
ghost use Rattle.workload.specs.Left.{Gives};

use crate::bodies::{BODY_LENGTH, put_body};
use crate::pieces::{put, put_with_number};
use crate::sent::Sent;
use osm_base::{Bytes, Memory, SESSION_LIMIT};
use std::alloc::Global;
use std::marker::Model;

/// How many bytes a creation has beside the digits of its user.
const CREATION_ROOM: usize = 67;

/// How many bytes an upload has before its body, beside the digits of its user and its changeset.
const HEAD_ROOM: usize = 90;

fn digit_count(number: u32) -> usize
    ensures { result ≤ 2 }
{
    if number < 10 { 1 } else { 2 }
}

#[tactic(auto, unfolding(crate::specs::Request::creation_bytes))]
fn creation(alloc: Global, session: u32) -> Result<Sent, Memory>
    requires { session < SESSION_LIMIT }
    ensures { IfOk result (λ sent. sent ≡ creation session) }
{
    let user = session + 1;
    let mut bytes = Vec::with_capacity(alloc, CREATION_ROOM + digit_count(user))?;
    put_with_number(
        &mut bytes,
        b"PUT /api/0.6/changeset/create HTTP/1.1\r\nAuthorization: Bearer t",
        user,
    )?;
    put(&mut bytes, b"\r\n\r\n")?;
    Ok(Sent {
        session,
        bytes: Bytes::from_vec(bytes),
    })
}

/// The changeset of a session has the number of its user.
fn put_upload_head(bytes: &mut Vec<u8>, user: u32) -> Result<(), Memory>
    ensures { OnOk result (bytes.new.items ≡ bytes.old.items ++ upload_head user user BODY_LENGTH) }
{
    put_with_number(bytes, b"POST /api/0.6/changeset/", user)?;
    put_with_number(bytes, b"/upload HTTP/1.1\r\nAuthorization: Bearer t", user)?;
    put_with_number(bytes, b"\r\nContent-Length: ", BODY_LENGTH)?;
    put(bytes, b"\r\n\r\n")
}

/// The upload of a session after a number, and the number of its last node.
fn upload(alloc: Global, session: u32, number: u64) -> Result<(Sent, u64), Memory>
    requires { session < SESSION_LIMIT }
    ensures sent { IfOk result (λ made. made.0 ≡ upload session number) }
    ensures last { IfOk result (λ made. made.1 ≡ number_after 10 number) }
{
    let user = session + 1;
    let room = HEAD_ROOM + 2 * digit_count(user) + BODY_LENGTH as usize;
    let mut bytes = Vec::with_capacity(alloc, room)?;
    put_upload_head(&mut bytes, user)?;
    let last = put_body(&mut bytes, number)?;
    let sent = Sent {
        session,
        bytes: Bytes::from_vec(bytes),
    };
    Ok((sent, last))
}

/// The requests of a load that are still to be sent, made one at a time. Contracts see it as their
/// list.
#[derive(Drop)]
pub struct Load {
    sessions: u32,
    uploads: u32,
    created: u32,
    sent: u32,
    number: u64,
}

impl Model for Load {
    ghost use Rattle.std.specs.Prelude.{List};
    ghost use Rattle.workload.specs.declared.sent.Sent.{Sent};
    ghost use Rattle.workload.specs.Left.{left_after, IsUnderway};

    ghost Value = { List Sent };

    ghost view = { λ load. left_after load.sessions load.uploads load.created load.sent load.number };

    ghost invariant = { λ load. IsUnderway load.sessions load.uploads load.created load.sent };
}

impl Load {
    /// The load of a seed: each session creates a changeset, and then the sessions send the
    /// uploads in turn, each to its own.
    pub fn new(seed: u64, sessions: u32, uploads: u32) -> Load
        requires some { 0 < sessions }
        requires few { sessions ≤ SESSION_LIMIT }
        ensures { result ≡ requests seed sessions uploads }
    {
        Load {
            sessions,
            uploads,
            created: 0,
            sent: 0,
            number: seed,
        }
    }

    /// How many requests are left.
    pub fn len(&self) -> usize
        ensures { result ≡ length self.now }
    {
        (self.sessions - self.created) as usize + (self.uploads - self.sent) as usize
    }

    /// The next request, or none at the end. `Memory` leaves the load as it was.
    pub fn next_request(&mut self, alloc: Global) -> Result<Option<Sent>, Memory>
        ensures { Gives self.old self.new result }
    {
        if self.created < self.sessions {
            let sent = creation(alloc, self.created)?;
            self.created += 1;
            return Ok(Some(sent));
        }
        if self.sent < self.uploads {
            let (sent, last) = upload(alloc, self.sent % self.sessions, self.number)?;
            self.sent += 1;
            self.number = last;
            return Ok(Some(sent));
        }
        Ok(None)
    }
}

/// All requests of a load. The bytes of an upload are some 770, so a long load is better asked for
/// its requests one at a time.
pub fn requests(alloc: Global, seed: u64, sessions: u32, uploads: u32) -> Result<Vec<Sent>, Memory>
    requires some { 0 < sessions }
    requires few { sessions ≤ SESSION_LIMIT }
    ensures { IfOk result (λ made. made.items ≡ requests seed sessions uploads) }
{
    let mut load = Load::new(seed, sessions, uploads);
    let mut made = Vec::with_capacity(alloc, load.len())?;
    while let Some(sent) = load.next_request(alloc)? {
        made.push(sent)?;
    }
    Ok(made)
}
