//! What sessions were told.
use http_link::Reply;
use osm_base::Bytes;
use row_lines::{RowFault, add_marked, add_numbered, add_request, add_written_out};
use std::alloc::Global;

/// A request, its reply, and where in the journal it was answered.
#[derive(Drop)]
pub struct Told {
    pub session: u32,
    /// Twice the number of entries that there were then, and one less for a command that was accepted
    /// as the last of them.
    pub place: u64,
    pub bytes: Bytes,
    pub reply: Reply,
    /// Whether it is what must come, where the row says so.
    pub is_wanted: bool,
}

/// Whether a reply is the one that must come: `STATUS`, or `STATUS BODY`.
pub fn is_wanted(reply: &Reply, wanted: Option<&str>) -> bool {
    let Some(wanted) = wanted else {
        return true;
    };
    let (status, body) = wanted.split_once(' ').unwrap_or((wanted, ""));
    let is_status = status
        .parse::<u16>()
        .is_ok_and(|status| status == reply.status);
    is_status && (body.is_empty() || body.as_bytes() == reply.body.as_slice())
}

/// How many entries the feed has, by the reply to a call for its state.
fn feed_length(reply: &Reply) -> Option<u64> {
    let text = str::from_utf8(reply.body.as_slice()).unwrap_or("");
    let rest = text.strip_prefix("{\"sequenceNumber\":")?;
    let (length, _) = rest.split_once(',')?;
    length.parse::<u64>().ok()
}

/// How many entries there were where a session was answered that saw so many before, and sees so many
/// now. It may see more by now than the state of the feed that it was told.
pub fn point_of(reply: &Reply, before: u64, after: u64) -> u64 {
    match feed_length(reply) {
        Some(length) if before <= length => length.min(after),
        _ => after,
    }
}

/// The notes of a thread.
#[derive(Drop)]
pub struct Notes {
    /// The number of its first session.
    pub first: u64,
    /// The last changeset that each of its sessions created.
    pub changesets: Vec<u64>,
    pub told: Vec<Told>,
    /// How often a session owed a commit behind a reply.
    pub owed: u64,
}

impl Notes {
    pub fn new(alloc: Global, first: u64, sessions: usize) -> Result<Notes, RowFault> {
        let mut changesets = Vec::new(alloc);
        for _ in 0..sessions {
            changesets.push(0)?;
        }
        Ok(Notes {
            first,
            changesets,
            told: Vec::new(alloc),
            owed: 0,
        })
    }

    /// The changeset of the session at that place among the thread's.
    fn changeset(&self, place: usize) -> u64 {
        self.changesets.get(place).copied().unwrap_or(0)
    }

    /// Notes what a session was told, and the changeset where it created one.
    pub fn add(&mut self, place: usize, request: &str, told: Told) -> Result<(), RowFault> {
        if request.ends_with("changeset/create") {
            let number = str::from_utf8(told.reply.body.as_slice()).unwrap_or("");
            if let (Some(known), Ok(number)) = (
                self.changesets.get_mut(place),
                number.parse::<u64>(),
            ) {
                *known = number;
            }
        }
        self.told.push(told)?;
        Ok(())
    }

    /// Adds the bytes of a request: a repetition is written out, `#` is how often it was sent, and
    /// `%` the changeset of the session at that place.
    pub fn add_bytes(
        &self,
        alloc: Global,
        bytes: &mut Vec<u8>,
        place: usize,
        request: &str,
        number: u64,
    ) -> Result<(), RowFault> {
        let mut whole = String::new(alloc);
        add_written_out(&mut whole, request)?;
        let mut numbered = String::new(alloc);
        add_numbered(&mut numbered, whole.as_str(), number)?;
        let mut named = String::new(alloc);
        add_marked(&mut named, numbered.as_str(), '%', self.changeset(place))?;
        add_request(bytes, &[], named.as_str())
    }
}
