//! A generated load, and what is told of it.
use history_store::Store;
use osm_base::{Coord, Memory};
use row_lines::Tally;
use std::alloc::Global;
use user_table::{UserTable, UsersFault, Who};
use workload::{Figures, Load, Run, figures_of, replay_summary, requests, summary, users_text};

const CREATION: &[u8] =
    b"PUT /api/0.6/changeset/create HTTP/1.1\r\nAuthorization: Bearer t1\r\n\r\n";

fn the_first_request_creates_a_changeset(alloc: Global) -> Result<bool, Memory> {
    let mut load = Load::new(1, 3, 1_000);
    match load.next_request(alloc)? {
        Some(first) => Ok(first.bytes.as_slice() == CREATION && load.len() == 1_002),
        None => Ok(false),
    }
}

const FIRST_UPLOAD: &[u8] = b"POST /api/0.6/changeset/1/upload HTTP/1.1\r\n\
    Authorization: Bearer t1\r\nContent-Length: 673\r\n\r\n{\"osmChange\":[{\"create\":[\
    {\"type\":\"node\",\"id\":-1,\"lat7\":480100271,\"lon7\":110469695},\
    {\"type\":\"node\",\"id\":-2,\"lat7\":480546438,\"lon7\":110507620},\
    {\"type\":\"node\",\"id\":-3,\"lat7\":480877665,\"lon7\":110082249},\
    {\"type\":\"node\",\"id\":-4,\"lat7\":480423381,\"lon7\":110995417},\
    {\"type\":\"node\",\"id\":-5,\"lat7\":480345398,\"lon7\":110793480},\
    {\"type\":\"node\",\"id\":-6,\"lat7\":480397185,\"lon7\":110604259},\
    {\"type\":\"node\",\"id\":-7,\"lat7\":480293493,\"lon7\":110932794},\
    {\"type\":\"node\",\"id\":-8,\"lat7\":480097553,\"lon7\":110707148},\
    {\"type\":\"node\",\"id\":-9,\"lat7\":480088266,\"lon7\":110947275},\
    {\"type\":\"node\",\"id\":-10,\"lat7\":480329271,\"lon7\":110151398},\
    {\"type\":\"way\",\"id\":-1,\"nodes\":[-1,-2,-3,-4,-5,-6,-7,-8,-9,-10]}]}]}";

fn the_first_upload_of_seed_1(alloc: Global) -> Result<bool, Memory> {
    let sent = requests(alloc, 1, 1, 1)?;
    match sent.get(1) {
        Some(upload) => Ok(upload.bytes.as_slice() == FIRST_UPLOAD),
        None => Ok(false),
    }
}

fn the_last_user_is_known(alloc: Global) -> Result<bool, Memory> {
    let text = users_text(alloc, 64)?;
    match UserTable::read(alloc, text.as_slice()) {
        Ok(table) => Ok(
            table.who(Some(b"Bearer t64")) == Who::Known(63)
                && table.who(Some(b"Bearer t65")) == Who::Unknown,
        ),
        Err(UsersFault::Memory) => Err(Memory),
        Err(_) => Ok(false),
    }
}

fn nothing_is_replayed(alloc: Global) -> Result<bool, Memory> {
    let figures = figures_of(&Store::new(alloc), 0);
    let text = replay_summary(alloc, &figures)?;
    let expected = "entries 0\nnodes 0\nways 0\nrelations 0\nfirst none\n";
    Ok(text.as_str() == expected)
}

const RUN: Run = Run {
    seed: 1,
    sessions: 3,
    uploads: 1_000,
    replies: 1_003,
    refused: 0,
};

fn a_run_of_a_thousand_uploads(alloc: Global) -> Result<bool, Memory> {
    let figures = Figures {
        entries: 1_003,
        nodes: 10_000,
        ways: 1_000,
        relations: 0,
        first: Coord::new(480_100_271, 110_469_695),
    };
    let text = summary(alloc, &RUN, &figures)?;
    let expected = "seed 1\nsessions 3\nuploads 1000\nentries 1003\nnodes 10000\nways 1000\n\
        relations 0\nreplies 1003\nrefused 0\nfirst 480100271 110469695\n";
    Ok(text.as_str() == expected)
}

pub fn play<R: Print>(rt: &R, alloc: Global, tally: &mut Tally) {
    tally.note(
        rt,
        "the first request creates a changeset",
        the_first_request_creates_a_changeset(alloc),
    );
    tally.note(
        rt,
        "the first upload of seed 1",
        the_first_upload_of_seed_1(alloc),
    );
    tally.note(rt, "the last user is known", the_last_user_is_known(alloc));
    tally.note(rt, "nothing is replayed", nothing_is_replayed(alloc));
    tally.note(
        rt,
        "a run of a thousand uploads",
        a_run_of_a_thousand_uploads(alloc),
    );
}
