//! The tables of the server, and the lists that they are made of.
mod changesets;
mod lists;
mod parameters;
mod placeholders;
mod redactions;
mod references;
mod stamps;
mod stores;
mod tiles;
mod tokens;

use row_lines::Tally;
use std::alloc::Global;

pub fn play<R: Print>(rt: &R, alloc: Global, tally: &mut Tally) {
    lists::play(rt, alloc, tally);
    tokens::play(rt, alloc, tally);
    tiles::play(rt, alloc, tally);
    parameters::play(rt, alloc, tally);
    stamps::play(rt, alloc, tally);
    tally.note(
        rt,
        "a placeholder binds once",
        placeholders::a_placeholder_binds_once(alloc),
    );
    play_users(rt, alloc, tally);
    tally.note(
        rt,
        "a version stands in the room that was made for it",
        stores::a_version_stands_in_its_room(alloc),
    );
    tally.note(
        rt,
        "a changeset counts what it did",
        changesets::a_changeset_counts_what_it_did(alloc),
    );
    tally.note(
        rt,
        "a redaction that was made is known",
        redactions::a_redaction_that_was_made_is_known(alloc),
    );
}

fn play_users<R: Print>(rt: &R, alloc: Global, tally: &mut Tally) {
    tally.note(
        rt,
        "users are in the order of keys",
        references::users_are_in_the_order_of_keys(alloc),
    );
    tally.note(
        rt,
        "the only user of an element leaves and comes back",
        references::the_only_user_leaves_and_comes_back(alloc),
    );
    tally.note(
        rt,
        "users of an element leave and come back",
        references::users_leave_and_come_back(alloc),
    );
    tally.note(
        rt,
        "a user that left is known and needs no room",
        references::a_user_that_left_needs_no_room(alloc),
    );
}
