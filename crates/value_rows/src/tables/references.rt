//! The users of an element, now and before, under promised room.
use osm_base::{Key, Kind, Memory};
use reverse_refs::{Pair, UserIndex};
use std::alloc::Global;

fn node(id: u64) -> Key {
    Key {
        kind: Kind::Node,
        id,
    }
}

fn way(id: u64) -> Key {
    Key {
        kind: Kind::Way,
        id,
    }
}

fn relation(id: u64) -> Key {
    Key {
        kind: Kind::Relation,
        id,
    }
}

fn are_in_order(alloc: Global, index: &mut UserIndex) -> Result<bool, Memory> {
    let by_relation = Pair {
        user: relation(1),
        used: node(5),
    };
    let by_way = Pair {
        user: way(7),
        used: node(5),
    };
    index.room(alloc, &[by_relation, by_way])?;
    if index.has(by_relation) {
        return Ok(false);
    }
    index.add(by_relation);
    if index.has(by_way) {
        return Ok(false);
    }
    index.add(by_way);
    let are_both = index.users(node(5)).items() == [way(7), relation(1)].as_slice();
    if !index.has(by_way) {
        return Ok(false);
    }
    index.leave(by_way);
    Ok(
        are_both
            && index.users(node(5)).items() == [relation(1)].as_slice()
            && index.users(way(5)).items().is_empty(),
    )
}

pub fn users_are_in_the_order_of_keys(alloc: Global) -> Result<bool, Memory> {
    let mut index = UserIndex::new(alloc);
    are_in_order(alloc, &mut index)
}

fn by_way(id: u64) -> Pair {
    Pair {
        user: way(id),
        used: node(5),
    }
}

/// A user comes, for which room is made. Whether it wasn't one.
fn come(alloc: Global, index: &mut UserIndex, pair: Pair) -> Result<bool, Memory> {
    index.room(alloc, &[pair])?;
    if index.has(pair) {
        return Ok(false);
    }
    index.add(pair);
    Ok(true)
}

/// A user leaves. Whether it was one.
fn go(index: &mut UserIndex, pair: Pair) -> bool {
    if !index.has(pair) {
        return false;
    }
    index.leave(pair);
    true
}

/// Whether these are the users of node 5 now, and those that left it.
fn stand(index: &UserIndex, users: &[Key], past: &[Key]) -> bool {
    index.users(node(5)).items() == users && index.past(node(5)).items() == past
}

fn one_leaves(alloc: Global, index: &mut UserIndex) -> Result<bool, Memory> {
    let has_come = come(alloc, index, by_way(7))? && stand(index, &[way(7)], &[]);
    let has_left = go(index, by_way(7)) && stand(index, &[], &[way(7)]);
    Ok(has_come && has_left && !go(index, by_way(7)))
}

fn one_comes_back(alloc: Global, index: &mut UserIndex) -> Result<bool, Memory> {
    let is_back = come(alloc, index, by_way(7))? && stand(index, &[way(7)], &[]);
    index.forget(node(5));
    Ok(is_back && stand(index, &[way(7)], &[]))
}

pub fn the_only_user_leaves_and_comes_back(alloc: Global) -> Result<bool, Memory> {
    let mut index = UserIndex::new(alloc);
    Ok(one_leaves(alloc, &mut index)? && one_comes_back(alloc, &mut index)?)
}

/// One that left comes back, for which no room is made. Whether it had left.
fn come_back(index: &mut UserIndex, pair: Pair) -> bool {
    if !index.had(pair) {
        return false;
    }
    index.come_back(pair);
    true
}

/// Whether way 7 is known to node 5, and way 9 isn't.
fn knows_the_first(index: &UserIndex) -> bool {
    index.knows(by_way(7)) && !index.knows(by_way(9))
}

fn one_is_known(alloc: Global, index: &mut UserIndex) -> Result<bool, Memory> {
    let is_new = !index.knows(by_way(7)) && come(alloc, index, by_way(7))?;
    let is_known = knows_the_first(index) && go(index, by_way(7)) && knows_the_first(index);
    let is_back = come_back(index, by_way(7)) && stand(index, &[way(7)], &[]);
    Ok(is_new && is_known && is_back && !come_back(index, by_way(7)))
}

pub fn a_user_that_left_needs_no_room(alloc: Global) -> Result<bool, Memory> {
    let mut index = UserIndex::new(alloc);
    one_is_known(alloc, &mut index)
}

fn three_come(alloc: Global, index: &mut UserIndex) -> Result<bool, Memory> {
    let have_come = come(alloc, index, by_way(9))?
        && come(alloc, index, by_way(2))?
        && come(alloc, index, by_way(7))?;
    Ok(have_come && stand(index, &[way(2), way(7), way(9)], &[]))
}

fn they_leave_in_turn(index: &mut UserIndex) -> bool {
    let first = go(index, by_way(7)) && stand(index, &[way(2), way(9)], &[way(7)]);
    let second = go(index, by_way(2)) && stand(index, &[way(9)], &[way(2), way(7)]);
    let third = go(index, by_way(9)) && stand(index, &[], &[way(2), way(7), way(9)]);
    first && second && third
}

fn another_comes(alloc: Global, index: &mut UserIndex) -> Result<bool, Memory> {
    let is_back = come(alloc, index, by_way(7))? && stand(index, &[way(7)], &[way(2), way(9)]);
    let is_new = come(alloc, index, by_way(4))?
        && stand(index, &[way(4), way(7)], &[way(2), way(9)]);
    index.forget(node(5));
    Ok(is_back && is_new && stand(index, &[way(4), way(7)], &[way(2), way(9)]))
}

pub fn users_leave_and_come_back(alloc: Global) -> Result<bool, Memory> {
    let mut index = UserIndex::new(alloc);
    Ok(
        three_come(alloc, &mut index)?
            && they_leave_in_turn(&mut index)
            && another_comes(alloc, &mut index)?,
    )
}
