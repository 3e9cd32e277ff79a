//! Uses of elements that begin and end with a version.
ghost use Rattle.std.specs.Prelude.{◌≡◌, false, ◌+◌, ◌<◌, ◌≤◌, ◌&&◌, ◌||◌, not, length, if◌then◌else◌, option_map, option_and_then};
ghost use Rattle.std.specs.List.{list_any};
ghost use Rattle.osm_base.specs.Key.{key_eq, lists_key, insert_key, without_key, IsRising};
ghost use Rattle.osm_base.specs.declared.keys.Key.{Key};
ghost use Rattle.osm_element.specs.Elements.{key, key_of_member, refs, refs_in, content_of, version_in};
ghost use Rattle.osm_element.specs.Held.{held_content};
ghost use Rattle.reverse_refs.specs.Users.{users_in, past_in, knows, free_in};
ghost use Rattle.indexed_map.specs.Indexed.{times_unknown};

use history_store::Store;
use osm_base::{Key, Kind, is_listed};
use osm_element::{Held, Member, Version};
use reverse_refs::{Pair, UserIndex};

/// An element no longer uses another, unless that is still listed. It stays among those that did.
fn end_use(users: &mut UserIndex, user: Key, used: Key, listed: &[Key])
    requires { IsRising listed.now }
    ensures users { (a b : Key)
        → lists_key (users_in users.new b) a
        ≡ lists_key (users_in users.old b) a && not (key_eq used b && (key_eq user a && not (lists_key listed.now b))) }
    ensures past { (a b : Key)
        → lists_key (past_in users.new b) a
        ≡ lists_key (past_in users.old b) a || (lists_key (users_in users.old b) a && (key_eq used b && (key_eq user a && not (lists_key listed.now b)))) }
    ensures room { (b : Key) → free_in users.new b ≡ free_in users.old b }
{
    let pair = Pair { user, used };
    if !is_listed(listed, used) && users.has(pair) {
        users.leave(pair);
    }
}

fn end_node_uses(users: &mut UserIndex, user: Key, nodes: &[u64], listed: &[Key])
    requires { IsRising listed.now }
    ensures users { (a b : Key) → lists_key (users_in users.new b) a ≡ lists_key (users_in users.old b) a && not (list_any
        (λ id. key_eq (key Kind.Node id) b) nodes.now && (key_eq user a && not (lists_key listed.now b))) }
    ensures past { (a b : Key) → lists_key (past_in users.new b) a ≡ lists_key (past_in users.old b) a || (lists_key (users_in users.old b) a && (list_any
        (λ id. key_eq (key Kind.Node id) b) nodes.now && (key_eq user a && not (lists_key listed.now b)))) }
    ensures room { (b : Key) → free_in users.new b ≡ free_in users.old b }
{
    for id in nodes {
        let used = Key {
            kind: Kind::Node,
            id: *id,
        };
        end_use(users, user, used, listed);
    }
}

fn end_member_uses(users: &mut UserIndex, user: Key, members: &[Member<u64>], listed: &[Key])
    requires { IsRising listed.now }
    ensures users { (a b : Key) → lists_key (users_in users.new b) a ≡ lists_key (users_in users.old b) a && not (list_any
        (λ m. key_eq (key_of_member m) b) members.now && (key_eq user a && not (lists_key listed.now b))) }
    ensures past { (a b : Key) → lists_key (past_in users.new b) a ≡ lists_key (past_in users.old b) a || (lists_key (users_in users.old b) a && (list_any
        (λ m. key_eq (key_of_member m) b) members.now && (key_eq user a && not (lists_key listed.now b)))) }
    ensures room { (b : Key) → free_in users.new b ≡ free_in users.old b }
{
    for member in members {
        end_use(users, user, member.key(), listed);
    }
}

/// An element no longer uses what its content lists, unless that is still listed.
#[tactic(auto, using(osm_element::proofs::Listed::lists_node_mapped, osm_element::proofs::Listed::lists_member_mapped))]
fn end_uses_in(users: &mut UserIndex, user: Key, content: &Held<'_>, listed: &[Key])
    requires { IsRising listed.now }
    ensures users { (a b : Key)
        → lists_key (users_in users.new b) a
        ≡ lists_key (users_in users.old b) a
        && not (lists_key (refs (held_content content.now)) b && (key_eq user a && not (lists_key listed.now b))) }
    ensures past { (a b : Key)
        → lists_key (past_in users.new b) a
        ≡ lists_key (past_in users.old b) a
        || (lists_key (users_in users.old b) a && (lists_key (refs (held_content content.now)) b && (key_eq user a && not (lists_key listed.now b)))) }
    ensures room { (b : Key) → free_in users.new b ≡ free_in users.old b }
{
    match content {
        Held::Node(_) => {}
        Held::Way(nodes) => end_node_uses(users, user, nodes, listed),
        Held::Relation(members) => end_member_uses(users, user, members, listed),
    }
}

/// An element no longer uses what it held, if it was visible, unless that is still listed.
pub fn end_uses(users: &mut UserIndex, user: Key, held: &Option<Held<'_>>, listed: &[Key])
    requires { IsRising listed.now }
    ensures users { (a b : Key)
        → lists_key (users_in users.new b) a
        ≡ lists_key (users_in users.old b) a
        && not (lists_key (refs_in (option_map held_content held.now)) b && (key_eq user a && not (lists_key listed.now b))) }
    ensures past { (a b : Key)
        → lists_key (past_in users.new b) a
        ≡ lists_key (past_in users.old b) a
        || (lists_key (users_in users.old b) a && (lists_key (refs_in (option_map held_content held.now)) b && (key_eq user a && not (lists_key listed.now b)))) }
    ensures room { (b : Key) → free_in users.new b ≡ free_in users.old b }
{
    if let Some(content) = held {
        end_uses_in(users, user, content, listed);
    }
}

/// What the last of some versions holds, where it isn't a deletion.
pub fn held_last(versions: &[Version]) -> Option<Held<'_>>
    ensures { option_map held_content result ≡ option_and_then (λ v. v.content) (version_in versions.now (length versions.now)) }
{
    match versions.last() {
        Some(version) => version.content(),
        None => None,
    }
}

/// What an element holds, where it is visible.
pub fn current_content(store: &Store, key: Key) -> Option<Held<'_>>
    ensures { option_map held_content result ≡ content_of store.now.elements key }
{
    held_last(store.history(key))
}

/// One that doesn't use an element comes to use it: again, as one that left it does without room, or
/// for the first time.
fn come(users: &mut UserIndex, pair: Pair)
    requires absent { lists_key (users_in users.old pair.used) pair.user ≡ false }
    requires room { lists_key (past_in users.old pair.used) pair.user ≡ false → 0 < free_in users.old pair.used }
    ensures users { (b : Key)
        → users_in users.new b ≡ (if key_eq b pair.used then insert_key (users_in users.old b) pair.user else users_in users.old b) }
    ensures past { (b : Key)
        → past_in users.new b ≡ (if key_eq b pair.used then without_key (past_in users.old b) pair.user else past_in users.old b) }
    ensures spent { (b : Key)
        → free_in users.new b + (if key_eq b pair.used && not (lists_key (past_in users.old b) pair.user) then 1 else 0) ≡ free_in users.old b }
{
    if users.had(pair) {
        users.come_back(pair);
    } else {
        users.add(pair);
    }
}

/// An element uses another, which may be itself or used already.
fn begin_use(users: &mut UserIndex, user: Key, used: Key)
    requires { knows users.old used user ≡ false → 0 < free_in users.old used }
    ensures users { (a b : Key)
        → lists_key (users_in users.new b) a ≡ (key_eq used b && (key_eq user a && not (key_eq user b))) || lists_key (users_in users.old b) a }
    ensures past { (a b : Key)
        → lists_key (past_in users.new b) a ≡ lists_key (past_in users.old b) a && not (key_eq used b && (key_eq user a && not (key_eq user b))) }
    ensures spent { (b : Key) → free_in users.new b + (if key_eq used b && (not (key_eq user b) && not (knows users.old b user)) then 1 else 0)
        ≡ free_in users.old b }
{
    let pair = Pair { user, used };
    if !user.is(used) && !users.has(pair) {
        come(users, pair);
    }
}

/// An element uses what is listed, itself left out. Room is spent on what it didn't use before.
pub fn begin_uses(users: &mut UserIndex, user: Key, listed: &[Key])
    requires { (b : Key) → times_unknown users.old user listed.now b ≤ free_in users.old b }
    ensures users { (a b : Key)
        → lists_key (users_in users.new b) a
        ≡ (lists_key listed.now b && (key_eq user a && not (key_eq user b))) || lists_key (users_in users.old b) a }
    ensures past { (a b : Key)
        → lists_key (past_in users.new b) a
        ≡ lists_key (past_in users.old b) a && not (lists_key listed.now b && (key_eq user a && not (key_eq user b))) }
    ensures spent { (b : Key) → free_in users.new b + (if lists_key listed.now b && (not (key_eq user b) && not (knows users.old b user))
        then 1 else 0) ≡ free_in users.old b }
{
    for used in listed {
        begin_use(users, user, *used);
    }
}
