//! The body of an upload.
ghost use Rattle.std.specs.Prelude.{◌≡◌, ◌≤◌, ◌++◌, OnOk, IfOk};
ghost use Rattle.workload.specs.Numbers.{number_after};
ghost use Rattle.workload.specs.Upload.{node_text, nodes_text, body};

use crate::numbers::{lat7_of, lon7_of, next_number};
use crate::pieces::{put, put_with_number};
use osm_base::Memory;

/// How many nodes an upload has. Its way goes over all of them.
const NODE_COUNT: u32 = 10;

/// How many bytes a body has: each position has nine digits in both parts.
pub const BODY_LENGTH: u32 = 673;

fn put_node(bytes: &mut Vec<u8>, id: u32, number: u64) -> Result<(), Memory>
    ensures { OnOk result (bytes.new.items ≡ bytes.old.items ++ node_text id number) }
{
    put_with_number(bytes, b"{\"type\":\"node\",\"id\":-", id)?;
    put_with_number(bytes, b",\"lat7\":", lat7_of(number))?;
    put_with_number(bytes, b",\"lon7\":", lon7_of(number))?;
    put(bytes, b"},")
}

/// Puts the nodes, and answers the number of the last one.
fn put_nodes(bytes: &mut Vec<u8>, number: u64) -> Result<u64, Memory>
    ensures nodes { OnOk result (bytes.new.items ≡ bytes.old.items ++ nodes_text 10 1 number) }
    ensures last { IfOk result (λ last. last ≡ number_after 10 number) }
{
    let mut number = number;
    for place in 0..NODE_COUNT {
        number = next_number(number);
        put_node(bytes, place + 1, number)?;
    }
    Ok(number)
}

/// Puts the body of the upload after a number, and answers the number of its last node.
pub fn put_body(bytes: &mut Vec<u8>, number: u64) -> Result<u64, Memory>
    ensures body { OnOk result (bytes.new.items ≡ bytes.old.items ++ body number) }
    ensures last { IfOk result (λ last. last ≡ number_after 10 number) }
{
    put(bytes, b"{\"osmChange\":[{\"create\":[")?;
    let last = put_nodes(bytes, number)?;
    put(
        bytes,
        b"{\"type\":\"way\",\"id\":-1,\"nodes\":[-1,-2,-3,-4,-5,-6,-7,-8,-9,-10]}]}]}",
    )?;
    Ok(last)
}
