//! Desks that answer one digit.
ghost use Rattle.std.specs.Prelude.{IfOk};
ghost use Rattle.osm_base.specs.Status.{IsStatus};

use http_link::{Desk, Reply, Withheld};
use http_wire::Message;
use osm_base::{Bytes, Memory};
use osm_outside::Witness;
use std::alloc::Global;

/// The last digit of a number.
fn digit(alloc: Global, number: u64) -> Result<Reply, Memory>
    ensures { IfOk result (λ reply. IsStatus reply.status) }
{
    let digit = [b'0' + (number % 10) as u8];
    Ok(Reply {
        status: 200,
        body: Bytes::of(alloc, &digit)?,
    })
}

/// Answers the length of the body.
#[derive(Drop)]
pub struct LengthDesk;

impl Desk for LengthDesk {
    ghost use Rattle.std.specs.Prelude.{⊤, []};

    ghost allows = { λ _ _ _ _ _. ⊤ };

    ghost tells = { λ _. ⊤ };

    ghost shows = { λ _. [] };

    ghost withholds = { λ _ _. ⊥ };

    fn answer(&mut self, alloc: Global, message: Message, _moment: u64) -> Result<Reply, Memory> {
        digit(alloc, message.body.as_slice().len() as u64)
    }

    fn may_tell<L: Witness>(&mut self, _link: &mut L) -> Result<(), Withheld> {
        Ok(())
    }
}

/// Answers the moment.
#[derive(Drop)]
pub struct MomentDesk;

impl Desk for MomentDesk {
    ghost use Rattle.std.specs.Prelude.{⊤, []};

    ghost allows = { λ _ _ _ _ _. ⊤ };

    ghost tells = { λ _. ⊤ };

    ghost shows = { λ _. [] };

    ghost withholds = { λ _ _. ⊥ };

    fn answer(&mut self, alloc: Global, _message: Message, moment: u64) -> Result<Reply, Memory> {
        digit(alloc, moment)
    }

    fn may_tell<L: Witness>(&mut self, _link: &mut L) -> Result<(), Withheld> {
        Ok(())
    }
}
