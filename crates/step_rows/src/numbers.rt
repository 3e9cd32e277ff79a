//! A list of numbers that answers messages.
ghost use Rattle.std.specs.Prelude.{◌≡◌, []};

use http_link::Reply;
use http_wire::Message;
use osm_base::{Bytes, Memory};
use std::alloc::Global;
use step_hub::Stepped;

/// The numbers from 1 on: a POST adds the next one. Each reply is how many there are then.
#[derive(Drop)]
pub struct Numbers {
    items: Vec<u64>,
}

impl Numbers {
    pub fn new(alloc: Global) -> Numbers
        ensures { result.items.items ≡ [] }
    {
        Numbers {
            items: Vec::new(alloc),
        }
    }
}

/// The last three digits of a number.
pub fn digits_of(number: u64) -> [u8; 3] {
    [
        b'0' + (number / 100 % 10) as u8,
        b'0' + (number / 10 % 10) as u8,
        b'0' + (number % 10) as u8,
    ]
}

impl Stepped for Numbers {
    ghost use Rattle.std.specs.Prelude.{⊤};

    type Entry = u64;

    type Setting = bool;

    ghost list = { λ numbers. numbers.items.items };

    ghost legal = { λ _. ⊤ };

    ghost steps = { λ _ _ _ _ _ _. ⊤ };

    fn len(&self) -> usize {
        self.items.len()
    }

    fn entry(&self, _alloc: Global, place: usize) -> Result<u64, Memory> {
        Ok(self.items[place])
    }

    #[tactic(auto, using(std::proofs::lemmas::List::drop_min, std::proofs::lemmas::List::take_min))]
    fn part(&self, alloc: Global, from: u64, count: u64) -> Result<Vec<u64>, Memory> {
        let rest = &self.items[(from as usize).min(self.items.len())..];
        Ok(rest[..(count as usize).min(rest.len())].to_vec(alloc)?)
    }

    fn last(&self) -> Option<&u64> {
        self.items.last()
    }

    /// Where the setting says so, each POST is answered by want of memory.
    fn answer(
        &mut self,
        alloc: Global,
        setting: &bool,
        message: &Message,
        _moment: u64,
    ) -> Result<Reply, Memory> {
        let count = self.items.len() as u64;
        if message.method.as_slice() != b"POST".as_slice() {
            return Ok(Reply {
                status: 200,
                body: Bytes::of(alloc, &digits_of(count))?,
            });
        }
        if *setting {
            return Err(Memory);
        }
        let next = count.saturating_add(1);
        let body = Bytes::of(alloc, &digits_of(next))?;
        self.items.push(next)?;
        Ok(Reply { status: 200, body })
    }

    ghost memory_leaves = { λ _ _ _ _ _. tt };
}
