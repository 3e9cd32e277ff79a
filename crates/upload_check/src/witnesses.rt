//! Who sees an upload while its operations are judged: whoever plans it keeps all that it looks at,
//! whoever only tests it keeps a number.
ghost use Rattle.std.specs.Prelude.{◌≡◌, OnOk};
ghost use Rattle.osm_world.specs.World.{state_of};
ghost use Rattle.upload_check.specs.Seen.{Seen, with_looks, with_row, with_refusal};

use crate::counts::increased;
use crate::look_keys::{add_deleted, add_names, add_replaced, add_user};
use osm_base::{Key, Memory};
use osm_change::{Op, OpDone, Refusal};
use osm_world::World;
use std::alloc::Global;

/// Who sees what the operations of an upload look at, and what they do, in their order.
pub trait Witness {
    // What the witness may have seen.
    ghost saw: { Self → Seen → Type 0 };

    /// An operation is judged next.
    fn looks(&mut self, world: &World, operation: &Op) -> Result<(), Memory>
        ensures { OnOk result ((seen : Seen) → saw self.old seen → saw self.new (with_looks (state_of world.now).elements operation.now seen)) };

    /// It is passed.
    fn passes(&mut self, done: OpDone) -> Result<(), Memory>
        ensures { OnOk result ((seen : Seen) → saw self.old seen → saw self.new (with_row done seen)) };

    /// It is refused.
    fn refuses(&mut self, refusal: &Refusal) -> Result<(), Memory>
        ensures { OnOk result ((seen : Seen) → saw self.old seen → saw self.new (with_refusal refusal.now seen)) };
}

/// What each operation did, and the keys whose counts and whose users they look at.
#[derive(Drop)]
pub struct Looks {
    pub rows: Vec<OpDone>,
    pub counted: Vec<Key>,
    pub used: Vec<Key>,
}

impl Looks {
    ghost use Rattle.std.specs.Prelude.{[], IfOk};

    /// Of an upload of so many operations, none of which is judged.
    pub fn new(alloc: Global, operations: u32) -> Result<Looks, Memory>
        ensures rows { IfOk result (λ looks. looks.rows.items ≡ []) }
        ensures counted { IfOk result (λ looks. looks.counted.items ≡ []) }
        ensures used { IfOk result (λ looks. looks.used.items ≡ []) }
    {
        let rows = Vec::with_capacity(alloc, operations as usize)?;
        Ok(Looks {
            rows,
            counted: Vec::new(alloc),
            used: Vec::new(alloc),
        })
    }
}

impl Witness for Looks {
    ghost use Rattle.upload_check.specs.Seen.{seen_in};

    ghost saw = { λ looks seen. seen ≡ seen_in looks.rows.items looks.counted.items looks.used.items };

    fn looks(&mut self, world: &World, operation: &Op) -> Result<(), Memory> {
        add_names(operation, &mut self.counted)?;
        add_replaced(world, operation, &mut self.counted)?;
        add_deleted(operation, &mut self.used)
    }

    fn passes(&mut self, done: OpDone) -> Result<(), Memory> {
        self.rows.push(done)?;
        Ok(())
    }

    fn refuses(&mut self, refusal: &Refusal) -> Result<(), Memory> {
        add_user(refusal, &mut self.counted)
    }
}

/// How many operations made a version. It takes no memory.
#[derive(Drop)]
pub struct Tally {
    pub applied: u64,
}

impl Witness for Tally {
    ghost use Rattle.std.specs.Prelude.{count_by};
    ghost use Rattle.osm_change.specs.Done.{is_applied};

    ghost saw = { λ tally seen. tally.applied ≡ count_by is_applied seen.rows };

    fn looks(&mut self, _world: &World, _operation: &Op) -> Result<(), Memory> {
        Ok(())
    }

    fn passes(&mut self, done: OpDone) -> Result<(), Memory> {
        if done.is_applied() {
            self.applied = increased(self.applied)?;
        }
        Ok(())
    }

    fn refuses(&mut self, _refusal: &Refusal) -> Result<(), Memory> {
        Ok(())
    }
}
