//! A change of one operation.
//!
//! A single change is built against the changeset that its body names, so no single change is
//! refused for another changeset.
ghost use Rattle.std.specs.Prelude.{◌≡◌, ◌↔◌, length, IsOk, MatchResult};

use crate::changes::Change;
use osm_base::{Memory, TryCopy};
use std::alloc::Global;
use std::marker::Model;

/// A change with one operation.
#[derive(Drop)]
pub struct OneOp {
    change: Change,
}

impl Model for OneOp {
    ghost use Rattle.std.specs.Prelude.{◌≡◌, List, length};
    ghost use Rattle.osm_change.specs.declared.operations.Op.{Op};

    ghost Value = { List Op };

    ghost view = { λ one. one.change };

    ghost invariant = { λ one. length one.change ≡ 1 };
}

impl OneOp {
    /// Hands the change back where it hasn't one operation. It takes no memory.
    pub fn of(change: Change) -> Result<OneOp, Change>
        ensures one { IsOk result ↔ (length change ≡ 1) }
        ensures value { MatchResult result (λ one. one ≡ change) (λ back. back ≡ change) }
    {
        if change.len() == 1 {
            Ok(OneOp { change })
        } else {
            Err(change)
        }
    }

    /// The change, of one operation.
    pub fn change(&self) -> &Change
        ensures value { result.now ≡ self.now }
        ensures one { length self.now ≡ 1 }
    {
        &self.change
    }

    /// The change itself, without a copy.
    pub fn into_change(self) -> Change
        ensures value { result ≡ self }
        ensures one { length self ≡ 1 }
    {
        self.change
    }
}

impl TryCopy for OneOp {
    fn copy(&self, alloc: Global) -> Result<OneOp, Memory> {
        let change = self.change.copy(alloc)?;
        Ok(OneOp { change })
    }
}
