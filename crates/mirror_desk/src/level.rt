//! Whether a mirror is known to be level with the server.
//!
//! It is by what moderators say: that it is, once whoever brings the pieces has brought all of them,
//! and then by each piece that is posted. Where nobody is heard for longer than the limit, as where
//! what brings the pieces is gone, it isn't known any more, and has to be said again.
ghost use Rattle.std.specs.Prelude.{◌≡◌};
ghost use Rattle.mirror_desk.specs.Level.{unsaid, is_level, heard_at, said_at};

use std::marker::Model;

/// When somebody who may post was heard, and whether it was said that the mirror is level. Moments
/// are seconds since 1970.
#[derive(Drop)]
pub struct Level {
    limit: Option<u32>,
    said: bool,
    heard: u64,
}

impl Model for Level {
    ghost use Rattle.mirror_desk.specs.Level.{AtLevel};

    ghost Value = { AtLevel };

    ghost view = { λ l. record { limit = l.limit; said = l.said; heard = l.heard } };
}

impl Level {
    /// Nothing was said. For so many seconds nobody who may post may be silent then; without a limit a
    /// mirror counts as level anyhow.
    pub fn new(limit: Option<u32>) -> Level
        ensures { result ≡ unsaid limit }
    {
        Level {
            limit,
            said: false,
            heard: 0,
        }
    }

    /// Whether the mirror counts as level at that moment.
    pub fn at(&self, moment: u64) -> bool
        ensures { result ≡ is_level self.now moment }
    {
        match self.limit {
            Some(limit) => self.said && moment.saturating_sub(self.heard) <= u64::from(limit),
            None => true,
        }
    }

    /// Somebody who may post was heard.
    pub fn hear(&mut self, moment: u64)
        ensures { self.new ≡ heard_at self.old moment }
    {
        self.said = self.at(moment);
        self.heard = moment;
    }

    /// It was said that the mirror is level.
    pub fn say(&mut self, moment: u64)
        ensures { self.new ≡ said_at self.old moment }
    {
        self.said = true;
        self.heard = moment;
    }
}
