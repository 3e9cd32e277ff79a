//! The law that a load's users text has a table.
ghost use Rattle.std.specs.Prelude.{◌≡◌, ℕ, ◌≤◌, Ok};
ghost use Rattle.osm_base.specs.declared.limits.TheConstants.{SESSION_LIMIT};
ghost use Rattle.user_table.specs.Users.{Users, table_of};
ghost use Rattle.workload.specs.Users.{users_text};

/// The users text of a load is a users text, so `UserTable::read` refuses it for want of memory
/// alone.
pub fn users_are_read()
    ensures { (sessions : ℕ) → sessions ≤ SESSION_LIMIT
        → (users : Users) × (table_of (users_text sessions) ≡ Ok users) }
{}
