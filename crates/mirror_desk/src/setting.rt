//! What all desks of a mirror have in common.
ghost use Rattle.std.specs.Prelude.{◌≡◌};
ghost use Rattle.mirror_desk.specs.Setting.{setting_of};

use user_table::UserTable;

/// The users, and how the mirror was begun.
#[derive(Drop)]
pub struct MirrorSetting {
    pub users: UserTable,
    /// Whether reads are answered only while the mirror is known to be level.
    pub only_level: bool,
}

impl MirrorSetting {
    /// Of a mirror with these users, and with a limit to how long it counts as level, in seconds, or none.
    pub fn of(users: UserTable, until_level: Option<u32>) -> MirrorSetting
        ensures { result ≡ setting_of until_level users }
    {
        MirrorSetting {
            users,
            only_level: until_level.is_some(),
        }
    }
}
