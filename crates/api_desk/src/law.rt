//! A law on whole sessions.
ghost use Rattle.std.specs.Prelude.{List};
ghost use Rattle.http_link.specs.Exchange.{Exchange, Chain};
ghost use Rattle.api_desk.specs.declared.desk.OneDesk.{OneDesk};
ghost use Rattle.api_desk.specs.Desk.{Allows, HasServed};

/// Whatever exchanges a desk goes through, they are answered by the rules of the map and of the feed
/// at points of one journal that never go back.
pub fn desk_answers()
    ensures { (old : OneDesk) (exchanges : List Exchange) (new : OneDesk)
        → Chain Allows old exchanges new → HasServed old exchanges new }
{}
