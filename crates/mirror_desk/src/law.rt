//! Laws on whole links.
ghost use Rattle.std.specs.Prelude.{◌≡◌, List};
ghost use mathlib.Core.List.{IsPrefix};
ghost use Rattle.osm_model.specs.Journal.{IsLegal};
ghost use Rattle.osm_model.specs.declared.commands.Entry.{Entry};
ghost use Rattle.http_link.specs.Exchange.{Exchange, Chain};
ghost use Rattle.replication_feed.specs.Piece.{IsFeed};
ghost use Rattle.mirror_desk.specs.Desk.{AtMirror, Allows, MirrorHasServed};
ghost use Rattle.mirror_desk.specs.Feeds.{PostsOf, FollowsJournal, ReachesPiece};
ghost use Rattle.mirror_desk.specs.declared.setting.MirrorSetting.{MirrorSetting};

use journal_follower::feeds_are_followed;
use replication_feed::{pieces_replay, texts_tell_pieces};

/// Whatever exchanges a desk goes through, each is answered by the mirror's rules on the entries that
/// the ones before it left.
pub fn mirror_serves()
    ensures { (old : AtMirror) (exchanges : List Exchange) (new : AtMirror) → Chain Allows old exchanges new
        → (new.setting ≡ old.setting) × MirrorHasServed old.setting old.entries exchanges new.entries }
{}

/// A mirror on whose link pieces of one legal journal are posted, and no piece of another one, has a
/// beginning of that journal at last, if it had one at first. Pieces may be lost, come again and come
/// in any order, and whatever else is asked between them.
pub fn links_follow_journals()
    ensures keeps { (setting : MirrorSetting) (journal old : List Entry) (exchanges : List Exchange) (new : List Entry) → IsLegal journal → IsFeed journal
        → IsPrefix old journal → PostsOf setting.users journal exchanges → MirrorHasServed setting old exchanges new
        → FollowsJournal setting.users journal old exchanges new }
    ensures reaches { (setting : MirrorSetting) (journal old : List Entry) (exchanges : List Exchange) (new : List Entry) → IsLegal journal → IsFeed journal
        → MirrorHasServed setting old exchanges new → ReachesPiece setting.users journal old exchanges new }
{
    feeds_are_followed();
    pieces_replay();
    texts_tell_pieces();
}
