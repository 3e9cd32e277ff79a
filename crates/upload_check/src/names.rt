//! Elements as an upload names them.
ghost use Rattle.std.specs.Prelude.{◌≡◌};
ghost use Rattle.osm_change.specs.Names.{said};
ghost use Rattle.osm_model.specs.Names.{of_kind, said_key};
ghost use Rattle.upload_check.specs.Checks.{task_of, named_in, known};

use crate::sights::View;
use osm_base::{Key, Kind};
use osm_change::{Name, Referent, Said, said_made};

fn of_kind(kind: Kind, key: Key) -> Option<Key>
    ensures { result ≡ of_kind kind key }
{
    if key.kind.is(kind) { Some(key) } else { None }
}

impl<'a> View<'a> {
    /// The element that is named: one with a history before the upload, or one of an earlier
    /// operation.
    pub fn known(&self, kind: Kind, name: Name) -> Option<Key>
        ensures { result ≡ known self.now kind name }
    {
        match name.referent() {
            Referent::Old(id) => {
                let key = Key { kind, id };
                if self.world.store().count(key) == 0 {
                    None
                } else {
                    Some(key)
                }
            }
            Referent::New(place) => match self.over.keys().get(place as usize) {
                Some(key) => of_kind(kind, *key),
                None => None,
            },
        }
    }

    /// An element as the client named it.
    pub fn said(&self, name: Name) -> Said
        ensures { result ≡ said self.now.operations name }
    {
        name.said(self.operations)
    }

    /// An element as the client would name it: by its id where it was there before the upload, and
    /// else by the placeholder of its creation.
    pub fn said_key(&self, key: Key) -> Said
        ensures { result ≡ said_key (task_of self.now) (named_in self.now) key }
    {
        if self.world.store().count(key) == 0 {
            said_made(self.operations, self.over.keys(), key)
        } else {
            Said::Id(key.id)
        }
    }
}
