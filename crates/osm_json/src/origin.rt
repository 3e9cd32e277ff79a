//! The part of a row from its moment to the name of its version.
ghost use Rattle.std.specs.Prelude.{◌≡◌, ◌++◌, IfOk, IsTrue};
ghost use Rattle.osm_change.specs.Moments.{IsShownMoment, HasShownStamp};
ghost use Rattle.osm_json.specs.Added.{Adds, origin_text, origin_of};

use crate::body::Body;
use crate::moment::moment_text;
use crate::send::kind_name;
use osm_base::{Kind, Owner, Stamp};
use osm_change::ElementRow;
use std::alloc::{AllocError, Global};
use std::marker::Model;

fn write_origin(out: &mut Body, stamp: Stamp, kind: Kind, owner: &Owner) -> Result<(), AllocError>
    requires { IsShownMoment stamp }
    ensures { Adds result out.old out.new (origin_text (stamp, (kind, owner.now))) }
{
    let shown = moment_text(stamp);
    out.text(b",\"timestamp\":", shown.as_str())?;
    out.text(b",\"type\":", kind_name(kind))?;
    out.natural(b",\"uid\":", owner.id)?;
    out.text(b",\"user\":", owner.name.as_str())?;
    out.piece(b",\"version\":")?;
    Ok(())
}

/// That part, kept from one row of an answer to the next: neighbours often come from one upload.
#[derive(Drop)]
pub(crate) struct ShownOrigin<'a> {
    stamp: Stamp,
    kind: Kind,
    owner: &'a Owner,
    text: Body,
}

impl<'a> Model for ShownOrigin<'a> {
    ghost use Rattle.std.specs.Prelude.{ℕ, ◌≡◌};
    ghost use Rattle.osm_base.specs.declared.keys.Kind.{Kind};
    ghost use Rattle.osm_base.specs.declared.people.Owner.{Owner};
    ghost use Rattle.osm_json.specs.Added.{origin_text};

    ghost Value = { ℕ × (Kind × Owner) };

    ghost view = { λ s. (s.stamp, (s.kind, s.owner.now)) };

    ghost invariant = { λ s. s.text ≡ origin_text (s.stamp, (s.kind, s.owner.now)) };
}

impl<'a> ShownOrigin<'a> {
    fn made(text: Body, row: &ElementRow<'a>) -> Result<ShownOrigin<'a>, AllocError>
        requires { HasShownStamp row.now }
        ensures { IfOk result (λ shown. shown ≡ origin_of row.now) }
    {
        let mut text = text;
        let stamp = row.version.stamp();
        text.clear();
        write_origin(&mut text, stamp, row.key.kind, row.owner)?;
        Ok(ShownOrigin {
            stamp,
            kind: row.key.kind,
            owner: row.owner,
            text,
        })
    }

    /// That of a row.
    pub(crate) fn of(alloc: Global, row: &ElementRow<'a>) -> Result<ShownOrigin<'a>, AllocError>
        requires { HasShownStamp row.now }
        ensures { IfOk result (λ shown. shown ≡ origin_of row.now) }
    {
        ShownOrigin::made(Body::none(alloc), row)
    }

    fn is_of(&self, row: &ElementRow<'a>) -> bool
        ensures { IsTrue result → self.now ≡ origin_of row.now }
    {
        self.stamp == row.version.stamp()
            && self.kind.is(row.key.kind)
            && self.owner.id == row.owner.id
            && self.owner.name.as_str() == row.owner.name.as_str()
    }

    /// That of another row. It is made anew where it is not the same.
    pub(crate) fn behind(self, row: &ElementRow<'a>) -> Result<ShownOrigin<'a>, AllocError>
        requires { HasShownStamp row.now }
        ensures { IfOk result (λ shown. shown ≡ origin_of row.now) }
    {
        if self.is_of(row) {
            return Ok(self);
        }
        let ShownOrigin { text, .. } = self;
        ShownOrigin::made(text, row)
    }

    pub(crate) fn text(&self) -> &[u8]
        ensures { result.now ≡ origin_text self.now }
    {
        self.text.bytes()
    }
}
