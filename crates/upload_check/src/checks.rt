//! The tests of one operation, on what those before it left.
//!
//! What an operation names is looked for once: the test that a reference is visible takes its place
//! for the box, too, and where the operation's own element stands goes with the operation.
ghost use Rattle.std.specs.Prelude.{◌≡◌, ◌+◌, ◌<◌, ◌^◌, None, length, map, IfOk};
ghost use Rattle.osm_change.specs.Change.{named, named_member, names_listed};
ghost use Rattle.upload_check.specs.Effects.{done_with};
ghost use Rattle.upload_check.specs.Checks.{place_of, current_version, missing, gone, used, makes, leaves, next_key, check_create, check_modify, check_used, check_unused, check_visible, check_delete, check};
ghost use Rattle.upload_check.specs.Overlay.{standing};
ghost use Rattle.upload_check.specs.Passed.{box_listed, box_of, AreReferred, AreSeen, IsElement, IsSeen, IsTested};
ghost use Rattle.osm_element.specs.Elements.{refs};
ghost use Rattle.osm_model.specs.Names.{with_ids};

use crate::boxes::with_place;
use crate::counts::increased;
use crate::sights::View;
use crate::standings::Standing;
use osm_base::{Box7, Key, Kind, Memory};
use osm_change::{Name, Named, Op, OpDone, Refusal, kind_of};
use osm_element::{Content, Member};

/// What an operation does: its element, and whether it makes a version of it.
#[derive(Clone, Copy)]
pub struct Step {
    pub key: Key,
    pub applies: bool,
}

/// The element that is named, and where it stands.
#[derive(Clone, Copy)]
pub struct Known {
    pub key: Key,
    pub stood: Standing,
}

/// An operation that is passed: what it does, where its element stands before it, and the least box
/// of what it lists.
#[derive(Clone, Copy)]
pub struct Passed {
    pub step: Step,
    pub stood: Standing,
    pub area: Option<Box7>,
}

/// The operation makes a version of the element.
fn makes(key: Key) -> Step
    ensures { result ≡ makes key }
{
    Step { key, applies: true }
}

/// The operation leaves the element as it is.
fn leaves(key: Key) -> Step
    ensures { result ≡ leaves key }
{
    Step {
        key,
        applies: false,
    }
}

impl Step {
    /// What the operation does to an element of so many versions.
    pub fn done(self, versions: u64) -> Result<OpDone, Memory>
        ensures { IfOk result (λ done. done ≡ done_with self versions) }
    {
        if self.applies {
            let version = increased(versions)?;
            Ok(OpDone::Applied { version })
        } else {
            Ok(OpDone::Skipped { version: versions })
        }
    }
}

fn node_named(name: Name) -> Named
    ensures { result ≡ named Kind.Node name }
{
    Named {
        kind: Kind::Node,
        name,
    }
}

fn member_named(member: &Member<Name>) -> Named
    ensures { result ≡ named_member member.now }
{
    Named {
        kind: member.kind,
        name: member.name,
    }
}

impl<'a> View<'a> {
    /// The place of the operation that is judged, counted from 1.
    fn place(&self) -> Option<u32>
        requires { length self.now.over.keys + 1 < 2 ^ 32 }
        ensures { result ≡ place_of self.now }
    {
        Some(self.over.keys().len() as u32 + 1)
    }

    /// The element that is named, if it has a history.
    fn element(&self, kind: Kind, name: Name) -> Result<Known, Refusal>
        requires { length self.now.over.keys + 1 < 2 ^ 32 }
        ensures { IsElement self.now kind name result }
    {
        match self.known(kind, name) {
            Some(key) => Ok(Known {
                key,
                stood: self.standing(key),
            }),
            None => Err(Refusal::NoElement {
                id: self.said(name),
                op: self.place(),
                kind,
            }),
        }
    }

    /// The element that is named has this current version.
    fn current_version(
        &self,
        kind: Kind,
        name: Name,
        it: Known,
        version: u64,
    ) -> Result<(), Refusal>
        requires few { length self.now.over.keys + 1 < 2 ^ 32 }
        requires stood { it.stood ≡ standing self.now it.key }
        ensures { result ≡ current_version self.now kind name it.key version }
    {
        let found = it.stood.versions;
        if found == version {
            Ok(())
        } else {
            Err(Refusal::WrongVersion {
                found,
                id: self.said(name),
                op: self.place(),
                provided: version,
                kind,
            })
        }
    }

    fn missing(&self, named: Named) -> Refusal
        requires { length self.now.over.keys + 1 < 2 ^ 32 }
        ensures { result ≡ missing self.now named }
    {
        let version = match self.known(named.kind, named.name) {
            Some(key) => self.versions(key),
            None => 0,
        };
        Refusal::Missing {
            id: self.said(named.name),
            op: self.place(),
            kind: named.kind,
            version,
        }
    }

    /// The least box with the place of a reference, if that is visible.
    fn with_named(&self, area: Option<Box7>, named: Named) -> Option<Option<Box7>>
        ensures { IsSeen self.now named area result }
    {
        match self.place_named(named.kind, named.name) {
            Some(place) => Some(with_place(area, place)),
            None => None,
        }
    }

    /// The least box of nodes that are listed, or the first that isn't visible.
    #[tactic(auto, using(crate::proofs::Touched::cons_widened, crate::proofs::Passed::seen_more))]
    fn nodes_seen(&self, nodes: &[Name]) -> Result<Option<Box7>, Named>
        ensures { AreSeen self.now (map (named Kind.Node) nodes.now) result }
    {
        let mut area = None;
        for name in nodes {
            match self.with_named(area, node_named(*name)) {
                Some(more) => area = more,
                None => return Err(node_named(*name)),
            }
        }
        Ok(area)
    }

    /// The same of members.
    #[tactic(auto, using(crate::proofs::Touched::cons_widened, crate::proofs::Passed::seen_more))]
    fn members_seen(&self, members: &[Member<Name>]) -> Result<Option<Box7>, Named>
        ensures { AreSeen self.now (map named_member members.now) result }
    {
        let mut area = None;
        for member in members {
            match self.with_named(area, member_named(member)) {
                Some(more) => area = more,
                None => return Err(member_named(member)),
            }
        }
        Ok(area)
    }

    /// The same of what a content lists.
    fn listed_seen(&self, content: &Content<Name>) -> Result<Option<Box7>, Named>
        ensures { AreSeen self.now (names_listed content.now) result }
    {
        match content {
            Content::Node(_) => Ok(None),
            Content::Way(nodes) => self.nodes_seen(nodes.items()),
            Content::Relation(members) => self.members_seen(members.items()),
        }
    }

    /// What a new content lists is visible, and lies in this box. The first reference that isn't
    /// visible counts.
    fn references(&self, content: &Content<Name>) -> Result<Option<Box7>, Refusal>
        requires { length self.now.over.keys + 1 < 2 ^ 32 }
        ensures { AreReferred self.now content.now result }
    {
        match self.listed_seen(content) {
            Ok(area) => Ok(area),
            Err(named) => Err(self.missing(named)),
        }
    }

    /// The refusal of a delete of what isn't visible.
    fn gone(&self, kind: Kind, name: Name, key: Key) -> Refusal
        requires { length self.now.over.keys + 1 < 2 ^ 32 }
        ensures { result ≡ gone self.now kind name key }
    {
        Refusal::Gone {
            id: self.said(name),
            op: self.place(),
            kind,
            version: self.versions(key),
        }
    }

    /// The refusal of a delete of what is used.
    fn used(&self, kind: Kind, name: Name, user: Key) -> Refusal
        requires { length self.now.over.keys + 1 < 2 ^ 32 }
        ensures { result ≡ used self.now kind name user }
    {
        Refusal::Used {
            id: self.said(name),
            op: self.place(),
            kind,
            user_id: self.said_key(user),
            user_kind: user.kind,
            user_version: self.versions(user),
        }
    }

    fn next_key(&self, kind: Kind) -> Key
        ensures { result ≡ next_key self.now kind }
    {
        let id = self.over.next().next(kind);
        Key { kind, id }
    }

    #[tactic(auto, using(crate::proofs::Passed::create_passes, crate::proofs::Passed::create_refused))]
    fn check_create(&self, content: &Content<Name>) -> Result<Passed, Refusal>
        requires { length self.now.over.keys + 1 < 2 ^ 32 }
        ensures { IsTested self.now (check_create self.now content.now) (box_of self.now (refs (with_ids self.now.over.keys content.now))) result }
    {
        let area = self.references(content)?;
        let key = self.next_key(kind_of(content));
        Ok(Passed {
            step: makes(key),
            stood: self.standing(key),
            area,
        })
    }

    #[tactic(auto, using(crate::proofs::Passed::modify_passes, crate::proofs::Passed::modify_lists_missing, crate::proofs::Passed::modify_other_version, crate::proofs::Passed::modify_unknown))]
    fn check_modify(
        &self,
        name: Name,
        version: u64,
        content: &Content<Name>,
    ) -> Result<Passed, Refusal>
        requires { length self.now.over.keys + 1 < 2 ^ 32 }
        ensures { IsTested self.now (check_modify self.now name version content.now) (box_of self.now (refs (with_ids self.now.over.keys content.now))) result }
    {
        let kind = kind_of(content);
        let it = self.element(kind, name)?;
        self.current_version(kind, name, it, version)?;
        let area = self.references(content)?;
        Ok(Passed {
            step: makes(it.key),
            stood: it.stood,
            area,
        })
    }

    /// A delete of what is used names the least user. Only a refusal looks for it.
    fn check_used(&self, kind: Kind, name: Name, key: Key, if_unused: bool) -> Result<Step, Refusal>
        requires { length self.now.over.keys + 1 < 2 ^ 32 }
        ensures value { result ≡ check_used self.now kind name key if_unused }
        ensures own { IfOk result (λ step. step.key ≡ key) }
    {
        if if_unused {
            return Ok(leaves(key));
        }
        match self.least_user(key) {
            Some(user) => Err(self.used(kind, name, user)),
            None => Ok(makes(key)),
        }
    }

    fn check_unused(
        &self,
        kind: Kind,
        name: Name,
        it: Known,
        if_unused: bool,
    ) -> Result<Step, Refusal>
        requires few { length self.now.over.keys + 1 < 2 ^ 32 }
        requires stood { it.stood ≡ standing self.now it.key }
        ensures value { result ≡ check_unused self.now kind name it.key if_unused }
        ensures own { IfOk result (λ step. step.key ≡ it.key) }
    {
        if it.stood.users == 0 {
            Ok(makes(it.key))
        } else {
            self.check_used(kind, name, it.key, if_unused)
        }
    }

    /// A delete of what is known.
    fn check_visible(
        &self,
        kind: Kind,
        name: Name,
        version: u64,
        if_unused: bool,
        it: Known,
    ) -> Result<Step, Refusal>
        requires few { length self.now.over.keys + 1 < 2 ^ 32 }
        requires stood { it.stood ≡ standing self.now it.key }
        ensures value { result ≡ check_visible self.now kind name version if_unused it.key }
        ensures own { IfOk result (λ step. step.key ≡ it.key) }
    {
        if !self.is_visible(it.key, it.stood.holds) {
            return if if_unused {
                Ok(leaves(it.key))
            } else {
                Err(self.gone(kind, name, it.key))
            };
        }
        self.current_version(kind, name, it, version)?;
        self.check_unused(kind, name, it, if_unused)
    }

    #[tactic(auto, using(crate::proofs::Passed::delete_known, crate::proofs::Passed::delete_unknown))]
    fn check_delete(
        &self,
        kind: Kind,
        name: Name,
        version: u64,
        if_unused: bool,
    ) -> Result<Passed, Refusal>
        requires { length self.now.over.keys + 1 < 2 ^ 32 }
        ensures { IsTested self.now (check_delete self.now kind name version if_unused) None result }
    {
        let it = self.element(kind, name)?;
        let step = self.check_visible(kind, name, version, if_unused, it)?;
        Ok(Passed {
            step,
            stood: it.stood,
            area: None,
        })
    }

    /// Judges an operation on what those before it left.
    pub fn check(&self, operation: &Op) -> Result<Passed, Refusal>
        requires { length self.now.over.keys + 1 < 2 ^ 32 }
        ensures { IsTested self.now (check self.now operation.now) (box_listed self.now operation.now) result }
    {
        match operation {
            Op::Create { content, .. } => self.check_create(content),
            Op::Modify {
                name,
                version,
                content,
                ..
            } => self.check_modify(*name, *version, content),
            Op::Delete {
                kind,
                name,
                version,
                if_unused,
            } => self.check_delete(*kind, *name, *version, *if_unused),
        }
    }
}
