//! How a version is held: what it holds, its tags, its stamp and its mark.
ghost use Rattle.std.specs.Prelude.{◌≡◌, [], Some, None, option_map, IfOk};
ghost use Rattle.osm_element.specs.declared.contents.Content.TheVariants as content;
ghost use Rattle.osm_element.specs.Held.{held_content};
ghost use Rattle.osm_element.specs.Version.{content_in, tags_of, noted_in};

use crate::boxed_items::Listed;
use crate::contents::{Content, Held, Member};
use crate::labels::{PlacedTable, TagList, Tags};
use crate::noted::Noted;
use osm_base::{Coord, Memory, TryCopy};
use std::alloc::Global;
use std::mem::size_of;

/// What a version holds, with its tags behind the same pointer. Where there is neither a list nor a tag,
/// there is no pointer.
#[derive(Drop)]
pub(crate) enum Form {
    Node(Noted, Coord),
    TaggedNode(Noted, Box<PlacedTable>),
    Way(Noted, Box<Listed<u64>>),
    Relation(Noted, Box<Listed<Member<u64>>>),
    Deletion(Noted),
    /// Nobody is shown the position beside the tags.
    TaggedDeletion(Noted, Box<PlacedTable>),
}

const _: () = prove!(size_of::<Form>() == 16);

impl Form {
    /// A deletion where there is no content. It takes no memory.
    pub(crate) fn of(content: Option<Content<u64>>, tags: Tags, noted: Noted) -> Form
        ensures content { content_in result ≡ content }
        ensures tags { tags_of result ≡ tags }
        ensures noted { noted_in result ≡ noted }
    {
        let Some(content) = content else {
            return deletion(tags, noted);
        };
        match content {
            Content::Node(at) => node(at, tags, noted),
            Content::Way(nodes) => Form::Way(noted, nodes.into_box(tags)),
            Content::Relation(members) => Form::Relation(noted, members.into_box(tags)),
        }
    }

    pub(crate) fn content(&self) -> Option<Held<'_>>
        ensures { option_map held_content result ≡ content_in self.now }
    {
        match self {
            Form::Node(_, at) => Some(Held::Node(*at)),
            Form::TaggedNode(_, table) => Some(Held::Node(table.at)),
            Form::Way(_, nodes) => Some(Held::Way(nodes.items.items())),
            Form::Relation(_, members) => Some(Held::Relation(members.items.items())),
            Form::Deletion(_) | Form::TaggedDeletion(..) => None,
        }
    }

    pub(crate) fn tags(&self) -> TagList<'_>
        ensures { result ≡ tags_of self.now }
    {
        match self {
            Form::Node(..) | Form::Deletion(_) => TagList::none(),
            Form::TaggedNode(_, table) | Form::TaggedDeletion(_, table) => table.list(),
            Form::Way(_, nodes) => nodes.tags.list(),
            Form::Relation(_, members) => members.tags.list(),
        }
    }

    pub(crate) fn noted(&self) -> Noted
        ensures { result ≡ noted_in self.now }
    {
        match self {
            Form::Node(noted, _)
            | Form::TaggedNode(noted, _)
            | Form::Way(noted, _)
            | Form::Relation(noted, _)
            | Form::Deletion(noted)
            | Form::TaggedDeletion(noted, _) => *noted,
        }
    }

    /// Puts a mark on it, or takes it off.
    pub(crate) fn mark(&mut self, marked: bool)
        ensures content { content_in self.new ≡ content_in self.old }
        ensures tags { tags_of self.new ≡ tags_of self.old }
        ensures noted { noted_in self.new ≡ record (noted_in self.old) { marked = marked } }
    {
        // An arm for each: where alternatives join, it isn't known which one was written to.
        match self {
            Form::Node(noted, _) => noted.marked = marked,
            Form::TaggedNode(noted, _) => noted.marked = marked,
            Form::Way(noted, _) => noted.marked = marked,
            Form::Relation(noted, _) => noted.marked = marked,
            Form::Deletion(noted) => noted.marked = marked,
            Form::TaggedDeletion(noted, _) => noted.marked = marked,
        }
    }

    /// A copy that has no tags.
    pub(crate) fn copy_untagged(&self, alloc: Global) -> Result<Form, Memory>
        ensures content { IfOk result (λ copy. content_in copy ≡ content_in self.now) }
        ensures tags { IfOk result (λ copy. tags_of copy ≡ []) }
        ensures noted { IfOk result (λ copy. noted_in copy ≡ noted_in self.now) }
    {
        match self {
            Form::Node(noted, at) => Ok(Form::Node(*noted, *at)),
            Form::TaggedNode(noted, table) => Ok(Form::Node(*noted, table.at)),
            Form::Way(noted, nodes) => Ok(Form::Way(*noted, nodes.copy_untagged(alloc)?)),
            Form::Relation(noted, members) => {
                Ok(Form::Relation(*noted, members.copy_untagged(alloc)?))
            }
            Form::Deletion(noted) | Form::TaggedDeletion(noted, _) => Ok(Form::Deletion(*noted)),
        }
    }

    /// An equal one. It can't be a `TryCopy`, whose pointers would have to be equal too.
    pub(crate) fn copy(&self, alloc: Global) -> Result<Form, Memory>
        ensures content { IfOk result (λ copy. content_in copy ≡ content_in self.now) }
        ensures tags { IfOk result (λ copy. tags_of copy ≡ tags_of self.now) }
        ensures noted { IfOk result (λ copy. noted_in copy ≡ noted_in self.now) }
    {
        match self {
            Form::Node(noted, at) => Ok(Form::Node(*noted, *at)),
            Form::TaggedNode(noted, table) => {
                Ok(Form::TaggedNode(*noted, table.copy_boxed(alloc)?))
            }
            Form::Way(noted, nodes) => Ok(Form::Way(*noted, nodes.copy_boxed(alloc)?)),
            Form::Relation(noted, members) => {
                Ok(Form::Relation(*noted, members.copy_boxed(alloc)?))
            }
            Form::Deletion(noted) => Ok(Form::Deletion(*noted)),
            Form::TaggedDeletion(noted, table) => {
                Ok(Form::TaggedDeletion(*noted, table.copy_boxed(alloc)?))
            }
        }
    }
}

/// A node at this position.
fn node(at: Coord, tags: Tags, noted: Noted) -> Form
    ensures content { content_in result ≡ Some (content.Node at) }
    ensures tags { tags_of result ≡ tags }
    ensures noted { noted_in result ≡ noted }
{
    match tags.into_table() {
        Some(table) => {
            let mut table = table;
            table.at = at;
            Form::TaggedNode(noted, table)
        }
        None => Form::Node(noted, at),
    }
}

fn deletion(tags: Tags, noted: Noted) -> Form
    ensures content { content_in result ≡ None }
    ensures tags { tags_of result ≡ tags }
    ensures noted { noted_in result ≡ noted }
{
    match tags.into_table() {
        Some(table) => Form::TaggedDeletion(noted, table),
        None => Form::Deletion(noted),
    }
}
