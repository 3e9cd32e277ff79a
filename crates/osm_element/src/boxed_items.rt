//! A list behind one pointer.
ghost use Rattle.std.specs.Prelude.{◌≡◌, [], length, IfOk};

use crate::labels::Tags;
use osm_base::{Items, Memory, TryCopy};
use std::alloc::Global;
use std::marker::Model;

/// A list, with room beside it for tags: a version that has both takes one pointer to them.
#[derive(Drop)]
pub(crate) struct Listed<T> {
    pub(crate) items: Items<T>,
    pub(crate) tags: Tags,
}

/// A list in a box, which contracts see as the list of its items. There are no tags beside it.
#[derive(Drop)]
pub struct BoxedItems<T> {
    list: Box<Listed<T>>,
}

impl<T> Model for BoxedItems<T> {
    ghost use Rattle.std.specs.Prelude.{List};

    ghost Value = { List T };

    ghost view = { λ boxed. boxed.list.value.items };
}

impl<T: Drop> BoxedItems<T> {
    /// The items of a vector, without a copy, in a box of their own.
    pub fn of(alloc: Global, items: Vec<T>) -> Result<BoxedItems<T>, Memory>
        ensures { IfOk result (λ boxed. boxed ≡ items.items) }
    {
        boxed(alloc, Items::of(items))
    }

    /// The items of a vector, without a copy, in the box of others, which are dropped. It takes no
    /// memory.
    pub fn with(self, items: Vec<T>) -> BoxedItems<T>
        ensures { result ≡ items.items }
    {
        let mut list = self.list;
        list.items = Items::of(items);
        BoxedItems { list }
    }
}

impl<T> BoxedItems<T> {
    /// All items, in order.
    pub fn items(&self) -> &[T]
        ensures { result.now ≡ self.now }
    {
        self.list.items.items()
    }

    /// The items as a vector, without a copy.
    pub fn into_vec(self) -> Vec<T>
        ensures { result.items ≡ self }
    {
        let Listed { items, tags: _ } = Box::into_inner(self.list);
        items.into_vec()
    }

    /// What stands behind the pointer, with tags beside it now. It takes no memory.
    pub(crate) fn into_box(self, tags: Tags) -> Box<Listed<T>>
        ensures items { result.value.items ≡ self }
        ensures tags { result.value.tags ≡ tags }
    {
        let mut list = self.list;
        list.tags = tags;
        list
    }

    /// How many items there are.
    pub fn len(&self) -> usize
        ensures { result ≡ length self.now }
    {
        self.list.items.len()
    }
}

impl<T: TryCopy + Drop> TryCopy for BoxedItems<T> {
    fn copy(&self, alloc: Global) -> Result<BoxedItems<T>, Memory> {
        boxed(alloc, self.list.items.copy(alloc)?)
    }
}

/// The list in a box, with no tags.
fn boxed<T: Drop>(alloc: Global, items: Items<T>) -> Result<BoxedItems<T>, Memory>
    ensures { IfOk result (λ boxed. boxed ≡ items) }
{
    let tags = Tags::none(alloc);
    let list = Box::new(alloc, Listed { items, tags })?;
    Ok(BoxedItems { list })
}

impl<T: TryCopy + Drop> Listed<T> {
    /// An equal one in a box of its own.
    pub(crate) fn copy_boxed(&self, alloc: Global) -> Result<Box<Listed<T>>, Memory>
        ensures items { IfOk result (λ copy. copy.value.items ≡ self.now.items) }
        ensures tags { IfOk result (λ copy. copy.value.tags ≡ self.now.tags) }
    {
        let items = self.items.copy(alloc)?;
        let tags = self.tags.copy(alloc)?;
        Ok(Box::new(alloc, Listed { items, tags })?)
    }

    /// The same list without tags, in a box of its own.
    pub(crate) fn copy_untagged(&self, alloc: Global) -> Result<Box<Listed<T>>, Memory>
        ensures items { IfOk result (λ copy. copy.value.items ≡ self.now.items) }
        ensures tags { IfOk result (λ copy. copy.value.tags ≡ []) }
    {
        let items = self.items.copy(alloc)?;
        let tags = Tags::none(alloc);
        Ok(Box::new(alloc, Listed { items, tags })?)
    }
}
