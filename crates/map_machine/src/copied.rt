//! Rows of elements that are an answer's own.
ghost use Rattle.std.specs.Prelude.{◌≡◌, ◌<◌, All, length, map, IfOk, IfSome, IsTrue};
ghost use Rattle.osm_change.specs.Moments.{HasShownStamp};
ghost use Rattle.map_machine.specs.Copied.{list_of, whole_row, HasParts, KeepsTags, KeepsOwner, KeepsRow};

use osm_base::{Items, Key, Memory, Owner, TryCopy};
use osm_change::{ElementRow, ElementRows};
use osm_element::{TagList, TagLists, Version};
use std::alloc::Global;
use std::marker::Model;

/// A version without its tags, and where they and the owner of its changeset are kept: most versions
/// have no tags, and neighbours have one owner.
#[derive(Drop)]
pub struct CopiedRow {
    key: Key,
    number: u64,
    version: Version,
    /// Which list of tags is the version's, where it has any.
    tags: Option<usize>,
    owner: usize,
}

/// Rows that are the answer's own, in its order.
#[derive(Drop)]
pub struct CopiedRows {
    rows: Vec<CopiedRow>,
    tags: TagLists,
    owners: Vec<Owner>,
}

impl Model for CopiedRows {
    ghost use Rattle.std.specs.Prelude.{List, All, map};
    ghost use Rattle.osm_change.specs.ElementRows.{ShownVersion};
    ghost use Rattle.osm_change.specs.Moments.{HasShownStamp};
    ghost use Rattle.map_machine.specs.Copied.{whole_row, HasParts};

    ghost Value = { List ShownVersion };

    ghost view = { λ c. map (whole_row c.tags c.owners.items) c.rows.items };

    ghost invariant = { λ c. All (HasParts c.tags c.owners.items) c.rows.items × All HasShownStamp (map (whole_row c.tags c.owners.items) c.rows.items) };
}

impl CopiedRows {
    pub(crate) fn of(alloc: Global, rows: &[ElementRow<'_>]) -> Result<CopiedRows, Memory>
        requires { All HasShownStamp rows.now }
        ensures { IfOk result (λ copied. copied ≡ rows.now) }
    {
        let mut copied = Vec::with_capacity(alloc, rows.len())?;
        let mut tags = TagLists::with_room(alloc, rows.len())?;
        let mut owners = Vec::new(alloc);
        for row in rows {
            copied.push(copied_row(alloc, &mut tags, &mut owners, row)?)?;
        }
        Ok(CopiedRows {
            rows: copied,
            tags,
            owners,
        })
    }

    /// Their rows, which borrow from them.
    pub(crate) fn rows(&self, alloc: Global) -> Result<ElementRows<'_>, Memory>
        ensures rows { IfOk result (λ rows. rows ≡ self.now) }
        ensures shown { All HasShownStamp self.now }
    {
        whole_rows(
            alloc,
            self.rows.as_slice(),
            &self.tags,
            self.owners.as_slice(),
        )
    }
}

/// The tags' place among others, where there are some. They are put behind these.
fn keep_tags(lists: &mut TagLists, tags: &TagList<'_>) -> Result<Option<usize>, Memory>
    ensures { IfOk result (λ place. KeepsTags lists.old lists.new place tags.now) }
{
    if tags.len() == 0 {
        return Ok(None);
    }
    Ok(Some(lists.push(tags)?))
}

fn is_same(owner: &Owner, other: &Owner) -> bool
    ensures { IsTrue result → owner.now ≡ other.now }
{
    owner.id == other.id && owner.name.as_str() == other.name.as_str()
}

/// The owner's place among others: that of the last one, where it is the same.
fn keep_owner(alloc: Global, owners: &mut Vec<Owner>, owner: &Owner) -> Result<usize, Memory>
    ensures { IfOk result (λ place. KeepsOwner owners.old.items owners.new.items place owner.now) }
{
    let count = owners.len();
    if count > 0 && is_same(&owners[count - 1], owner) {
        return Ok(count - 1);
    }
    owners.push(owner.copy(alloc)?)?;
    Ok(count)
}

/// A copy of a row. What stands apart is put behind what does already.
fn copied_row(
    alloc: Global,
    lists: &mut TagLists,
    owners: &mut Vec<Owner>,
    row: &ElementRow<'_>,
) -> Result<CopiedRow, Memory>
    ensures { IfOk result (λ copied. KeepsRow lists.old owners.old.items lists.new owners.new.items copied row.now) }
{
    Ok(CopiedRow {
        key: row.key,
        number: row.number,
        version: row.version.copy_untagged(alloc)?,
        tags: keep_tags(lists, &row.tags)?,
        owner: keep_owner(alloc, owners, row.owner)?,
    })
}

fn list_of(lists: &TagLists, place: Option<usize>) -> TagList<'_>
    requires { IfSome place (λ index. index < length lists.now) }
    ensures { result ≡ list_of lists.now place }
{
    match place {
        Some(index) => lists.list(index),
        None => TagList::none(),
    }
}

fn whole_row<'a>(lists: &'a TagLists, owners: &'a [Owner], row: &'a CopiedRow) -> ElementRow<'a>
    requires { HasParts lists.now owners.now row.now }
    ensures { result ≡ whole_row lists.now owners.now row.now }
{
    ElementRow {
        key: row.key,
        number: row.number,
        version: &row.version,
        tags: list_of(lists, row.tags),
        owner: &owners[row.owner],
    }
}

fn whole_rows<'a>(
    alloc: Global,
    rows: &'a [CopiedRow],
    lists: &'a TagLists,
    owners: &'a [Owner],
) -> Result<ElementRows<'a>, Memory>
    requires { All (HasParts lists.now owners.now) rows.now }
    ensures { IfOk result (λ made. made ≡ map (whole_row lists.now owners.now) rows.now) }
{
    let mut made = Vec::with_capacity(alloc, rows.len())?;
    for row in rows {
        made.push(whole_row(lists, owners, row))?;
    }
    Ok(Items::of(made))
}
