//! Tags, in one text and one list of ends behind a pointer.
ghost use Rattle.std.specs.Prelude.{◌≡◌, ◌↔◌, ◌-◌, ◌<◌, ◌∷◌, [], ◌++◌, Some, None, length, get_or, map, IfOk, IfSome, IsSome, IsTrue};
ghost use Rattle.std.specs.Ordering.{is_lt, nat_cmp};
ghost use Rattle.std.specs.Cmp.Lexicographic.{slice_cmp};
ghost use Rattle.osm_element.specs.Tags.{KeysRise, byte_count, cut, start_at, AreEnds};
ghost use Rattle.osm_element.specs.Labels.{tags_in};

use osm_base::{Coord, Memory, Text, TryCopy};
use std::alloc::Global;
use std::marker::Model;

/// Where a key and its value end in the text of their tags. The key begins where the tag before ends.
#[derive(Clone, Copy, Drop)]
pub(crate) struct Ends {
    key: u32,
    value: u32,
}

/// Keys and values in one text, and where each ends.
#[derive(Drop)]
pub struct Table {
    /// The keys and the values, one after the other.
    text: String,
    ends: Vec<Ends>,
}

impl Model for Table {
    ghost use Rattle.std.specs.Prelude.{List, string_bytes};
    ghost use Rattle.osm_element.specs.Tags.{Tag, cut, AreEnds};

    ghost Value = { List Tag };

    ghost view = { λ t. cut 0 t.ends.items (string_bytes t.text) };

    ghost invariant = { λ t. AreEnds 0 t.ends.items (string_bytes t.text) };
}

impl Table {
    /// No pairs. It takes no memory.
    fn none(alloc: Global) -> Table
        ensures { result ≡ [] }
    {
        Table {
            text: String::new(alloc),
            ends: Vec::new(alloc),
        }
    }

    /// No pairs, with room for so many and for so many bytes of keys and values.
    pub fn with_room(alloc: Global, count: usize, bytes: usize) -> Result<Table, Memory>
        ensures { IfOk result (λ table. table ≡ []) }
    {
        Ok(Table {
            text: String::with_capacity(alloc, bytes)?,
            ends: Vec::with_capacity(alloc, count)?,
        })
    }

    /// The pairs and one more behind them.
    pub fn with(self, key: &str, value: &str) -> Result<Table, Memory>
        ensures { IfOk result (λ table. table ≡ self ++ (key.now, value.now) ∷ []) }
    {
        let Table { mut text, mut ends } = self;
        text.push_str(key)?;
        let key = text.len();
        text.push_str(value)?;
        let value = text.len();
        if value > u32::MAX as usize {
            return Err(Memory);
        }
        ends.push(Ends {
            key: key as u32,
            value: value as u32,
        })?;
        Ok(Table { text, ends })
    }

    fn list(&self) -> TagList<'_>
        ensures { result ≡ self.now }
    {
        TagList::of(self.text.as_str(), self.ends.as_slice())
    }
}

impl TryCopy for Table {
    fn copy(&self, alloc: Global) -> Result<Table, Memory> {
        let text = String::from_str(alloc, self.text.as_str())?;
        let ends = Vec::from_slice(alloc, self.ends.as_slice())?;
        Ok(Table { text, ends })
    }
}

/// A table, with room beside it for a position: a node with tags takes one block of memory for both.
#[derive(Drop)]
pub(crate) struct PlacedTable {
    pub(crate) table: Table,
    pub(crate) at: Coord,
}

impl PlacedTable {
    /// A table that stands for no node yet.
    fn of(table: Table) -> PlacedTable
        ensures { result.table ≡ table }
    {
        PlacedTable {
            table,
            at: nowhere(),
        }
    }

    pub(crate) fn list(&self) -> TagList<'_>
        ensures { result ≡ self.now.table }
    {
        self.table.list()
    }

    /// An equal one in a box of its own.
    pub(crate) fn copy_boxed(&self, alloc: Global) -> Result<Box<PlacedTable>, Memory>
        ensures { IfOk result (λ copy. copy.value ≡ self.now) }
    {
        let table = self.table.copy(alloc)?;
        Ok(Box::new(alloc, PlacedTable { table, at: self.at })?)
    }
}

/// What stands where there is no position.
fn nowhere() -> Coord {
    let Some(at) = Coord::new(0, 0) else {
        unreachable!()
    };
    at
}

/// Tags, borrowed from what has them. The keys rise there.
#[derive(Drop)]
pub struct TagList<'a> {
    text: &'a str,
    ends: &'a [Ends],
}

impl<'a> Model for TagList<'a> {
    ghost use Rattle.std.specs.Prelude.{List};
    ghost use Rattle.osm_element.specs.Tags.{Tag, cut, AreEnds};

    ghost Value = { List Tag };

    ghost view = { λ l. cut 0 l.ends.now l.text.now };

    ghost invariant = { λ l. AreEnds 0 l.ends.now l.text.now };
}

impl<'a> TagList<'a> {
    /// No tags.
    pub fn none() -> TagList<'a>
        ensures { result ≡ [] }
    {
        TagList {
            text: "",
            ends: &[],
        }
    }

    /// Those that this text is cut into.
    pub(crate) fn of(text: &'a str, ends: &'a [Ends]) -> TagList<'a>
        requires { AreEnds 0 ends.now text.now }
        ensures { result ≡ cut 0 ends.now text.now }
    {
        TagList { text, ends }
    }

    /// Their text, and where each key and each value ends in it.
    pub(crate) fn parts(&self) -> (&'a str, &'a [Ends])
        ensures ends { AreEnds 0 result.1.now result.0.now }
        ensures list { cut 0 result.1.now result.0.now ≡ self.now }
    {
        (self.text, self.ends)
    }

    /// How many tags.
    pub fn len(&self) -> usize
        ensures { result ≡ length self.now }
    {
        self.ends.len()
    }

    /// How many bytes the keys and the values have.
    pub fn byte_count(&self) -> usize
        ensures { result ≡ byte_count self.now }
    {
        self.text.len()
    }

    /// A key and its value, in the order of the keys.
    pub fn pair(&self, index: usize) -> (&'a str, &'a str)
        requires { index < length self.now }
        ensures { (result.0.now, result.1.now) ≡ get_or self.now index ([], []) }
    {
        pair_at(self.text, self.ends, index)
    }
}

/// Keys and values, the keys in strictly rising byte order (OpenStreetMap wiki, "Tags").
#[derive(Drop)]
pub struct Tags {
    /// It takes no room, and makes the table of the first tag.
    alloc: Global,
    /// Most elements have no tags, and so no table. A version has it as it stands here.
    table: Option<Box<PlacedTable>>,
}

impl Model for Tags {
    ghost use Rattle.std.specs.Prelude.{List};
    ghost use Rattle.osm_element.specs.Tags.{Tag, KeysRise};
    ghost use Rattle.osm_element.specs.Labels.{tags_in};

    ghost Value = { List Tag };

    ghost view = { λ t. tags_in t.table };

    ghost invariant = { λ t. KeysRise (tags_in t.table) };
}

impl Tags {
    ghost use Rattle.osm_element.specs.Tags.{KeysRise};

    /// No tags. It takes no memory.
    pub fn none(alloc: Global) -> Tags
        ensures { result ≡ [] }
    {
        Tags { alloc, table: None }
    }

    /// No tags, with room for so many and for so many bytes of keys and values. Room for no
    /// tags takes no memory.
    pub fn with_room(alloc: Global, count: usize, bytes: usize) -> Result<Tags, Memory>
        ensures { IfOk result (λ tags. tags ≡ []) }
    {
        if count == 0 {
            return Ok(Tags::none(alloc));
        }
        let table = PlacedTable::of(Table::with_room(alloc, count, bytes)?);
        let table = Box::new(alloc, table)?;
        Ok(Tags {
            alloc,
            table: Some(table),
        })
    }

    /// The tags of pairs whose keys rise strictly. None where they don't.
    pub fn of(alloc: Global, pairs: &[(Text, Text)]) -> Result<Option<Tags>, Memory>
        ensures rising { IfOk result (λ found. IsSome found ↔ KeysRise pairs.now) }
        ensures value { IfOk result (λ found. IfSome found (λ tags. tags ≡ pairs.now)) }
    {
        if !do_keys_rise(pairs) {
            return Ok(None);
        }
        let mut tags = Tags::none(alloc);
        for (key, value) in pairs {
            tags = tags.with(key.as_str(), value.as_str())?;
        }
        Ok(Some(tags))
    }

    /// The tags of a table, without a copy of its text. None where their keys don't rise strictly.
    pub fn of_table(alloc: Global, table: Table) -> Result<Option<Tags>, Memory>
        ensures rising { IfOk result (λ found. IsSome found ↔ KeysRise table) }
        ensures value { IfOk result (λ found. IfSome found (λ tags. tags ≡ table)) }
    {
        if !do_keys_rise_in(&table.list()) {
            return Ok(None);
        }
        let table = Box::new(alloc, PlacedTable::of(table))?;
        Ok(Some(Tags {
            alloc,
            table: Some(table),
        }))
    }

    /// The tags and one more, whose key is behind theirs.
    pub fn with(self, key: &str, value: &str) -> Result<Tags, Memory>
        requires { KeysRise (self ++ (key.now, value.now) ∷ []) }
        ensures { IfOk result (λ tags. tags ≡ self ++ (key.now, value.now) ∷ []) }
    {
        let Tags { alloc, table } = self;
        let table = table_of(alloc, table)?;
        let table = with_pair(alloc, table, key, value)?;
        Ok(Tags {
            alloc,
            table: Some(table),
        })
    }

    /// All of them.
    pub fn list(&self) -> TagList<'_>
        ensures { result ≡ self.now }
    {
        match &self.table {
            Some(placed) => placed.list(),
            None => TagList::none(),
        }
    }

    /// What stands behind the pointer, without a copy.
    pub(crate) fn into_table(self) -> Option<Box<PlacedTable>>
        ensures { tags_in result ≡ self }
    {
        self.table
    }

    /// How many tags.
    pub fn len(&self) -> usize
        ensures { result ≡ length self.now }
    {
        self.list().len()
    }

    /// Whatever is made as tags has keys that rise: a law, with nothing to do.
    pub fn keys_rise(&self)
        ensures { KeysRise self.now }
    {
        let _ = &self.table;
    }

    /// A key and its value, in the order of the keys.
    pub fn pair(&self, index: usize) -> (&str, &str)
        requires { index < length self.now }
        ensures { (result.0.now, result.1.now) ≡ get_or self.now index ([], []) }
    {
        self.list().pair(index)
    }
}

impl TryCopy for Tags {
    fn copy(&self, alloc: Global) -> Result<Tags, Memory> {
        let table = copy_table(alloc, &self.table)?;
        Ok(Tags { alloc, table })
    }
}

/// The table, or a new one where there is none.
fn table_of(alloc: Global, table: Option<Box<PlacedTable>>) -> Result<Box<PlacedTable>, Memory>
    ensures { IfOk result (λ made. made.value.table ≡ tags_in table) }
{
    match table {
        Some(table) => Ok(table),
        None => Ok(Box::new(alloc, PlacedTable::of(Table::none(alloc)))?),
    }
}

/// The table with one more pair, in the same box.
fn with_pair(
    alloc: Global,
    mut table: Box<PlacedTable>,
    key: &str,
    value: &str,
) -> Result<Box<PlacedTable>, Memory>
    ensures { IfOk result (λ more. more.value.table ≡ table.value.table ++ (key.now, value.now) ∷ []) }
{
    let placed = Box::replace(&mut table, PlacedTable::of(Table::none(alloc)));
    let more = placed.table.with(key, value)?;
    *table = PlacedTable::of(more);
    Ok(table)
}

fn copy_table(
    alloc: Global,
    table: &Option<Box<PlacedTable>>,
) -> Result<Option<Box<PlacedTable>>, Memory>
    ensures { IfOk result (λ copy. tags_in copy ≡ tags_in table.now) }
{
    match table {
        Some(placed) => Ok(Some(placed.copy_boxed(alloc)?)),
        None => Ok(None),
    }
}

/// Whether each key stands before the next in byte order.
fn do_keys_rise(pairs: &[(Text, Text)]) -> bool
    ensures { IsTrue result ↔ KeysRise pairs.now }
{
    for next in 1..pairs.len() {
        if !is_before(&pairs[next - 1].0, &pairs[next].0) {
            return false;
        }
    }
    true
}

/// The same of the tags of a table.
fn do_keys_rise_in(list: &TagList<'_>) -> bool
    ensures { IsTrue result ↔ KeysRise list.now }
{
    for next in 1..list.len() {
        if !is_key_before(list, next) {
            return false;
        }
    }
    true
}

/// Whether the key before this one is less, in byte order.
fn is_key_before(list: &TagList<'_>, next: usize) -> bool
    requires some { 0 < next }
    requires there { next < length list.now }
    ensures { result ≡ is_lt (slice_cmp nat_cmp (get_or list.now (next - 1) ([], [])).0 (get_or list.now next ([], [])).0) }
{
    list.pair(next - 1).0 < list.pair(next).0
}

fn is_before(text: &Text, other: &Text) -> bool
    ensures { result ≡ is_lt (slice_cmp nat_cmp text.now other.now) }
{
    text.as_str() < other.as_str()
}

fn start(ends: &[Ends], index: usize) -> usize
    requires { index < length ends.now }
    ensures { result ≡ start_at 0 ends.now index }
{
    if index == 0 {
        0
    } else {
        ends[index - 1].value as usize
    }
}

fn pair_at<'a>(text: &'a str, ends: &[Ends], index: usize) -> (&'a str, &'a str)
    requires cut { AreEnds 0 ends.now text.now }
    requires there { index < length ends.now }
    ensures { (result.0.now, result.1.now) ≡ get_or (cut 0 ends.now text.now) index ([], []) }
{
    let start = start(ends, index);
    let middle = ends[index].key as usize;
    let end = ends[index].value as usize;
    (&text[start..middle], &text[middle..end])
}
