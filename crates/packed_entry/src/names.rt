//! Names of elements, and kinds.
ghost use Rattle.std.specs.Prelude.{◌≡◌, ◌++◌, OnOk};
ghost use Rattle.osm_base.specs.Key.{kind_rank};
ghost use Rattle.osm_change.specs.Referents.{Fits};
ghost use Rattle.packed_entry.specs.Packed.{packed_name, number_of_name};
ghost use Rattle.packed_entry.specs.Read.{Gives, name_at, kind_of_rank, kind_at};

use crate::faults::Fault;
use crate::numbers::put_number;
use crate::reader::Reader;
use osm_base::{Kind, Memory};
use osm_change::{Name, Referent};

/// A name as one number.
fn number_of_name(name: Name) -> u64
    ensures number { result ≡ number_of_name name }
    ensures typed { Fits name }
{
    name.fits();
    match name.referent() {
        Referent::Old(id) => 2 * id,
        Referent::New(place) => 2 * u64::from(place) + 1,
    }
}

#[tactic(auto, unfolding(crate::specs::Packed::packed_name))]
pub(crate) fn put_name(out: &mut Vec<u8>, name: Name) -> Result<(), Memory>
    ensures bytes { OnOk result (out.new.items ≡ out.old.items ++ packed_name name) }
    ensures typed { Fits name }
{
    put_number(out, number_of_name(name))
}

#[tactic(auto, unfolding(crate::specs::Read::name_at))]
pub(crate) fn name(reader: &mut Reader<'_>) -> Result<Name, Fault>
    ensures { Gives (λ x. x) result (name_at reader.old) reader.new }
{
    let number = reader.number()?;
    let half = number / 2;
    if number % 2 == 0 {
        Ok(Name::old(half))
    } else if half < 0x1_0000_0000 {
        Ok(Name::new(half as u32))
    } else {
        Err(Fault::Malformed)
    }
}

/// A kind as a byte below 3.
pub(crate) fn kind_code(kind: Kind) -> u8
    ensures { result ≡ kind_rank kind }
{
    match kind {
        Kind::Node => 0,
        Kind::Way => 1,
        Kind::Relation => 2,
    }
}

pub(crate) fn kind_of(code: u8) -> Option<Kind>
    ensures { result ≡ kind_of_rank code }
{
    match code {
        0 => Some(Kind::Node),
        1 => Some(Kind::Way),
        2 => Some(Kind::Relation),
        _ => None,
    }
}

#[tactic(auto, unfolding(crate::specs::Read::kind_at))]
pub(crate) fn kind(reader: &mut Reader<'_>) -> Result<Kind, Fault>
    ensures { Gives (λ x. x) result (kind_at reader.old) reader.new }
{
    let code = reader.byte()?;
    match kind_of(code) {
        Some(kind) => Ok(kind),
        None => Err(Fault::Malformed),
    }
}
