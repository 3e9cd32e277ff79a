//! Numbers: a byte below 248, else a byte that tells how many bytes come behind it.
ghost use Rattle.std.specs.Prelude.{◌≡◌, ◌≤◌, ◌++◌, OnOk};
ghost use Rattle.packed_entry.specs.Packed.{packed_number, packed_optional, packed_flag};
ghost use Rattle.packed_entry.specs.Read.{Gives, optional_at, flag_at};
ghost use Rattle.packed_entry.specs.Typed.{FitsIfSome};

use crate::faults::Fault;
use crate::reader::Reader;
use osm_base::Memory;

/// A number that doesn't fit one byte. Apart, so that the code of one that does stays small.
#[inline(never)]
#[tactic(auto, unfolding(crate::specs::Packed::packed_number))]
fn put_wide(out: &mut Vec<u8>, number: u64) -> Result<(), Memory>
    requires { 248 ≤ number }
    ensures { OnOk result (out.new.items ≡ out.old.items ++ packed_number number) }
{
    if number < 0x1_0000 {
        out.push(248)?;
        out.extend_from_slice(&(number as u16).to_be_bytes())?;
    } else if number < 0x1_0000_0000 {
        out.push(249)?;
        out.extend_from_slice(&(number as u32).to_be_bytes())?;
    } else {
        out.push(250)?;
        out.extend_from_slice(&number.to_be_bytes())?;
    }
    Ok(())
}

#[inline(always)]
#[tactic(auto, unfolding(crate::specs::Packed::packed_number))]
pub(crate) fn put_number(out: &mut Vec<u8>, number: u64) -> Result<(), Memory>
    ensures { OnOk result (out.new.items ≡ out.old.items ++ packed_number number) }
{
    if number < 248 {
        out.push(number as u8)?;
        Ok(())
    } else {
        put_wide(out, number)
    }
}

// A number that may be left out, and a flag.

#[tactic(auto, unfolding(crate::specs::Packed::packed_optional))]
pub(crate) fn put_optional(out: &mut Vec<u8>, number: Option<u64>) -> Result<(), Memory>
    ensures bytes { OnOk result (out.new.items ≡ out.old.items ++ packed_optional number) }
    ensures typed { FitsIfSome number }
{
    match number {
        None => out.push(0)?,
        Some(number) => {
            out.push(1)?;
            put_number(out, number)?;
        }
    }
    Ok(())
}

#[tactic(auto, unfolding(crate::specs::Read::optional_at))]
pub(crate) fn optional(reader: &mut Reader<'_>) -> Result<Option<u64>, Fault>
    ensures { Gives (λ x. x) result (optional_at reader.old) reader.new }
{
    let first = reader.byte()?;
    if first == 0 {
        Ok(None)
    } else if first == 1 {
        let number = reader.number()?;
        Ok(Some(number))
    } else {
        Err(Fault::Malformed)
    }
}

#[tactic(auto, unfolding(crate::specs::Packed::packed_flag))]
pub(crate) fn put_flag(out: &mut Vec<u8>, flag: bool) -> Result<(), Memory>
    ensures { OnOk result (out.new.items ≡ out.old.items ++ packed_flag flag) }
{
    out.push(if flag { 1 } else { 0 })?;
    Ok(())
}

#[tactic(auto, unfolding(crate::specs::Read::flag_at))]
pub(crate) fn flag(reader: &mut Reader<'_>) -> Result<bool, Fault>
    ensures { Gives (λ x. x) result (flag_at reader.old) reader.new }
{
    let first = reader.byte()?;
    if first == 0 {
        Ok(false)
    } else if first == 1 {
        Ok(true)
    } else {
        Err(Fault::Malformed)
    }
}
