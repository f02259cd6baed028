// Numbers of C as those of a command, where they are in range.
ghost use Rattle.std.specs.Prelude.{◌≡◌, ◌<◌, ◌≤◌, SomeIff};
ghost use Rattle.gczone_c.specs.Calls.{comp_no, name_asked};

use crate::statuses;
use crate::told::{Answer, CELL, NOTHING, WRAPPER};
use gz_names::{CompNo, FIELD_LIMIT, GrayNo, Name, Reg, WeakNo, ZoneNo};

/// The register with this number, if there is one.
pub fn register(number: u32) -> Option<Reg>
    ensures { SomeIff result (number < 16) number }
{
    Reg::new(u8::try_from(number).ok()?)
}

/// The zone with this number, if there can be one.
pub fn zone(number: u32) -> Option<ZoneNo>
    ensures { SomeIff result (number < 64) number }
{
    ZoneNo::new(u8::try_from(number).ok()?)
}

/// The gray slot with this number, if there is one.
pub fn slot(number: u32) -> Option<GrayNo>
    ensures { SomeIff result (number < 64) number }
{
    GrayNo::new(u8::try_from(number).ok()?)
}

/// The weak slot with this number, if there is one.
pub fn weak_slot(number: u32) -> Option<WeakNo>
    ensures { SomeIff result (number < 64) number }
{
    WeakNo::new(u8::try_from(number).ok()?)
}

/// The compartment with this number, if there can be one.
pub fn compartment(number: u32) -> Option<CompNo>
    ensures { SomeIff result (number < 256) (comp_no number) }
{
    Some(CompNo(u8::try_from(number).ok()?))
}

/// The field with this number, if an object can have it.
pub fn field(number: u32) -> Option<u8>
    ensures { SomeIff result (number < 8) number }
{
    let index = u8::try_from(number).ok()?;
    if index < FIELD_LIMIT {
        Some(index)
    } else {
        None
    }
}

/// A number of fields, if an object can have that many.
pub fn field_count(number: u32) -> Option<u8>
    ensures { SomeIff result (number ≤ 8) number }
{
    let count = u8::try_from(number).ok()?;
    if count <= FIELD_LIMIT {
        Some(count)
    } else {
        None
    }
}

/// The name that C gives, if it gives one; else the status of the number that is out of range.
pub fn name(given: &Answer) -> Result<Option<Name>, u32>
    ensures { result ≡ name_asked given.now }
{
    match given.kind {
        NOTHING => Ok(None),
        CELL => Ok(Some(Name::Cell(given.number))),
        WRAPPER => match compartment(given.compartment) {
            Some(comp) => Ok(Some(Name::Wrap(comp, given.number))),
            None => Err(statuses::BAD_COMPARTMENT),
        },
        _ => Err(statuses::BAD_KIND),
    }
}
