// A list of places for each zone.
ghost use Rattle.std.specs.Prelude.{◌≡◌, ◌≤◌, ◌<◌, ◌+◌, ◌^◌, ◌++◌, ℕ, length, replicate, [], slice_index, IfOk, IfSome};
ghost use Rattle.std.specs.Prelude.{IfNone, OnOk, OnErr, sum_by};
ghost use Rattle.gz_names.specs.Zones.{HasZone};
ghost use Rattle.roots.specs.Buffers.{buffer_at, places_in, count_in, put_at, put_all, lists_of, capacities_of};
ghost use Rattle.roots.specs.Buffers.{HasRoom, IsWaiting};

use gz_names::{Place, ZoneNo, ZoneSet};
use std::alloc::{AllocError, Global};

// Empty buffers, one a zone.
pub(crate) fn new_buffers(alloc: Global) -> Result<Vec<Vec<Place>>, AllocError>
    ensures { IfOk result (λ made. lists_of made.items ≡ replicate 64 []) }
{
    let mut buffers = Vec::new(alloc);
    for _i in 0..64u8 {
        buffers.push(Vec::new(alloc))?;
    }
    Ok(buffers)
}

// Puts each place into its zone's buffer. All memory is taken before the first is put in.
pub(crate) fn put_both(
    buffers: &mut [Vec<Place>],
    waiting: &mut ZoneSet,
    slots: &[(ZoneNo, Place)],
    wrappers: &[(ZoneNo, Place)],
) -> Result<(), AllocError>
    requires zones { length buffers.old ≡ 64 }
    requires waiting { IsWaiting (lists_of buffers.old) waiting.old.bits }
    ensures put { OnOk result (lists_of buffers.new
        ≡ put_all (put_all (lists_of buffers.old) slots.now) wrappers.now) }
    ensures zones { OnOk result ((z : ℕ) → z < 64 → buffer_at (lists_of buffers.new) z
        ≡ buffer_at (lists_of buffers.old) z
        ++ (places_in z slots.now ++ places_in z wrappers.now)) }
    ensures count { OnOk result (sum_by length (lists_of buffers.new)
        ≡ sum_by length (lists_of buffers.old) + (length slots.now + length wrappers.now)) }
    ensures err { OnErr result (lists_of buffers.new ≡ lists_of buffers.old) }
    ensures waiting { IsWaiting (lists_of buffers.new) waiting.new.bits }
    ensures waiting_err { OnErr result (waiting.new ≡ waiting.old) }
{
    reserve_all(buffers, slots, wrappers)?;
    put_items(buffers, waiting, slots);
    put_items(buffers, waiting, wrappers);
    Ok(())
}

// Counts the places of each zone, and notes the zones of which there are any.
fn count_items(counts: &mut [usize; 64], counted: &mut ZoneSet, items: &[(ZoneNo, Place)])
    requires { (z : ℕ) → z < 64 → slice_index counts.old z < 2 ^ 63 }
    ensures counts { (z : ℕ) → z < 64
        → slice_index counts.new z ≡ slice_index counts.old z + count_in z items.now }
    ensures few { (z : ℕ) → z < 64 → slice_index counts.new z < slice_index counts.old z + 2 ^ 63 }
    ensures kept { (z : ℕ) → HasZone counted.old.bits z → HasZone counted.new.bits z }
    ensures counted { (z : ℕ) → ¬ HasZone counted.new.bits z → count_in z items.now ≡ 0 }
{
    for (zone, _) in items {
        counts[zone.index() as usize] += 1;
        counted.insert(*zone);
    }
}

// Takes memory for this number of places more in each zone's buffer.
fn reserve_all(
    buffers: &mut [Vec<Place>],
    slots: &[(ZoneNo, Place)],
    wrappers: &[(ZoneNo, Place)],
) -> Result<(), AllocError>
    requires { length buffers.old ≡ 64 }
    ensures same { lists_of buffers.new ≡ lists_of buffers.old }
    ensures room { OnOk result (HasRoom (lists_of buffers.new) (capacities_of buffers.new)
        (λ z. count_in z slots.now + count_in z wrappers.now)) }
{
    let mut counts = [0usize; 64];
    let mut counted = ZoneSet::new();
    count_items(&mut counts, &mut counted, slots);
    count_items(&mut counts, &mut counted, wrappers);
    reserve_counted(buffers, counted, &counts)
}

// Takes memory for this number of places more in the buffers of some zones.
fn reserve_counted(
    buffers: &mut [Vec<Place>],
    zones: ZoneSet,
    counts: &[usize; 64],
) -> Result<(), AllocError>
    requires zones { length buffers.old ≡ 64 }
    requires others { (z : ℕ) → z < 64 → ¬ HasZone zones.bits z → slice_index counts.now z ≡ 0 }
    ensures same { lists_of buffers.new ≡ lists_of buffers.old }
    ensures room { OnOk result (HasRoom (lists_of buffers.new) (capacities_of buffers.new)
        (λ z. slice_index counts.now z)) }
{
    let mut left = zones;
    while let Some(zone) = left.first() {
        let at = zone.index() as usize;
        buffers[at].reserve(counts[at])?;
        left.remove(zone);
    }
    Ok(())
}

// Puts each place into its zone's buffer, which has room for it.
fn put_items(buffers: &mut [Vec<Place>], waiting: &mut ZoneSet, items: &[(ZoneNo, Place)])
    requires zones { length buffers.old ≡ 64 }
    requires room { HasRoom (lists_of buffers.old) (capacities_of buffers.old)
        (λ z. count_in z items.now) }
    requires waiting { IsWaiting (lists_of buffers.old) waiting.old.bits }
    ensures put { lists_of buffers.new ≡ put_all (lists_of buffers.old) items.now }
    ensures count { sum_by length (lists_of buffers.new)
        ≡ sum_by length (lists_of buffers.old) + length items.now }
    ensures room { capacities_of buffers.new ≡ capacities_of buffers.old }
    ensures waiting { IsWaiting (lists_of buffers.new) waiting.new.bits }
{
    let mut noted = *waiting;
    for (zone, place) in items {
        buffers[zone.index() as usize].push_reserved(*place);
        noted.insert(*zone);
    }
    *waiting = noted;
}

// Takes the last place out of a zone's buffer.
pub(crate) fn take_item(
    buffers: &mut [Vec<Place>],
    waiting: &mut ZoneSet,
    zone: ZoneNo,
) -> Option<Place>
    requires zones { length buffers.old ≡ 64 }
    requires waiting { IsWaiting (lists_of buffers.old) waiting.old.bits }
    ensures some { IfSome result
        (λ place. lists_of buffers.old ≡ put_at (lists_of buffers.new) zone place) }
    ensures none { IfNone result ((buffer_at (lists_of buffers.old) zone ≡ [])
        × (lists_of buffers.new ≡ lists_of buffers.old)) }
    ensures waiting { IsWaiting (lists_of buffers.new) waiting.new.bits }
{
    let at = zone.index() as usize;
    let place = buffers[at].pop();
    if buffers[at].is_empty() {
        waiting.remove(zone);
    }
    place
}

// Empties the buffers of the zones for which something waits.
pub(crate) fn clear_waiting(buffers: &mut [Vec<Place>], waiting: &mut ZoneSet)
    requires zones { length buffers.old ≡ 64 }
    requires waiting { IsWaiting (lists_of buffers.old) waiting.old.bits }
    ensures empty { lists_of buffers.new ≡ replicate 64 [] }
    ensures waiting { IsWaiting (lists_of buffers.new) waiting.new.bits }
{
    let mut left = *waiting;
    while let Some(zone) = left.first() {
        buffers[zone.index() as usize].clear();
        left.remove(zone);
    }
    *waiting = left;
}

// How many places all buffers hold.
pub(crate) fn count_waiting(buffers: &[Vec<Place>]) -> usize
    requires { sum_by length (lists_of buffers.now) < 2 ^ 63 }
    ensures { result ≡ sum_by length (lists_of buffers.now) }
{
    let mut count = 0;
    for buffer in buffers {
        count += buffer.len();
    }
    count
}
