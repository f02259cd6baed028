// The collector for C: a session behind a handle that C holds, and an export for each thing that it does.
//
// No export requires anything of its caller but what its types say: pointers that are not null and do
// not overlap, and a handle that is all zero or was left so by these functions. A number that is out
// of range has a status of its own, and nothing is done. An export that works on the session takes it
// out of the handle and puts it back, so that the work between is on a session of Rattle.
#![tactic(auto)]

mod asked;
mod handle;
mod held;
mod loose;
mod statuses;
mod told;

ghost use Rattle.std.specs.Prelude.{◌≡◌, ◌<◌, ◌≤◌, Err, None, Ok, Some};
ghost use Rattle.colour_defs.specs.Step.{HasFewFields};
ghost use Rattle.gz_names.specs.declared.commands.GraphCmd.TheVariants as cmd;
ghost use Rattle.gz_names.specs.declared.commands.WeakCmd.TheVariants as weak;
ghost use Rattle.slice_driver.specs.Pins.{LoadsIn, UnpinsIn};
ghost use Rattle.gczone_c.specs.Calls.{AdvanceDone, BeginDone, Does, DoesOrder, DoesWeak, DoesWeakOrder, Goes};
ghost use Rattle.gczone_c.specs.Calls.{GraysListed, IsClosed, IsRefused, IsUndone, LinesListed};
ghost use Rattle.gczone_c.specs.Calls.{NextGrayTold, Opens, PinDone, ResetDone, RootDone, ZoneCompacted, comp_no};
ghost use Rattle.gczone_c.specs.Calls.{name_asked};
ghost use Rattle.gczone_c.specs.Reports.{CountsTold, GrayTold, GroupTold, LineIsTold, LostTold, NameTold};
ghost use Rattle.gczone_c.specs.Reports.{ReportIsTold, RunningTold, UnitsLeftTold};

use gz_names::{GraphCmd, Reg, WeakCmd, ZoneNo, ZoneSet};
use handle::Gcz;
use held::Held;
use std::alloc::Global;
use told::{Answer, CompactedTold, Counts, LineTold, ReportTold, StepDone};

// Does a command on what a handle leads to.
fn command(alloc: Global, gcz: &mut Gcz, cmd: GraphCmd, answer: &mut Answer) -> u32
    requires fields { HasFewFields cmd }
    ensures done { Does cmd result gcz.old gcz.new answer.old answer.new }
{
    let Some(mut held) = gcz.take(alloc) else {
        return statuses::CLOSED;
    };
    let status = held.command(cmd, answer);
    gcz.put(alloc, held);
    status
}

// Does a command whose answer is no name.
fn order(alloc: Global, gcz: &mut Gcz, cmd: GraphCmd) -> u32
    requires fields { HasFewFields cmd }
    ensures done { DoesOrder cmd result gcz.old gcz.new }
{
    let mut answer = told::nothing();
    command(alloc, gcz, cmd, &mut answer)
}

// Does a command on weak slots and watched cells on what a handle leads to.
fn weak_command(alloc: Global, gcz: &mut Gcz, cmd: WeakCmd, answer: &mut Answer) -> u32
    ensures done { DoesWeak cmd result gcz.old gcz.new answer.old answer.new }
{
    let Some(mut held) = gcz.take(alloc) else {
        return statuses::CLOSED;
    };
    let status = held.weak_command(cmd, answer);
    gcz.put(alloc, held);
    status
}

// Does such a command whose answer is no name.
fn weak_order(alloc: Global, gcz: &mut Gcz, cmd: WeakCmd) -> u32
    ensures done { DoesWeakOrder cmd result gcz.old gcz.new }
{
    let mut answer = told::nothing();
    weak_command(alloc, gcz, cmd, &mut answer)
}

// Compacts a zone of what a handle leads to.
fn compact_zone(alloc: Global, gcz: &mut Gcz, zone: ZoneNo, done: &mut CompactedTold) -> u32
    ensures done { Goes (IsClosed result done.old done.new)
        (ZoneCompacted zone done.old done.new result) gcz.old gcz.new }
{
    let Some(mut held) = gcz.take(alloc) else {
        return statuses::CLOSED;
    };
    let status = held.compact(zone, done);
    gcz.put(alloc, held);
    status
}

// Pins what a register holds in what a handle leads to.
fn pin(alloc: Global, gcz: &mut Gcz, reg: Reg, root: &mut u64) -> u32
    ensures done { Goes (IsClosed result root.old root.new)
        (PinDone reg root.old root.new result) gcz.old gcz.new }
{
    let Some(mut held) = gcz.take(alloc) else {
        return statuses::CLOSED;
    };
    let status = held.pin(reg, root);
    gcz.put(alloc, held);
    status
}

// Has a register hold what a pinned root holds in what a handle leads to.
fn load(alloc: Global, gcz: &mut Gcz, reg: Reg, root: usize) -> u32
    ensures done { Goes (result ≡ 1) (RootDone (LoadsIn reg root) root result) gcz.old gcz.new }
{
    let Some(mut held) = gcz.take(alloc) else {
        return statuses::CLOSED;
    };
    let status = held.load(reg, root);
    gcz.put(alloc, held);
    status
}

/// The number of this interface. It changes with a signature, a struct or the meaning of a number.
#[unsafe(no_mangle)]
pub extern "C" fn gcz_interface() -> u32
    ensures { result ≡ 1 }
{
    1
}

/// Writes a status in plain words, as much as there is room for before a zero byte. Returns the
/// length of the whole text.
#[unsafe(no_mangle)]
pub extern "C" fn gcz_status_text(status: u32, room: &mut [u8]) -> usize {
    statuses::write_text(statuses::text(status), room)
}

/// Opens a handle that is closed, with an empty heap.
#[unsafe(no_mangle)]
pub extern "C" fn gcz_open(alloc: Global, gcz: &mut Gcz) -> u32
    ensures opened { Opens result gcz.old gcz.new }
{
    if let Some(held) = gcz.take(alloc) {
        gcz.put(alloc, held);
        return statuses::OPEN;
    }
    let Ok(held) = Held::new(alloc) else {
        return statuses::NO_MEMORY;
    };
    let Ok(held) = Box::new(alloc, held) else {
        return statuses::NO_MEMORY;
    };
    gcz.put(alloc, held);
    statuses::DONE
}

/// Closes a handle, if it is open, and frees all that it leads to.
#[unsafe(no_mangle)]
pub extern "C" fn gcz_close(alloc: Global, gcz: &mut Gcz)
    ensures { gcz.new.slot.held ≡ None }
{
    drop(gcz.take(alloc));
}

/// Makes the next zone.
#[unsafe(no_mangle)]
pub extern "C" fn gcz_zone(alloc: Global, gcz: &mut Gcz, answer: &mut Answer) -> u32
    ensures done { Does cmd.Zone result gcz.old gcz.new answer.old answer.new }
{
    command(alloc, gcz, GraphCmd::Zone, answer)
}

/// Makes the next compartment, in a zone.
#[unsafe(no_mangle)]
pub extern "C" fn gcz_comp(alloc: Global, gcz: &mut Gcz, zone: u32, answer: &mut Answer) -> u32
    ensures done { zone < 64 → Does (cmd.Comp zone) result gcz.old gcz.new answer.old answer.new }
    ensures zone { 64 ≤ zone → IsRefused 9 result gcz.old gcz.new answer.old answer.new }
{
    let Some(zone) = asked::zone(zone) else {
        return statuses::BAD_ZONE;
    };
    command(alloc, gcz, GraphCmd::Comp(zone), answer)
}

/// Makes an object with this many null fields, at most 8.
#[unsafe(no_mangle)]
pub extern "C" fn gcz_new(
    alloc: Global,
    gcz: &mut Gcz,
    reg: u32,
    comp: u32,
    fields: u32,
    answer: &mut Answer,
) -> u32
    ensures done { (reg < 16) × (comp < 256) × (fields ≤ 8)
        → Does (cmd.New reg (comp_no comp) fields) result gcz.old gcz.new answer.old answer.new }
    ensures reg { 16 ≤ reg → IsRefused 8 result gcz.old gcz.new answer.old answer.new }
    ensures comp { reg < 16 → 256 ≤ comp
        → IsRefused 10 result gcz.old gcz.new answer.old answer.new }
    ensures fields { reg < 16 → comp < 256 → 8 < fields
        → IsRefused 13 result gcz.old gcz.new answer.old answer.new }
{
    let Some(reg) = asked::register(reg) else {
        return statuses::BAD_REGISTER;
    };
    let Some(comp) = asked::compartment(comp) else {
        return statuses::BAD_COMPARTMENT;
    };
    let Some(fields) = asked::field_count(fields) else {
        return statuses::BAD_FIELD_COUNT;
    };
    command(alloc, gcz, GraphCmd::New(reg, comp, fields), answer)
}

/// Makes a weak map without entries.
#[unsafe(no_mangle)]
pub extern "C" fn gcz_map(
    alloc: Global,
    gcz: &mut Gcz,
    reg: u32,
    comp: u32,
    answer: &mut Answer,
) -> u32
    ensures done { (reg < 16) × (comp < 256)
        → Does (cmd.Map reg (comp_no comp)) result gcz.old gcz.new answer.old answer.new }
    ensures reg { 16 ≤ reg → IsRefused 8 result gcz.old gcz.new answer.old answer.new }
    ensures comp { reg < 16 → 256 ≤ comp
        → IsRefused 10 result gcz.old gcz.new answer.old answer.new }
{
    let Some(reg) = asked::register(reg) else {
        return statuses::BAD_REGISTER;
    };
    let Some(comp) = asked::compartment(comp) else {
        return statuses::BAD_COMPARTMENT;
    };
    command(alloc, gcz, GraphCmd::Map(reg, comp), answer)
}

/// A register holds what a field of another one's object holds.
#[unsafe(no_mangle)]
pub extern "C" fn gcz_get(
    alloc: Global,
    gcz: &mut Gcz,
    reg: u32,
    from: u32,
    field: u32,
    answer: &mut Answer,
) -> u32
    ensures done { (reg < 16) × (from < 16) × (field < 8)
        → Does (cmd.Get reg from field) result gcz.old gcz.new answer.old answer.new }
    ensures reg { 16 ≤ reg → IsRefused 8 result gcz.old gcz.new answer.old answer.new }
    ensures from { reg < 16 → 16 ≤ from → IsRefused 8 result gcz.old gcz.new answer.old answer.new }
    ensures field { reg < 16 → from < 16 → 8 ≤ field
        → IsRefused 12 result gcz.old gcz.new answer.old answer.new }
{
    let Some(reg) = asked::register(reg) else {
        return statuses::BAD_REGISTER;
    };
    let Some(from) = asked::register(from) else {
        return statuses::BAD_REGISTER;
    };
    let Some(field) = asked::field(field) else {
        return statuses::BAD_FIELD;
    };
    command(alloc, gcz, GraphCmd::Get(reg, from, field), answer)
}

/// A field of a register's object holds what another one holds.
#[unsafe(no_mangle)]
pub extern "C" fn gcz_set(alloc: Global, gcz: &mut Gcz, reg: u32, field: u32, from: u32) -> u32
    ensures done { (reg < 16) × (field < 8) × (from < 16)
        → DoesOrder (cmd.Set reg field (Some from)) result gcz.old gcz.new }
    ensures reg { 16 ≤ reg → IsUndone 8 result gcz.old gcz.new }
    ensures field { reg < 16 → 8 ≤ field → IsUndone 12 result gcz.old gcz.new }
    ensures from { reg < 16 → field < 8 → 16 ≤ from → IsUndone 8 result gcz.old gcz.new }
{
    let Some(reg) = asked::register(reg) else {
        return statuses::BAD_REGISTER;
    };
    let Some(field) = asked::field(field) else {
        return statuses::BAD_FIELD;
    };
    let Some(from) = asked::register(from) else {
        return statuses::BAD_REGISTER;
    };
    order(alloc, gcz, GraphCmd::Set(reg, field, Some(from)))
}

/// A field of a register's object holds null.
#[unsafe(no_mangle)]
pub extern "C" fn gcz_clear(alloc: Global, gcz: &mut Gcz, reg: u32, field: u32) -> u32
    ensures done { (reg < 16) × (field < 8)
        → DoesOrder (cmd.Set reg field None) result gcz.old gcz.new }
    ensures reg { 16 ≤ reg → IsUndone 8 result gcz.old gcz.new }
    ensures field { reg < 16 → 8 ≤ field → IsUndone 12 result gcz.old gcz.new }
{
    let Some(reg) = asked::register(reg) else {
        return statuses::BAD_REGISTER;
    };
    let Some(field) = asked::field(field) else {
        return statuses::BAD_FIELD;
    };
    order(alloc, gcz, GraphCmd::Set(reg, field, None))
}

/// A register holds what another one holds.
#[unsafe(no_mangle)]
pub extern "C" fn gcz_copy(alloc: Global, gcz: &mut Gcz, reg: u32, from: u32) -> u32
    ensures done { (reg < 16) × (from < 16) → DoesOrder (cmd.Copy reg from) result gcz.old gcz.new }
    ensures reg { 16 ≤ reg → IsUndone 8 result gcz.old gcz.new }
    ensures from { reg < 16 → 16 ≤ from → IsUndone 8 result gcz.old gcz.new }
{
    let Some(reg) = asked::register(reg) else {
        return statuses::BAD_REGISTER;
    };
    let Some(from) = asked::register(from) else {
        return statuses::BAD_REGISTER;
    };
    order(alloc, gcz, GraphCmd::Copy(reg, from))
}

/// A register becomes empty.
#[unsafe(no_mangle)]
pub extern "C" fn gcz_drop(alloc: Global, gcz: &mut Gcz, reg: u32) -> u32
    ensures done { reg < 16 → DoesOrder (cmd.Drop reg) result gcz.old gcz.new }
    ensures reg { 16 ≤ reg → IsUndone 8 result gcz.old gcz.new }
{
    let Some(reg) = asked::register(reg) else {
        return statuses::BAD_REGISTER;
    };
    order(alloc, gcz, GraphCmd::Drop(reg))
}

/// A register holds another one's cell as a compartment sees it.
#[unsafe(no_mangle)]
pub extern "C" fn gcz_wrap(
    alloc: Global,
    gcz: &mut Gcz,
    reg: u32,
    from: u32,
    comp: u32,
    answer: &mut Answer,
) -> u32
    ensures done { (reg < 16) × (from < 16) × (comp < 256)
        → Does (cmd.Wrap reg from (comp_no comp)) result gcz.old gcz.new answer.old answer.new }
    ensures reg { 16 ≤ reg → IsRefused 8 result gcz.old gcz.new answer.old answer.new }
    ensures from { reg < 16 → 16 ≤ from → IsRefused 8 result gcz.old gcz.new answer.old answer.new }
    ensures comp { reg < 16 → from < 16 → 256 ≤ comp
        → IsRefused 10 result gcz.old gcz.new answer.old answer.new }
{
    let Some(reg) = asked::register(reg) else {
        return statuses::BAD_REGISTER;
    };
    let Some(from) = asked::register(from) else {
        return statuses::BAD_REGISTER;
    };
    let Some(comp) = asked::compartment(comp) else {
        return statuses::BAD_COMPARTMENT;
    };
    command(alloc, gcz, GraphCmd::Wrap(reg, from, comp), answer)
}

/// A register holds the target of another one's wrapper.
#[unsafe(no_mangle)]
pub extern "C" fn gcz_unwrap(
    alloc: Global,
    gcz: &mut Gcz,
    reg: u32,
    from: u32,
    answer: &mut Answer,
) -> u32
    ensures done { (reg < 16) × (from < 16)
        → Does (cmd.Unwrap reg from) result gcz.old gcz.new answer.old answer.new }
    ensures reg { 16 ≤ reg → IsRefused 8 result gcz.old gcz.new answer.old answer.new }
    ensures from { reg < 16 → 16 ≤ from → IsRefused 8 result gcz.old gcz.new answer.old answer.new }
{
    let Some(reg) = asked::register(reg) else {
        return statuses::BAD_REGISTER;
    };
    let Some(from) = asked::register(from) else {
        return statuses::BAD_REGISTER;
    };
    command(alloc, gcz, GraphCmd::Unwrap(reg, from), answer)
}

/// A gray slot holds what a register holds.
#[unsafe(no_mangle)]
pub extern "C" fn gcz_hold(alloc: Global, gcz: &mut Gcz, slot: u32, reg: u32) -> u32
    ensures done { (slot < 64) × (reg < 16) → DoesOrder (cmd.Hold slot reg) result gcz.old gcz.new }
    ensures slot { 64 ≤ slot → IsUndone 11 result gcz.old gcz.new }
    ensures reg { slot < 64 → 16 ≤ reg → IsUndone 8 result gcz.old gcz.new }
{
    let Some(slot) = asked::slot(slot) else {
        return statuses::BAD_SLOT;
    };
    let Some(reg) = asked::register(reg) else {
        return statuses::BAD_REGISTER;
    };
    order(alloc, gcz, GraphCmd::Hold(slot, reg))
}

/// A gray slot becomes empty.
#[unsafe(no_mangle)]
pub extern "C" fn gcz_release(alloc: Global, gcz: &mut Gcz, slot: u32) -> u32
    ensures done { slot < 64 → DoesOrder (cmd.Release slot) result gcz.old gcz.new }
    ensures slot { 64 ≤ slot → IsUndone 11 result gcz.old gcz.new }
{
    let Some(slot) = asked::slot(slot) else {
        return statuses::BAD_SLOT;
    };
    order(alloc, gcz, GraphCmd::Release(slot))
}

/// A register holds what a gray slot holds, exposed.
#[unsafe(no_mangle)]
pub extern "C" fn gcz_expose(
    alloc: Global,
    gcz: &mut Gcz,
    reg: u32,
    slot: u32,
    answer: &mut Answer,
) -> u32
    ensures done { (reg < 16) × (slot < 64)
        → Does (cmd.Expose reg slot) result gcz.old gcz.new answer.old answer.new }
    ensures reg { 16 ≤ reg → IsRefused 8 result gcz.old gcz.new answer.old answer.new }
    ensures slot { reg < 16 → 64 ≤ slot
        → IsRefused 11 result gcz.old gcz.new answer.old answer.new }
{
    let Some(reg) = asked::register(reg) else {
        return statuses::BAD_REGISTER;
    };
    let Some(slot) = asked::slot(slot) else {
        return statuses::BAD_SLOT;
    };
    command(alloc, gcz, GraphCmd::Expose(reg, slot), answer)
}

/// The entry of a map's key has a value.
#[unsafe(no_mangle)]
pub extern "C" fn gcz_put(alloc: Global, gcz: &mut Gcz, map: u32, key: u32, value: u32) -> u32
    ensures done { (map < 16) × (key < 16) × (value < 16)
        → DoesOrder (cmd.Put map key value) result gcz.old gcz.new }
    ensures map { 16 ≤ map → IsUndone 8 result gcz.old gcz.new }
    ensures key { map < 16 → 16 ≤ key → IsUndone 8 result gcz.old gcz.new }
    ensures value { map < 16 → key < 16 → 16 ≤ value → IsUndone 8 result gcz.old gcz.new }
{
    let Some(map) = asked::register(map) else {
        return statuses::BAD_REGISTER;
    };
    let Some(key) = asked::register(key) else {
        return statuses::BAD_REGISTER;
    };
    let Some(value) = asked::register(value) else {
        return statuses::BAD_REGISTER;
    };
    order(alloc, gcz, GraphCmd::Put(map, key, value))
}

/// The entry of a map's key is removed.
#[unsafe(no_mangle)]
pub extern "C" fn gcz_del(alloc: Global, gcz: &mut Gcz, map: u32, key: u32) -> u32
    ensures done { (map < 16) × (key < 16) → DoesOrder (cmd.Del map key) result gcz.old gcz.new }
    ensures map { 16 ≤ map → IsUndone 8 result gcz.old gcz.new }
    ensures key { map < 16 → 16 ≤ key → IsUndone 8 result gcz.old gcz.new }
{
    let Some(map) = asked::register(map) else {
        return statuses::BAD_REGISTER;
    };
    let Some(key) = asked::register(key) else {
        return statuses::BAD_REGISTER;
    };
    order(alloc, gcz, GraphCmd::Del(map, key))
}

/// A register holds the value of a map's key.
#[unsafe(no_mangle)]
pub extern "C" fn gcz_find(
    alloc: Global,
    gcz: &mut Gcz,
    reg: u32,
    map: u32,
    key: u32,
    answer: &mut Answer,
) -> u32
    ensures done { (reg < 16) × (map < 16) × (key < 16)
        → Does (cmd.Find reg map key) result gcz.old gcz.new answer.old answer.new }
    ensures reg { 16 ≤ reg → IsRefused 8 result gcz.old gcz.new answer.old answer.new }
    ensures map { reg < 16 → 16 ≤ map → IsRefused 8 result gcz.old gcz.new answer.old answer.new }
    ensures key { reg < 16 → map < 16 → 16 ≤ key
        → IsRefused 8 result gcz.old gcz.new answer.old answer.new }
{
    let Some(reg) = asked::register(reg) else {
        return statuses::BAD_REGISTER;
    };
    let Some(map) = asked::register(map) else {
        return statuses::BAD_REGISTER;
    };
    let Some(key) = asked::register(key) else {
        return statuses::BAD_REGISTER;
    };
    command(alloc, gcz, GraphCmd::Find(reg, map, key), answer)
}

/// A weak slot names what a register holds, or becomes empty. It keeps no cell.
#[unsafe(no_mangle)]
pub extern "C" fn gcz_weaken(alloc: Global, gcz: &mut Gcz, slot: u32, reg: u32) -> u32
    ensures done { (slot < 64) × (reg < 16)
        → DoesWeakOrder (weak.Weaken slot reg) result gcz.old gcz.new }
    ensures slot { 64 ≤ slot → IsUndone 15 result gcz.old gcz.new }
    ensures reg { slot < 64 → 16 ≤ reg → IsUndone 8 result gcz.old gcz.new }
{
    let Some(slot) = asked::weak_slot(slot) else {
        return statuses::BAD_WEAK_SLOT;
    };
    let Some(reg) = asked::register(reg) else {
        return statuses::BAD_REGISTER;
    };
    weak_order(alloc, gcz, WeakCmd::Weaken(slot, reg))
}

/// A register holds what a weak slot names, exposed, or becomes empty.
#[unsafe(no_mangle)]
pub extern "C" fn gcz_deref(
    alloc: Global,
    gcz: &mut Gcz,
    reg: u32,
    slot: u32,
    answer: &mut Answer,
) -> u32
    ensures done { (reg < 16) × (slot < 64)
        → DoesWeak (weak.Deref reg slot) result gcz.old gcz.new answer.old answer.new }
    ensures reg { 16 ≤ reg → IsRefused 8 result gcz.old gcz.new answer.old answer.new }
    ensures slot { reg < 16 → 64 ≤ slot
        → IsRefused 15 result gcz.old gcz.new answer.old answer.new }
{
    let Some(reg) = asked::register(reg) else {
        return statuses::BAD_REGISTER;
    };
    let Some(slot) = asked::weak_slot(slot) else {
        return statuses::BAD_WEAK_SLOT;
    };
    weak_command(alloc, gcz, WeakCmd::Deref(reg, slot), answer)
}

/// What a register holds is watched: the report of the group's end with which it dies tells its name, once.
#[unsafe(no_mangle)]
pub extern "C" fn gcz_watch(alloc: Global, gcz: &mut Gcz, reg: u32) -> u32
    ensures done { reg < 16 → DoesWeakOrder (weak.Watch reg) result gcz.old gcz.new }
    ensures reg { 16 ≤ reg → IsUndone 8 result gcz.old gcz.new }
{
    let Some(reg) = asked::register(reg) else {
        return statuses::BAD_REGISTER;
    };
    weak_order(alloc, gcz, WeakCmd::Watch(reg))
}

/// What a register holds is watched no longer.
#[unsafe(no_mangle)]
pub extern "C" fn gcz_unwatch(alloc: Global, gcz: &mut Gcz, reg: u32) -> u32
    ensures done { reg < 16 → DoesWeakOrder (weak.Unwatch reg) result gcz.old gcz.new }
    ensures reg { 16 ≤ reg → IsUndone 8 result gcz.old gcz.new }
{
    let Some(reg) = asked::register(reg) else {
        return statuses::BAD_REGISTER;
    };
    weak_order(alloc, gcz, WeakCmd::Unwatch(reg))
}

/// A new pinned root holds what a register holds, and its number is written.
#[unsafe(no_mangle)]
pub extern "C" fn gcz_pin(alloc: Global, gcz: &mut Gcz, reg: u32, root: &mut u64) -> u32
    ensures done { reg < 16 → Goes (IsClosed result root.old root.new)
        (PinDone reg root.old root.new result) gcz.old gcz.new }
    ensures reg { 16 ≤ reg → IsRefused 8 result gcz.old gcz.new root.old root.new }
{
    let Some(reg) = asked::register(reg) else {
        return statuses::BAD_REGISTER;
    };
    pin(alloc, gcz, reg, root)
}

/// A register holds what a pinned root holds.
#[unsafe(no_mangle)]
pub extern "C" fn gcz_load(alloc: Global, gcz: &mut Gcz, reg: u32, root: u64) -> u32
    ensures done { reg < 16 → Goes (result ≡ 1) (RootDone (LoadsIn reg root) root result) gcz.old gcz.new }
    ensures reg { 16 ≤ reg → IsUndone 8 result gcz.old gcz.new }
{
    let Some(reg) = asked::register(reg) else {
        return statuses::BAD_REGISTER;
    };
    load(alloc, gcz, reg, root as usize)
}

/// A pinned root holds nothing any more, and its number may be given again.
#[unsafe(no_mangle)]
pub extern "C" fn gcz_unpin(alloc: Global, gcz: &mut Gcz, root: u64) -> u32
    ensures done { Goes (result ≡ 1) (RootDone (UnpinsIn root) root result) gcz.old gcz.new }
{
    let Some(mut held) = gcz.take(alloc) else {
        return statuses::CLOSED;
    };
    let status = held.unpin(root as usize);
    gcz.put(alloc, held);
    status
}

/// Moves the cells of a zone together, and gives up the arenas that this empties.
#[unsafe(no_mangle)]
pub extern "C" fn gcz_compact(
    alloc: Global,
    gcz: &mut Gcz,
    zone: u32,
    done: &mut CompactedTold,
) -> u32
    ensures done { zone < 64 → Goes (IsClosed result done.old done.new)
        (ZoneCompacted zone done.old done.new result) gcz.old gcz.new }
    ensures zone { 64 ≤ zone → IsRefused 9 result gcz.old gcz.new done.old done.new }
{
    let Some(zone) = asked::zone(zone) else {
        return statuses::BAD_ZONE;
    };
    compact_zone(alloc, gcz, zone, done)
}

/// Begins a collection of the zones whose bits are set.
#[unsafe(no_mangle)]
pub extern "C" fn gcz_begin(alloc: Global, gcz: &mut Gcz, zones: u64) -> u32
    ensures done { Goes (result ≡ 1) (BeginDone zones result) gcz.old gcz.new }
{
    let Some(mut held) = gcz.take(alloc) else {
        return statuses::CLOSED;
    };
    let status = held.begin(ZoneSet { bits: zones });
    gcz.put(alloc, held);
    status
}

/// Does a step of the collection that runs, of at most `limit` units.
#[unsafe(no_mangle)]
pub extern "C" fn gcz_advance(alloc: Global, gcz: &mut Gcz, limit: u64, done: &mut StepDone) -> u32
    ensures done { Goes (IsClosed result done.old done.new)
        (AdvanceDone limit done.old done.new result) gcz.old gcz.new }
{
    let Some(mut held) = gcz.take(alloc) else {
        return statuses::CLOSED;
    };
    let status = held.advance(limit, done);
    gcz.put(alloc, held);
    status
}

/// Does a step of giving up the collection that runs: takes in an arena that is out, or gives the collection up.
#[unsafe(no_mangle)]
pub extern "C" fn gcz_reset(alloc: Global, gcz: &mut Gcz, done: &mut StepDone) -> u32
    ensures done { Goes (IsClosed result done.old done.new) (ResetDone done.new result) gcz.old gcz.new }
{
    let Some(mut held) = gcz.take(alloc) else {
        return statuses::CLOSED;
    };
    let status = held.reset(done);
    gcz.put(alloc, held);
    status
}

/// Writes whether a collection runs.
#[unsafe(no_mangle)]
pub extern "C" fn gcz_running(alloc: Global, gcz: &mut Gcz, running: &mut bool) -> u32
    ensures done { Goes (IsClosed result running.old running.new)
        (RunningTold running.new result) gcz.old gcz.new }
{
    let Some(held) = gcz.take(alloc) else {
        return statuses::CLOSED;
    };
    *running = held.running();
    let status = statuses::DONE;
    gcz.put(alloc, held);
    status
}

/// Writes a bound on the units that the collection that runs may still take while no command comes, or 0.
#[unsafe(no_mangle)]
pub extern "C" fn gcz_units_left(alloc: Global, gcz: &mut Gcz, units: &mut u64) -> u32
    ensures done { Goes (IsClosed result units.old units.new)
        (UnitsLeftTold units.new result) gcz.old gcz.new }
{
    let Some(held) = gcz.take(alloc) else {
        return statuses::CLOSED;
    };
    *units = held.units_left();
    let status = statuses::DONE;
    gcz.put(alloc, held);
    status
}

/// Writes how many cells, objects and maps, weak entries, bytes and arenas there are.
#[unsafe(no_mangle)]
pub extern "C" fn gcz_counts(alloc: Global, gcz: &mut Gcz, counts: &mut Counts) -> u32
    ensures done { Goes (IsClosed result counts.old counts.new)
        (CountsTold counts.new result) gcz.old gcz.new }
{
    let Some(held) = gcz.take(alloc) else {
        return statuses::CLOSED;
    };
    *counts = held.counts();
    let status = statuses::DONE;
    gcz.put(alloc, held);
    status
}

/// Writes what the last report is about, and how many groups or names it lists.
#[unsafe(no_mangle)]
pub extern "C" fn gcz_report(alloc: Global, gcz: &mut Gcz, told: &mut ReportTold) -> u32
    ensures done { Goes (IsClosed result told.old told.new)
        (ReportIsTold told.old told.new result) gcz.old gcz.new }
{
    let Some(held) = gcz.take(alloc) else {
        return statuses::CLOSED;
    };
    let status = held.tell_report(told);
    gcz.put(alloc, held);
    status
}

/// Writes a name of the last report, by its place in the list.
#[unsafe(no_mangle)]
pub extern "C" fn gcz_report_name(
    alloc: Global,
    gcz: &mut Gcz,
    index: usize,
    name: &mut Answer,
) -> u32
    ensures done { Goes (IsClosed result name.old name.new)
        (NameTold index name.old name.new result) gcz.old gcz.new }
{
    let Some(held) = gcz.take(alloc) else {
        return statuses::CLOSED;
    };
    let status = told::tell_name(held.reported_name(index), name);
    gcz.put(alloc, held);
    status
}

/// Writes the name of a watched cell that died with the group whose end is the last report, by its place in the
/// list.
#[unsafe(no_mangle)]
pub extern "C" fn gcz_report_lost(
    alloc: Global,
    gcz: &mut Gcz,
    index: usize,
    name: &mut Answer,
) -> u32
    ensures done { Goes (IsClosed result name.old name.new)
        (LostTold index name.old name.new result) gcz.old gcz.new }
{
    let Some(held) = gcz.take(alloc) else {
        return statuses::CLOSED;
    };
    let status = told::tell_name(held.lost_name(index), name);
    gcz.put(alloc, held);
    status
}

/// Writes the zones of a group of the last report, by its place in the list: a bit a zone.
#[unsafe(no_mangle)]
pub extern "C" fn gcz_report_group(
    alloc: Global,
    gcz: &mut Gcz,
    index: usize,
    zones: &mut u64,
) -> u32
    ensures done { Goes (IsClosed result zones.old zones.new)
        (GroupTold index zones.old zones.new result) gcz.old gcz.new }
{
    let Some(held) = gcz.take(alloc) else {
        return statuses::CLOSED;
    };
    let status = told::tell_group(held.reported_group(index), zones);
    gcz.put(alloc, held);
    status
}

/// Lists the gray names, and writes how many there are.
#[unsafe(no_mangle)]
pub extern "C" fn gcz_grays(alloc: Global, gcz: &mut Gcz, count: &mut usize) -> u32
    ensures done { Goes (IsClosed result count.old count.new)
        (GraysListed count.old count.new result) gcz.old gcz.new }
{
    let Some(mut held) = gcz.take(alloc) else {
        return statuses::CLOSED;
    };
    let status = held.list_grays(count);
    gcz.put(alloc, held);
    status
}

/// Writes a gray name of the list that was made last, by its place.
#[unsafe(no_mangle)]
pub extern "C" fn gcz_gray(alloc: Global, gcz: &mut Gcz, index: usize, name: &mut Answer) -> u32
    ensures done { Goes (IsClosed result name.old name.new)
        (GrayTold index name.old name.new result) gcz.old gcz.new }
{
    let Some(held) = gcz.take(alloc) else {
        return statuses::CLOSED;
    };
    let status = told::tell_name(held.gray(index), name);
    gcz.put(alloc, held);
    status
}

/// Writes over a name the first gray name behind it; over no name the first of all.
#[unsafe(no_mangle)]
pub extern "C" fn gcz_next_gray(alloc: Global, gcz: &mut Gcz, name: &mut Answer) -> u32
    ensures done { (after : _) → name_asked name.old ≡ Ok after
        → Goes (IsClosed result name.old name.new)
        (NextGrayTold after name.old name.new result) gcz.old gcz.new }
    ensures name { (fault : _) → name_asked name.old ≡ Err fault
        → IsRefused fault result gcz.old gcz.new name.old name.new }
{
    let after = match asked::name(name) {
        Ok(after) => after,
        Err(fault) => return fault,
    };
    let Some(mut held) = gcz.take(alloc) else {
        return statuses::CLOSED;
    };
    let status = held.next_gray(after, name);
    gcz.put(alloc, held);
    status
}

/// Lists the lines of a dump of the heap, and writes how many there are.
#[unsafe(no_mangle)]
pub extern "C" fn gcz_dump(alloc: Global, gcz: &mut Gcz, count: &mut usize) -> u32
    ensures done { Goes (IsClosed result count.old count.new)
        (LinesListed count.old count.new result) gcz.old gcz.new }
{
    let Some(mut held) = gcz.take(alloc) else {
        return statuses::CLOSED;
    };
    let status = held.list_lines(count);
    gcz.put(alloc, held);
    status
}

/// Writes a line of the dump that was made last, by its place.
#[unsafe(no_mangle)]
pub extern "C" fn gcz_dump_line(
    alloc: Global,
    gcz: &mut Gcz,
    index: usize,
    line: &mut LineTold,
) -> u32
    ensures done { Goes (IsClosed result line.old line.new)
        (LineIsTold index line.old line.new result) gcz.old gcz.new }
{
    let Some(held) = gcz.take(alloc) else {
        return statuses::CLOSED;
    };
    let status = told::tell_line(held.line(index), line);
    gcz.put(alloc, held);
    status
}
