// The end of a group, and taking arenas in.
ghost use Rattle.std.specs.Prelude.{◌≡◌, ◌<◌, ◌≤◌, ◌↔◌, ◌++◌, ℕ, List, Option, None, Some, true, IsSomeAnd, IfOk};
ghost use Rattle.std.specs.Prelude.{Contains, IfSome, IfNone, OnErr, OnOk, is_some, length, slice_get};
ghost use Rattle.std.specs.Int.{bit_at};
ghost use Rattle.gz_names.specs.Zones.{HasZone};
ghost use Rattle.std.specs.List.Sorted.{IsPermutation, IsSorted};
ghost use Rattle.gz_names.specs.Order.{name_cmp};
ghost use Rattle.gz_names.specs.declared.names.Name.{Name as AName};
ghost use Rattle.gz_names.specs.declared.numbers.Place.{Place as APlace};
ghost use Rattle.gz_names.specs.declared.replies.Report.TheVariants as AReport;
ghost use Rattle.gz_names.specs.declared.zone_sets.ZoneSet.{ZoneSet as AZoneSet};
ghost use Rattle.cell_bits.specs.declared.bits.Bits.{Bits as ABits};
ghost use Rattle.arena_table.specs.Slots.{IsWithin, alloc_word_of};
ghost use Rattle.colour_defs.specs.Ends.{Lists};
ghost use Rattle.heap_core.specs.Shape.{IsPresent, is_owned, name_at, out_of};
ghost use Rattle.heap_core.specs.Sweeping.{with_taken};
ghost use Rattle.barriers.specs.Colours.{IsGray};
ghost use Rattle.slice_driver.specs.Advances.{MayTakeIn, TakesIn};
ghost use Rattle.slice_driver.specs.Advancing.{EndsSweeping};
ghost use Rattle.slice_driver.specs.Grays.{grays_below, grays_up_to};
ghost use Rattle.slice_driver.specs.GroupEnd.{DieWithOwners, IsReady};
ghost use Rattle.slice_driver.specs.HandingOut.{HandsOut};
ghost use Rattle.slice_driver.specs.Sweeping.{AreFreed};
ghost use Rattle.slice_driver.specs.Told.{IsTold, TellsOf};
ghost use Rattle.slice_driver.specs.Units.{IsLowestOut, IsSoundMarking};
ghost use Rattle.slice_driver.specs.Units.{TellsSweep};
ghost use Rattle.slice_driver.specs.Working.{EndsGroup};

use crate::advance::Step;
use crate::collector::{Collector, Phase};
use crate::colours::gray_slots;
use crate::name_keys::NameKeys;
use crate::zone_states::advance_all;
use arena_table::Jobs;
use cell_bits::{Colour, Taken};
use gz_names::{Name, NameList, Names64, NoMemory, Place, Report, ZoneSet};
use heap_core::Heap;
use std::alloc::Global;
use sweep_groups::GroupOrder;
use zones::State;

impl Collector {
    // Takes in the lowest arena that is handed to sweeping, with the slots of its white cells at hand-out and
    // the bits that were in flight for it, and puts what it reports into a place. Returns whether the
    // collection is over. It takes no memory.
    #[inline(always)]
    pub(crate) fn take_one_into(
        &mut self,
        taken: Taken,
        arena: u32,
        report: &mut Option<Report>,
    ) -> bool
        requires { MayTakeIn self.old arena taken.freed }
        ensures takes { TakesIn arena taken.bits report.new result self.old self.new }
        ensures told { TellsSweep arena report.new }
    {
        let kept = self.heap.bits_at_hand_out(arena);
        prove!(taken.freed == kept.white_mask(self.heap.alloc_word(arena)));
        report_arena(&mut self.heap, arena, taken, report);
        let finished = end_sweeping(&mut self.heap, &self.order);
        if finished {
            self.phase = Phase::Idle;
        }
        finished
    }

    /// The lowest arena that is handed to sweeping.
    pub fn next_out(&self) -> Option<u32>
        ensures some { IfSome result (IsLowestOut self.now.heap.shape) }
        ensures none { IfNone result ((a : ℕ) → out_of self.now.heap.shape a ≡ None) }
    {
        self.heap.first_out()
    }

    // Ends the current group, which is ready: its gray names are reported, its arenas are handed to
    // sweeping, what names a cell that is not present any more is dropped, and its zones go on. The report,
    // which is put into a place, tells the watched cells that are lost. All memory is taken before anything
    // changes.
    pub(crate) fn end_group_into(
        &mut self,
        alloc: Global,
        report: &mut Option<Report>,
    ) -> Result<Step, NoMemory>
        requires ready { (g : AZoneSet) × (rest : List AZoneSet) × IsReady self.old g rest }
        requires sound { (flown : ℕ → Option ABits) × IsSoundMarking self.old flown }
        ensures done { IfOk result (λ step. EndsGroup step.handed step.finished report.new
            self.old self.new) }
        ensures step { IfOk result (λ step. (step.units ≡ 1) × (step.reported ≡ true)) }
        ensures err { OnErr result (self.new ≡ self.old) }
        ensures err_report { OnErr result (report.new ≡ report.old) }
        ensures made { self.new.heap.made ≡ self.old.heap.made }
        ensures ledger { self.new.heap.ledger ≡ self.old.heap.ledger }
        ensures entries { length self.new.heap.shape.weak.entries
            ≤ length self.old.heap.shape.weak.entries }
    {
        let Some(group) = self.order.current() else {
            return Ok(Step::none());
        };
        let grays = gray_names_in(alloc, &self.heap, group)?;
        let told = told_names_in(alloc, &self.heap, group)?;
        let handed = hand_out_group(alloc, &mut self.heap, group)?;
        self.order.advance();
        let finished = end_sweeping(&mut self.heap, &self.order);
        if finished {
            self.phase = Phase::Idle;
        }
        *report = Some(Report::Ended(group, grays, told));
        Ok(Step {
            units: 1,
            reported: true,
            finished,
            handed,
        })
    }
}

// Takes an arena in, and puts what it reports into a place. Where an arena is reported there, its list
// takes the new names, so that no list, which takes a kilobyte, is filled or moved.
#[inline(always)]
fn report_arena(heap: &mut Heap, arena: u32, taken: Taken, report: &mut Option<Report>)
    requires out { is_some (out_of heap.old.shape arena) ≡ true }
    requires within { IsSomeAnd (slice_get heap.old.shape.arenas arena)
        (λ a. IsWithin taken.freed (alloc_word_of a.slots)) }
    ensures state { heap.new ≡ with_taken heap.old arena taken.freed taken.bits }
    ensures told { (names : List AName) × (report.new ≡ Some (AReport.Swept arena names))
        × AreFreed heap.old.shape arena taken.freed names }
{
    if let Some(said) = report
        && let Report::Swept(number, names) = said
    {
        *number = arena;
        list_freed(heap, arena, taken, names);
        return;
    }
    report_first(heap, arena, taken, report);
}

// Takes an arena in, where no arena is reported in that place.
#[cold]
fn report_first(heap: &mut Heap, arena: u32, taken: Taken, report: &mut Option<Report>)
    requires out { is_some (out_of heap.old.shape arena) ≡ true }
    requires within { IsSomeAnd (slice_get heap.old.shape.arenas arena)
        (λ a. IsWithin taken.freed (alloc_word_of a.slots)) }
    ensures state { heap.new ≡ with_taken heap.old arena taken.freed taken.bits }
    ensures told { (names : List AName) × (report.new ≡ Some (AReport.Swept arena names))
        × AreFreed heap.old.shape arena taken.freed names }
{
    let mut names = Names64::new();
    list_freed(heap, arena, taken, &mut names);
    *report = Some(Report::Swept(arena, names));
}

// Takes an arena in, and puts the names of its freed cells, ascending, in the place of those of a list.
fn list_freed(heap: &mut Heap, arena: u32, taken: Taken, names: &mut Names64)
    requires out { is_some (out_of heap.old.shape arena) ≡ true }
    requires within { IsSomeAnd (slice_get heap.old.shape.arenas arena)
        (λ a. IsWithin taken.freed (alloc_word_of a.slots)) }
    ensures state { heap.new ≡ with_taken heap.old arena taken.freed taken.bits }
    ensures names { AreFreed heap.old.shape arena taken.freed names.new }
{
    heap.take_in(arena, taken.freed, taken.bits, names);
    sort_names(names);
}

// Puts names into the order of printed lists. Most arenas lose no more than one cell.
#[inline(always)]
fn sort_names(names: &mut Names64)
    ensures permutation { IsPermutation names.old names.new }
    ensures sorted { IsSorted name_cmp names.new }
{
    if names.len() > 1 {
        names.sort();
    }
}

// Hands the arenas of a group to sweeping, drops what names a cell that is not present any more, and
// takes the group's zones on. The memory is taken before anything changes. Marking has ended: an entry
// goes only if its map or its key is white.
fn hand_out_group(alloc: Global, heap: &mut Heap, group: ZoneSet) -> Result<Option<Jobs>, NoMemory>
    requires kept { (a : ℕ) → out_of heap.old.shape a ≡ None }
    requires sized { length heap.old.colours ≡ length heap.old.shape.arenas }
    requires owners { DieWithOwners heap.old group }
    requires made { (z : ℕ) → HasZone group.bits z → z < length heap.old.shape.states }
    ensures ok { IfOk result (λ jobs. HandsOut heap.old group jobs heap.new) }
    ensures err { OnErr result (heap.new ≡ heap.old) }
{
    let jobs = heap.hand_out(alloc, group)?;
    heap.drop_dead(group, jobs.as_slice());
    advance_all(heap, group);
    if jobs.as_slice().is_empty() {
        return Ok(None);
    }
    Ok(Some(jobs))
}

// Where no arena is out any more, the zones that were swept are finished; where no group is left
// either, they are in no collection, and true is returned.
pub(crate) fn end_sweeping(heap: &mut Heap, order: &GroupOrder) -> bool
    ensures { EndsSweeping heap.old order.now result heap.new }
{
    if heap.first_out().is_some() {
        return false;
    }
    advance_all(heap, heap.in_state(State::Sweep));
    if order.current().is_some() {
        return false;
    }
    advance_all(heap, heap.in_state(State::Finished));
    true
}

// The names of the gray cells of these zones, ascending. No arena is out.
fn gray_names_in(alloc: Global, heap: &Heap, zones: ZoneSet) -> Result<NameList, NoMemory>
    requires kept { (a : ℕ) → out_of heap.now.shape a ≡ None }
    requires sized { length heap.now.colours ≡ length heap.now.shape.arenas }
    requires present { (p : APlace) → IsGray heap.now p → IsPresent heap.now.shape p }
    ensures moved { IfOk result (λ names. IsPermutation (grays_up_to heap.now
        (is_owned heap.now.shape zones.bits) (length heap.now.shape.arenas)) names) }
    ensures sorted { IfOk result (IsSorted name_cmp) }
{
    let mut keys = NameKeys::new(alloc);
    let mut from = 0;
    while let Some(arena) = heap.next_in(zones, from) {
        prove!(arena < heap.arenas());
        push_own_keys(heap, arena, &mut keys)?;
        from = arena + 1;
    }
    Ok(NameList::from_vec(keys.into_names(alloc)?))
}

// The names of the watched cells of these zones that are white, ascending: as the zones' group ends they stop
// being present. It takes no memory where none is.
fn told_names_in(alloc: Global, heap: &Heap, zones: ZoneSet) -> Result<NameList, NoMemory>
    requires sized { length heap.now.colours ≡ length heap.now.shape.arenas }
    requires present { (p : APlace) → Contains heap.now.weak_names.watched p
        → IsPresent heap.now.shape p }
    requires apart { (p q : APlace) (x : AName) → name_at heap.now.shape p ≡ Some x
        → name_at heap.now.shape q ≡ Some x
        → p ≡ q }
    ensures { IfOk result (Lists (IsTold heap.now zones.bits)) }
{
    let mut names = Vec::new(alloc);
    for index in 0..heap.watched_count() {
        if let Some(place) = heap.watched_at(index) {
            push_told(heap, zones, place, &mut names)?;
        }
    }
    names.sort_unstable();
    Ok(NameList::from_vec(names))
}

// Adds the name of a cell, if it is a white one of these zones.
fn push_told(
    heap: &Heap,
    zones: ZoneSet,
    place: Place,
    names: &mut Vec<Name>,
) -> Result<(), NoMemory>
    requires sized { length heap.now.colours ≡ length heap.now.shape.arenas }
    requires present { IsPresent heap.now.shape place }
    ensures { OnOk result (TellsOf heap.now zones.bits place names.old.items names.new.items) }
{
    if heap.lies_in(place, zones) && heap.colour(place) == Colour::White {
        names.push(heap.name(place))?;
    }
    Ok(())
}

// Adds the names of the gray cells of an arena that is not out.
fn push_own_keys(heap: &Heap, arena: u32, keys: &mut NameKeys) -> Result<(), NoMemory>
    requires made { arena < length heap.now.colours }
    requires present { (slot : ℕ) → IsGray heap.now (arena, slot)
        → IsPresent heap.now.shape (arena, slot) }
    ensures { OnOk result (IsPermutation (keys.old ++ grays_below heap.now arena 64) keys.new) }
{
    let slots = gray_slots(&heap.bits(arena));
    if slots != 0 {
        keys.reserve(slots.count_ones() as usize)?;
    }
    push_keys_at(heap, arena, slots, keys)
}

// Adds the names of the cells at the gray slots of an arena.
fn push_keys_at(heap: &Heap, arena: u32, slots: u64, keys: &mut NameKeys) -> Result<(), NoMemory>
    requires gray { (slot : ℕ) → slot < 64
        → (bit_at slots slot ≡ 1) ↔ IsGray heap.now (arena, slot) }
    requires present { (slot : ℕ) → IsGray heap.now (arena, slot)
        → IsPresent heap.now.shape (arena, slot) }
    ensures { OnOk result (IsPermutation (keys.old ++ grays_below heap.now arena 64) keys.new) }
{
    let mut left = slots;
    while left != 0 {
        if let Some(place) = Place::new(arena, left.trailing_zeros() as u8) {
            keys.push(heap.name(place))?;
        }
        left &= left - 1;
    }
    Ok(())
}
