// Listings of the heap by name.
ghost use Rattle.std.specs.Prelude.{◌≡◌, ◌++◌, IfOk, OnOk};
ghost use Rattle.heap_core.specs.Edges.{edge_count};
ghost use Rattle.heap_core.specs.Shape.{AreWhole, IsPresent};
ghost use Rattle.weak_maps.specs.WeakMaps.{IsSound as AreEntries};
ghost use Rattle.slice_driver.specs.Listings.{AreFieldsHeld, AreEntriesHeld, AreNamedApart, ListsCells, ListsEntries};
ghost use Rattle.slice_driver.specs.Listings.{cells_below, edge_lines_at, edges_below, entry_at};

use gz_names::{DumpLine, Name, NoMemory, Place};
use heap_core::{Heap, Steps};
use std::alloc::Global;
use std::sync::ledger::Ledger;
use weak_maps::WeakEntry;

/// A present cell: its name, and where it lies. Cells are ordered by name.
#[derive(Clone, Copy, Debug, PartialEq, Eq, PartialOrd, Ord)]
pub(crate) struct NamedCell {
    pub name: Name,
    pub place: Place,
}

/// An entry of a weak map by names: the map's number, the key, the value. Entries are ordered by map,
/// then by key.
#[derive(Clone, Copy, Debug, PartialEq, Eq, PartialOrd, Ord)]
pub(crate) struct NamedEntry {
    pub map: u64,
    pub key: Name,
    pub value: Name,
}

/// The present cells, ascending by name.
pub(crate) fn cells_by_name(heap: &Heap, alloc: Global) -> Result<Vec<NamedCell>, NoMemory>
    requires apart { AreNamedApart heap.now.shape }
    requires whole { AreWhole heap.now.shape.arenas }
    ensures { IfOk result (λ cells. ListsCells heap.now.shape cells.items) }
{
    let mut cells = Vec::new(alloc);
    for arena in 0..heap.arenas() {
        push_cells(heap, arena, &mut cells)?;
    }
    cells.sort_unstable();
    Ok(cells)
}

// Adds the present cells of an arena.
fn push_cells(heap: &Heap, arena: u32, cells: &mut Vec<NamedCell>) -> Result<(), NoMemory>
    ensures { OnOk result (cells.new.items ≡ cells.old.items ++ cells_below heap.now.shape arena 64) }
{
    for slot in 0..64 {
        if let Some(place) = Place::new(arena, slot)
            && !heap.is_absent(place)
        {
            cells.push(NamedCell {
                name: heap.name(place),
                place,
            })?;
        }
    }
    Ok(())
}

/// Adds a line for each edge of a present cell that is not null, in the order of its fields. A
/// wrapper's name tells its edge, so it has no line.
pub(crate) fn push_edges<L: Ledger>(
    heap: &Heap,
    place: Place,
    lines: &mut Vec<DumpLine>,
    steps: &mut Steps<L>,
) -> Result<(), NoMemory>
    requires counted { heap.now.ledger ≡ Some L.name }
    requires held { AreFieldsHeld heap.now.shape }
    requires present { IsPresent heap.now.shape place }
    ensures { OnOk result (lines.new.items ≡ lines.old.items ++ edge_lines_at heap.now.shape place) }
{
    match heap.name(place) {
        Name::Cell(number) => push_fields(heap, place, number, lines, steps),
        Name::Wrap(_, _) => Ok(()),
    }
}

// Adds a line for each field of a present cell that is not null, under this number.
fn push_fields<L: Ledger>(
    heap: &Heap,
    place: Place,
    number: u64,
    lines: &mut Vec<DumpLine>,
    steps: &mut Steps<L>,
) -> Result<(), NoMemory>
    requires counted { heap.now.ledger ≡ Some L.name }
    requires held { AreFieldsHeld heap.now.shape }
    requires present { IsPresent heap.now.shape place }
    ensures { OnOk result (lines.new.items
        ≡ lines.old.items ++ edges_below heap.now.shape place number (edge_count heap.now.shape place)) }
{
    for i in 0..heap.edge_count(place) {
        if let Some(target) = heap.reached_by(place, i, steps) {
            lines.push(DumpLine::Edge(number, heap.name(target)))?;
        }
    }
    Ok(())
}

/// The entries of weak maps by names, ascending by map and then by key.
pub(crate) fn entries_by_name(heap: &Heap, alloc: Global) -> Result<Vec<NamedEntry>, NoMemory>
    requires apart { AreNamedApart heap.now.shape }
    requires held { AreEntriesHeld heap.now.shape }
    ensures { IfOk result (λ entries. ListsEntries heap.now.shape entries.items) }
{
    let mut entries = Vec::new(alloc);
    for index in 0..heap.entries() {
        if let Some(entry) = named_entry(heap, index) {
            entries.push(entry)?;
        }
    }
    entries.sort_unstable();
    Ok(entries)
}

// An entry of a weak map by names.
fn named_entry(heap: &Heap, index: u64) -> Option<NamedEntry>
    requires { AreEntriesHeld heap.now.shape }
    ensures entry { result ≡ entry_at heap.now.shape index }
    ensures sound { AreEntries heap.now.shape.weak }
{
    let WeakEntry { map, key, value } = heap.entry(index)?;
    let Name::Cell(number) = heap.name(map) else {
        return None;
    };
    Some(NamedEntry {
        map: number,
        key: heap.name(key),
        value: heap.name(value),
    })
}
