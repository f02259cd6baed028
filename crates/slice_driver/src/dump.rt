// The dump of a collector: its present cells with their colours, their edges, its weak entries.
ghost use Rattle.std.specs.Prelude.{◌≡◌, ◌++◌, ◌<◌, IfOk, OnOk, All, length, map};
ghost use Rattle.std.specs.List.{flat_map};
ghost use Rattle.colour_defs.specs.Dumps.{IsDump};
ghost use Rattle.colour_defs.specs.World.{World, IsSettled};
ghost use Rattle.heap_core.specs.Heap.{joined};
ghost use Rattle.slice_driver.specs.Listings.{AreFieldsHeld, edge_lines_at};
ghost use Rattle.heap_core.specs.Shape.{IsPresent};
ghost use Rattle.slice_driver.specs.declared.listings.NamedCell.{NamedCell as ANamedCell};
ghost use Rattle.barriers.specs.Spreading.{Covers, FlightKept};
ghost use Rattle.slice_driver.specs.Dumps.{coloured_line, entry_line};
ghost use Rattle.slice_driver.specs.Represents.{Represents};
ghost use Rattle.slice_driver.specs.Units.{IsSound};

use crate::collector::Collector;
use crate::listings::{NamedCell, NamedEntry, cells_by_name, entries_by_name, push_edges};
use barriers::colour;
use cell_bits::{Colour, Flight};
use gz_names::{DumpColour, DumpLine, NoMemory};
use heap_core::{Heap, Steps};
use std::alloc::Global;
use std::sync::ledger::Ledger;

impl Collector {
    /// The dump of the heap where no zone is being prepared or marking: a line for each present cell with
    /// its colour, by name; a line for each edge that is not null, by object and field; a line for each
    /// weak entry, by map and key; and the end. The bits of arenas that are being swept are read from the
    /// flight.
    pub fn dump<F: Flight, L: Ledger>(
        &self,
        alloc: Global,
        flight: &mut F,
        steps: &mut Steps<L>,
    ) -> Result<Vec<DumpLine>, NoMemory>
        requires counted { self.now.heap.ledger ≡ Some L.name }
        requires sound { IsSound self.now (F.bits flight.old) }
        ensures lines { IfOk result (λ lines. (w : World)
            → Represents self.now (F.bits flight.old) w → IsSettled w → IsDump w lines.items) }
        ensures same { (w : World) → Represents self.now (F.bits flight.old) w
            → Represents self.now (F.bits flight.new) w }
        ensures heap { joined self.now.heap (F.bits flight.new)
            ≡ joined self.now.heap (F.bits flight.old) }
        ensures origin { F.origin flight.new ≡ F.origin flight.old }
    {
        let cells = cells_by_name(&self.heap, alloc)?;
        let mut lines = Vec::new(alloc);
        push_cell_lines(&self.heap, flight, &cells, &mut lines)?;
        push_edge_lines(&self.heap, &cells, &mut lines, steps)?;
        push_entry_lines(&entries_by_name(&self.heap, alloc)?, &mut lines)?;
        lines.push(DumpLine::End)?;
        Ok(lines)
    }
}

// Adds a line for each of these cells, with its colour.
fn push_cell_lines<F: Flight>(
    heap: &Heap,
    flight: &mut F,
    cells: &[NamedCell],
    lines: &mut Vec<DumpLine>,
) -> Result<(), NoMemory>
    requires covers { Covers heap.now.shape (F.bits flight.old) }
    requires made { All (λ (cell : ANamedCell). cell.place.0 < length heap.now.colours) cells.now }
    ensures lines { OnOk result (lines.new.items
        ≡ lines.old.items ++ map (coloured_line (joined heap.now (F.bits flight.old))) cells.now) }
    ensures kept { FlightKept F.bits F.origin heap.now flight.old flight.new }
{
    for cell in cells {
        let shade = match colour(heap, flight, cell.place) {
            Colour::Black => DumpColour::Black,
            Colour::Gray | Colour::White => DumpColour::Gray,
        };
        lines.push(DumpLine::Cell(cell.name, shade))?;
    }
    Ok(())
}

// Adds the lines of the edges of these cells.
fn push_edge_lines<L: Ledger>(
    heap: &Heap,
    cells: &[NamedCell],
    lines: &mut Vec<DumpLine>,
    steps: &mut Steps<L>,
) -> Result<(), NoMemory>
    requires counted { heap.now.ledger ≡ Some L.name }
    requires held { AreFieldsHeld heap.now.shape }
    requires cells { All (λ (cell : ANamedCell). IsPresent heap.now.shape cell.place) cells.now }
    ensures { OnOk result (lines.new.items
        ≡ lines.old.items ++ flat_map (λ (cell : ANamedCell). edge_lines_at heap.now.shape cell.place) cells.now) }
{
    for cell in cells {
        push_edges(heap, cell.place, lines, steps)?;
    }
    Ok(())
}

// Adds the lines of these entries.
fn push_entry_lines(entries: &[NamedEntry], lines: &mut Vec<DumpLine>) -> Result<(), NoMemory>
    ensures { OnOk result (lines.new.items ≡ lines.old.items ++ map entry_line entries.now) }
{
    for entry in entries {
        lines.push(DumpLine::Weak(entry.map, entry.key, entry.value))?;
    }
    Ok(())
}
