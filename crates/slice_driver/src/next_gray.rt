// The next gray name behind another one.
ghost use Rattle.std.specs.Prelude.{◌≡◌, ◌<◌, ◌↔◌, ◌∷◌, ℕ, IsTrue, [], length};
ghost use Rattle.std.specs.Int.{bit_at};
ghost use Rattle.colour_defs.specs.World.{World, Has, IsPresent as IsPresentName, IsSettled};
ghost use Rattle.heap_core.specs.Shape.{IsPresent};
ghost use Rattle.heap_core.specs.Heap.{joined};
ghost use Rattle.barriers.specs.Colours.{IsGray};
ghost use Rattle.barriers.specs.Spreading.{FlightKept};
ghost use Rattle.slice_driver.specs.Grays.{MayNameGrays, gray_name, grays_below};
ghost use Rattle.slice_driver.specs.NextGray.{IsBefore, IsBehind, IsNext, Picks};
ghost use Rattle.slice_driver.specs.Represents.{Represents};
ghost use Rattle.slice_driver.specs.Units.{IsSound};

use crate::collector::Collector;
use crate::colours::gray_slots;
use barriers::colour;
use cell_bits::{Colour, Flight};
use gz_names::{Name, Place, name_order};
use heap_core::Heap;

impl Collector {
    /// The first gray name behind this one, or the first of all, where no zone is being prepared or
    /// marking. It takes no memory, and walks over the whole heap.
    pub fn next_gray<F: Flight>(&self, flight: &mut F, after: Option<Name>) -> Option<Name>
        requires sound { IsSound self.now (F.bits flight.old) }
        ensures next { (w : World) → Represents self.now (F.bits flight.old) w → IsSettled w
            → IsNext (λ x. IsPresentName w x × (Has w.black x → ⊥)) after result }
        ensures same { (w : World) → Represents self.now (F.bits flight.old) w
            → Represents self.now (F.bits flight.new) w }
        ensures heap { joined self.now.heap (F.bits flight.new)
            ≡ joined self.now.heap (F.bits flight.old) }
        ensures origin { F.origin flight.new ≡ F.origin flight.old }
    {
        let mut first = None;
        for arena in 0..self.heap.arenas() {
            first = first_in(&self.heap, flight, arena, after, first);
        }
        first
    }
}

// The first of a name and of the gray names of an arena that come behind `after`.
fn first_in<F: Flight>(
    heap: &Heap,
    flight: &mut F,
    arena: u32,
    after: Option<Name>,
    first: Option<Name>,
) -> Option<Name>
    requires { MayNameGrays heap.now (F.bits flight.old) arena }
    ensures picks { Picks after first (grays_below (joined heap.now (F.bits flight.old)) arena 64)
        result }
    ensures kept { FlightKept F.bits F.origin heap.now flight.old flight.new }
{
    if heap.is_out(arena) {
        first_flown(heap, flight, arena, after, first)
    } else {
        first_own(heap, arena, after, first)
    }
}

// The first of a name and of the gray names of an arena that is out.
fn first_flown<F: Flight>(
    heap: &Heap,
    flight: &mut F,
    arena: u32,
    after: Option<Name>,
    first: Option<Name>,
) -> Option<Name>
    requires { MayNameGrays heap.now (F.bits flight.old) arena }
    ensures picks { Picks after first (grays_below (joined heap.now (F.bits flight.old)) arena 64)
        result }
    ensures kept { FlightKept F.bits F.origin heap.now flight.old flight.new }
{
    let mut found = first;
    for slot in 0..64 {
        if let Some(place) = Place::new(arena, slot) {
            found = first_at(heap, flight, place, after, found);
        }
    }
    found
}

// The first of a name and of that of the cell at a place, if it is gray.
fn first_at<F: Flight>(
    heap: &Heap,
    flight: &mut F,
    place: Place,
    after: Option<Name>,
    first: Option<Name>,
) -> Option<Name>
    requires { MayNameGrays heap.now (F.bits flight.old) place.0 }
    ensures picks { Picks after first (gray_name (joined heap.now (F.bits flight.old)) place) result }
    ensures kept { FlightKept F.bits F.origin heap.now flight.old flight.new }
{
    if colour(heap, flight, place) == Colour::Gray {
        first_of(after, first, heap.name(place))
    } else {
        first
    }
}

// The first of a name and of the gray names of an arena that is not out: only its gray slots are
// looked at.
fn first_own(heap: &Heap, arena: u32, after: Option<Name>, first: Option<Name>) -> Option<Name>
    requires made { arena < length heap.now.colours }
    requires present { (slot : ℕ) → IsGray heap.now (arena, slot)
        → IsPresent heap.now.shape (arena, slot) }
    ensures { Picks after first (grays_below heap.now arena 64) result }
{
    first_among(heap, arena, gray_slots(&heap.bits(arena)), after, first)
}

// The first of a name and of those of the cells at the gray slots of an arena.
fn first_among(
    heap: &Heap,
    arena: u32,
    slots: u64,
    after: Option<Name>,
    first: Option<Name>,
) -> Option<Name>
    requires gray { (slot : ℕ) → slot < 64
        → (bit_at slots slot ≡ 1) ↔ IsGray heap.now (arena, slot) }
    requires present { (slot : ℕ) → IsGray heap.now (arena, slot)
        → IsPresent heap.now.shape (arena, slot) }
    ensures { Picks after first (grays_below heap.now arena 64) result }
{
    let mut found = first;
    let mut left = slots;
    while left != 0 {
        if let Some(place) = Place::new(arena, left.trailing_zeros() as u8) {
            found = first_of(after, found, heap.name(place));
        }
        left &= left - 1;
    }
    found
}

// The first of two names, if the second comes behind `after`; else the first one.
fn first_of(after: Option<Name>, first: Option<Name>, name: Name) -> Option<Name>
    ensures { Picks after first (name ∷ []) result }
{
    if is_behind(after, name) && is_before(name, first) {
        Some(name)
    } else {
        first
    }
}

fn is_behind(after: Option<Name>, name: Name) -> bool
    ensures { IsTrue result ↔ IsBehind after name }
{
    match after {
        Some(after) => name_order(after, name).is_lt(),
        None => true,
    }
}

fn is_before(name: Name, first: Option<Name>) -> bool
    ensures { IsTrue result ↔ IsBefore name first }
{
    match first {
        Some(first) => name_order(name, first).is_lt(),
        None => true,
    }
}
