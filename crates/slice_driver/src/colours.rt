// What is gray.
ghost use Rattle.std.specs.Prelude.{◌≡◌, ◌<◌, ◌↔◌, ◌++◌, ℕ, IfOk, OnOk, length};
ghost use Rattle.std.specs.Int.{bit_at};
ghost use Rattle.cell_bits.specs.Colours.{colour_of};
ghost use Rattle.colour_defs.specs.Ends.{Lists};
ghost use Rattle.colour_defs.specs.World.{World, Has, IsPresent as IsPresentName, IsSettled};
ghost use Rattle.heap_core.specs.Shape.{IsPresent};
ghost use Rattle.heap_core.specs.Heap.{joined};
ghost use Rattle.barriers.specs.Colours.{IsGray};
ghost use Rattle.barriers.specs.Spreading.{FlightKept};
ghost use Rattle.slice_driver.specs.Grays.{MayNameGrays, grays_below};
ghost use Rattle.slice_driver.specs.Represents.{Represents};
ghost use Rattle.slice_driver.specs.Units.{IsSound};

use crate::collector::Collector;
use barriers::colour;
use cell_bits::{Bits, Colour, Flight};
use gz_names::{Name, NameList, NoMemory, Place};
use heap_core::Heap;
use std::alloc::Global;

impl Collector {
    /// The names of the gray cells, ascending, where no zone is being prepared or marking.
    pub fn gray_names<F: Flight>(&self, alloc: Global, flight: &mut F) -> Result<NameList, NoMemory>
        requires sound { IsSound self.now (F.bits flight.old) }
        ensures names { IfOk result (λ names. (w : World)
            → Represents self.now (F.bits flight.old) w → IsSettled w
            → Lists (λ x. IsPresentName w x × (Has w.black x → ⊥)) names) }
        ensures same { (w : World) → Represents self.now (F.bits flight.old) w
            → Represents self.now (F.bits flight.new) w }
        ensures heap { joined self.now.heap (F.bits flight.new)
            ≡ joined self.now.heap (F.bits flight.old) }
        ensures origin { F.origin flight.new ≡ F.origin flight.old }
    {
        let mut names = Vec::new(alloc);
        for arena in 0..self.heap.arenas() {
            push_gray(&self.heap, flight, arena, &mut names)?;
        }
        names.sort_unstable();
        Ok(NameList::from_vec(names))
    }
}

// Adds the names of the gray cells of an arena.
pub(crate) fn push_gray<F: Flight>(
    heap: &Heap,
    flight: &mut F,
    arena: u32,
    names: &mut Vec<Name>,
) -> Result<(), NoMemory>
    requires { MayNameGrays heap.now (F.bits flight.old) arena }
    ensures names { OnOk result (names.new.items ≡ names.old.items
        ++ grays_below (joined heap.now (F.bits flight.old)) arena 64) }
    ensures kept { FlightKept F.bits F.origin heap.now flight.old flight.new }
{
    if heap.is_out(arena) {
        push_flown_gray(heap, flight, arena, names)
    } else {
        push_own_gray(heap, arena, names)
    }
}

// Adds the names of the gray cells of an arena that is out: the flight answers each slot's colour.
fn push_flown_gray<F: Flight>(
    heap: &Heap,
    flight: &mut F,
    arena: u32,
    names: &mut Vec<Name>,
) -> Result<(), NoMemory>
    requires { MayNameGrays heap.now (F.bits flight.old) arena }
    ensures names { OnOk result (names.new.items ≡ names.old.items
        ++ grays_below (joined heap.now (F.bits flight.old)) arena 64) }
    ensures kept { FlightKept F.bits F.origin heap.now flight.old flight.new }
{
    for slot in 0..64 {
        if let Some(place) = Place::new(arena, slot)
            && colour(heap, flight, place) == Colour::Gray
        {
            names.push(heap.name(place))?;
        }
    }
    Ok(())
}

// Adds the names of the gray cells of an arena that is not out: only its gray slots are looked at.
#[inline(always)]
fn push_own_gray(heap: &Heap, arena: u32, names: &mut Vec<Name>) -> Result<(), NoMemory>
    requires made { arena < length heap.now.colours }
    requires present { (slot : ℕ) → IsGray heap.now (arena, slot)
        → IsPresent heap.now.shape (arena, slot) }
    ensures { OnOk result (names.new.items ≡ names.old.items ++ grays_below heap.now arena 64) }
{
    let slots = gray_slots(&heap.bits(arena));
    if slots != 0 {
        names.reserve(slots.count_ones() as usize)?;
    }
    push_at(heap, arena, slots, names)
}

// The slots of the gray cells.
pub(crate) fn gray_slots(bits: &Bits) -> u64
    ensures { (slot : ℕ) → slot < 64
        → (bit_at result slot ≡ 1) ↔ (colour_of bits.now slot ≡ Colour.Gray) }
{
    bits.gob & !bits.black
}

// Adds the names of the cells at the gray slots of an arena.
fn push_at(heap: &Heap, arena: u32, slots: u64, names: &mut Vec<Name>) -> Result<(), NoMemory>
    requires gray { (slot : ℕ) → slot < 64
        → (bit_at slots slot ≡ 1) ↔ IsGray heap.now (arena, slot) }
    requires present { (slot : ℕ) → IsGray heap.now (arena, slot)
        → IsPresent heap.now.shape (arena, slot) }
    ensures { OnOk result (names.new.items ≡ names.old.items ++ grays_below heap.now arena 64) }
{
    let mut left = slots;
    while left != 0 {
        if let Some(place) = Place::new(arena, left.trailing_zeros() as u8) {
            names.push(heap.name(place))?;
        }
        left &= left - 1;
    }
    Ok(())
}
