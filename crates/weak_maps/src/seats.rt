// Where entries stand.
ghost use Rattle.std.specs.Prelude.{◌≡◌, ◌≢◌, ◌<◌, ◌-◌, ◌++◌, ◌∷◌, [], ℕ, None, Some, Contains, IfSome, IfNone, OnOk};
ghost use Rattle.std.specs.Prelude.{OnErr, length, slice_get, slice_set, swap_remove, vec_capacity};
ghost use Rattle.weak_maps.specs.Listings.{ListingState, IsLeft};
ghost use Rattle.weak_maps.specs.Seats.{AreSeated, AreSeatedBut, AreOthersSeated, IsBehind, KeepsOthers, NoMoreLeft};
ghost use Rattle.weak_maps.specs.Seats.{NoneLeftInNew, LooksAt, NoneIsLeft, IsQueueFor, IsAtEnd, entry_in, items_of};
ghost use Rattle.weak_maps.specs.Seats.{left_in, owners_of, pushed};

use crate::colours::MarkColour;
use crate::listings::Listing;
use crate::queues::Queue;
use gz_names::NoMemory;
use std::alloc::AllocError;

/// Where an entry stands: in which list, and where there.
#[derive(Clone, Copy)]
pub(crate) struct Seat {
    pub list: u32,
    pub at: u32,
}

// An entry leaves the part of its list that is still to be looked at: the last entry of that part
// takes its seat. Answers the seat that is empty now.
fn leave_part(lists: &mut [Listing], seats: &mut Vec<Seat>, entry: u32) -> Seat
    requires seated { AreSeated lists.old seats.old.items }
    requires entry { entry < length seats.old.items }
    ensures but { AreSeatedBut entry result lists.new seats.new.items }
    ensures behind { IsBehind lists.new result }
    ensures keeps { KeepsOthers entry lists.old seats.old.items lists.new seats.new.items }
    ensures looks { NoMoreLeft lists.old lists.new }
{
    let seat = seats[entry as usize];
    let listing = &mut lists[seat.list as usize];
    match listing.leave(seat.at) {
        None => seat,
        Some(moved) => {
            seats[moved as usize] = seat;
            Seat {
                list: seat.list,
                at: listing.left(),
            }
        }
    }
}

// The last entry of a list takes a seat that is empty, behind those that are still to be looked at.
fn fill_hole(lists: &mut [Listing], seats: &mut Vec<Seat>, hole: Seat)
    requires behind { IsBehind lists.old hole }
    requires inside { (i y : ℕ) → i ≢ hole.at → entry_in lists.old hole.list i ≡ Some y
        → y < length seats.old.items }
    ensures others { (x : ℕ) → AreSeatedBut x hole lists.old seats.old.items
        → AreOthersSeated x lists.new seats.new.items }
    ensures keeps { (x : ℕ) → AreSeatedBut x hole lists.old seats.old.items
        → KeepsOthers x lists.old seats.old.items lists.new seats.new.items }
    ensures looks { NoMoreLeft lists.old lists.new }
{
    if let Some(moved) = lists[hole.list as usize].remove(hole.at) {
        seats[moved as usize] = hole;
    }
}

// The last entry takes the number of one that stands nowhere.
fn take_number(lists: &mut [Listing], seats: &mut Vec<Seat>, entry: u32)
    requires others { AreOthersSeated entry lists.old seats.old.items }
    requires entry { entry < length seats.old.items }
    ensures seated { AreSeated lists.new seats.new.items }
    ensures left { left_in lists.new seats.new.items
        ≡ swap_remove (left_in lists.old seats.old.items) entry None }
    ensures owners { owners_of seats.new.items
        ≡ swap_remove (owners_of seats.old.items) entry 0 }
    ensures looks { NoMoreLeft lists.old lists.new }
{
    if let Some(seat) = seats.pop() {
        if (entry as usize) < seats.len() {
            lists[seat.list as usize].put(seat.at, entry);
            seats[entry as usize] = seat;
        }
    }
}

// Takes an entry out of its list; the last entry takes its number.
pub(crate) fn take_entry(lists: &mut [Listing], seats: &mut Vec<Seat>, entry: u32)
    requires seated { AreSeated lists.old seats.old.items }
    requires entry { entry < length seats.old.items }
    ensures seated { AreSeated lists.new seats.new.items }
    ensures left { left_in lists.new seats.new.items
        ≡ swap_remove (left_in lists.old seats.old.items) entry None }
    ensures owners { owners_of seats.new.items
        ≡ swap_remove (owners_of seats.old.items) entry 0 }
    ensures looks { NoMoreLeft lists.old lists.new }
{
    let hole = leave_part(lists, seats, entry);
    fill_hole(lists, seats, hole);
    take_number(lists, seats, entry);
}

// The entry with the last number goes, which stands at the end of its list.
pub(crate) fn undo_add(lists: &mut [Listing], seats: &mut Vec<Seat>)
    requires seated { AreSeated lists.old seats.old.items }
    requires end { IsAtEnd lists.old seats.old.items }
    ensures seated { AreSeated lists.new seats.new.items }
    ensures left { left_in lists.new seats.new.items
        ≡ swap_remove (left_in lists.old seats.old.items) (length seats.old.items - 1) None }
    ensures owners { owners_of seats.new.items
        ≡ swap_remove (owners_of seats.old.items) (length seats.old.items - 1) 0 }
    ensures looks { NoMoreLeft lists.old lists.new }
    ensures lists { (seat : Seat) (l : ListingState)
        → slice_get seats.old.items (length seats.old.items - 1) ≡ Some seat
        → slice_get lists.old seat.list ≡ Some l
        → lists.new ≡ slice_set lists.old seat.list (record l { entries = swap_remove l.entries seat.at 0 }) }
{
    if let Some(seat) = seats.pop() {
        lists[seat.list as usize].remove(seat.at);
    }
}

// An entry comes last in a list, with the next number.
pub(crate) fn add_entry(
    lists: &mut [Listing],
    seats: &mut Vec<Seat>,
    list: u32,
) -> Result<(), NoMemory>
    requires seated { AreSeated lists.old seats.old.items }
    requires list { list < length lists.old }
    ensures seated { OnOk result (AreSeated lists.new seats.new.items) }
    ensures left { OnOk result (left_in lists.new seats.new.items
        ≡ left_in lists.old seats.old.items ++ None ∷ []) }
    ensures owners { OnOk result (owners_of seats.new.items
        ≡ owners_of seats.old.items ++ list ∷ []) }
    ensures looks { OnOk result (NoMoreLeft lists.old lists.new) }
    ensures lists { OnOk result (items_of lists.new ≡ pushed (items_of lists.old) list (length seats.old.items)) }
    ensures err { OnErr result ((lists.new ≡ lists.old) × (seats.new.items ≡ seats.old.items)) }
{
    if seats.len() >= u32::MAX as usize {
        return Err(AllocError);
    }
    seats.reserve(1)?;
    let alloc = *seats.allocator();
    let entry = seats.len() as u32;
    let listing = &mut lists[list as usize];
    let at = listing.len();
    listing.push(alloc, entry)?;
    seats.push_reserved(Seat { list, at });
    Ok(())
}

// An entry comes alone in a new list, with the next number. There is room for it.
pub(crate) fn add_first(lists: &mut Vec<Listing>, seats: &mut Vec<Seat>, listing: Listing)
    requires seated { AreSeated lists.old.items seats.old.items }
    requires list_room { length lists.old.items < vec_capacity lists.old }
    requires seat_room { length seats.old.items < vec_capacity seats.old }
    requires few { length lists.old.items < 4294967295 }
    requires only { listing.entries ≡ length seats.old.items ∷ [] }
    requires none { listing.left ≡ 0 }
    ensures seated { AreSeated lists.new.items seats.new.items }
    ensures left { left_in lists.new.items seats.new.items
        ≡ left_in lists.old.items seats.old.items ++ None ∷ [] }
    ensures owners { owners_of seats.new.items
        ≡ owners_of seats.old.items ++ length lists.old.items ∷ [] }
    ensures looks { NoneLeftInNew lists.old.items lists.new.items }
    ensures lists { items_of lists.new.items
        ≡ pushed (items_of lists.old.items) (length lists.old.items) (length seats.old.items) }
{
    let list = lists.len() as u32;
    lists.push_reserved(listing);
    seats.push_reserved(Seat { list, at: 0 });
}

// The next entry that is to be looked at in this colour.
#[inline(always)]
pub(crate) fn next_left(lists: &mut [Listing], queue: &mut Queue, colour: MarkColour) -> Option<u32>
    requires queue { IsQueueFor colour lists.old queue.old }
    ensures some { IfSome result (λ entry. LooksAt colour entry lists.old lists.new) }
    ensures none { IfNone result ((lists.new ≡ lists.old) × NoneIsLeft colour lists.old) }
    ensures queue { IsQueueFor colour lists.new queue.new }
{
    while let Some(list) = queue.last() {
        if let Some(entry) = lists[list as usize].next(colour) {
            return Some(entry);
        }
        queue.drop_last();
    }
    None
}
