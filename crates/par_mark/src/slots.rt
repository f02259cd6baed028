// Tries of one arena as a mask of its slots.
ghost use Rattle.std.specs.Prelude.{◌≡◌, ◌+◌, ◌<◌, ◌≤◌, ℕ, List, [], ◌∷◌, ◌++◌, length, vec_len, vec_capacity};
ghost use Rattle.std.specs.Prelude.{IfSome, IfNone};
ghost use Rattle.std.specs.VecDeque.{deque_capacity};
ghost use Rattle.mark_words.specs.Places.{places_of};
ghost use Rattle.par_mark.specs.Slots.{AreGathered, IsGathered};

use gz_names::Place;
use std::collections::VecDeque;

/// Takes the newest tries off the list, behind this one, for as long as they name further slots of its arena and are no
/// more than this number with it. Returns the slots.
pub(crate) fn gather_slots(tries: &mut VecDeque<Place>, first: Place, most: usize) -> u64
    requires { 0 < most }
    ensures gathered { AreGathered first most tries.old.items tries.new.items result }
    ensures room { deque_capacity tries.new ≡ deque_capacity tries.old }
{
    let mut slots = 1u64 << first.slot();
    for _ in 1..most {
        let Some(slot) = take_slot(tries, first.arena(), slots) else {
            return slots;
        };
        slots |= 1 << slot;
    }
    slots
}

// Takes the newest try off the list if it names a slot of this arena that is not among these.
fn take_slot(tries: &mut VecDeque<Place>, arena: u32, slots: u64) -> Option<u8>
    ensures some { IfSome result (λ slot. IsGathered arena slots slot tries.old.items tries.new.items) }
    ensures none { IfNone result (tries.new.items ≡ tries.old.items) }
    ensures room { deque_capacity tries.new ≡ deque_capacity tries.old }
{
    let newest = *tries.back()?;
    let slot = newest.slot();
    if newest.arena() != arena || (slots >> slot) & 1 == 1 {
        return None;
    }
    tries.pop_back();
    Some(slot)
}

/// Puts the places of these slots of an arena behind a list.
pub(crate) fn push_slots(list: &mut Vec<Place>, arena: u32, slots: u64)
    requires { length list.old.items + length (places_of arena slots) ≤ vec_capacity list.old }
    ensures items { list.new.items ≡ list.old.items ++ places_of arena slots }
    ensures room { vec_capacity list.new ≡ vec_capacity list.old }
{
    let mut left = slots;
    while left != 0 {
        let Some(place) = Place::new(arena, left.trailing_zeros() as u8) else {
            unreachable!()
        };
        list.push_reserved(place);
        left &= left - 1;
    }
}
