// The cells that turned black.
ghost use Rattle.std.specs.Prelude.{◌≡◌, ◌<◌, ◌≤◌, ◌^◌, ℕ, List, length, slice_index, IfOk};
ghost use Rattle.par_mark.specs.Turned.{AreWords, turned_places, turned_slots};

use crate::slots::push_slots;
use gz_names::{NoMemory, Place};
use std::alloc::{AllocError, Global};

/// The cells whose bits are set in the black words after marking and were not before, arena by arena, ascending. Only
/// the first arenas are gone through, as many as there are words before. The list has room for these cells and no more.
pub(crate) fn turned_cells(
    alloc: Global,
    before: &[u64],
    after: &[u64],
) -> Result<Vec<Place>, NoMemory>
    requires { length before.now ≤ length after.now }
    ensures cells { IfOk result (λ cells. cells.items ≡ turned_places before.now after.now (length before.now)) }
    ensures words { IfOk result (λ _. AreWords before.now (length before.now)
        × AreWords after.now (length before.now)) }
{
    let Ok(arenas) = u32::try_from(before.len()) else {
        return Err(AllocError);
    };
    let mut cells = Vec::with_capacity(alloc, count_turned(before, after, arenas))?;
    for arena in 0..arenas {
        push_slots(&mut cells, arena, turned_in(before, after, arena));
    }
    Ok(cells)
}

// How many cells that are.
fn count_turned(before: &[u64], after: &[u64], arenas: u32) -> usize
    requires before { arenas ≤ length before.now }
    requires after { arenas ≤ length after.now }
    ensures { result ≡ length (turned_places before.now after.now arenas) }
{
    let mut count = 0;
    for arena in 0..arenas {
        count += turned_in(before, after, arena).count_ones() as usize;
    }
    count
}

// The slots of an arena whose bits are set after and were not before.
fn turned_in(before: &[u64], after: &[u64], arena: u32) -> u64
    requires before { arena < length before.now }
    requires after { arena < length after.now }
    ensures { result ≡ turned_slots before.now after.now arena }
{
    let arena = arena as usize;
    after[arena] & !before[arena]
}
