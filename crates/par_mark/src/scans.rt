// Scanning cells.
ghost use Rattle.std.specs.Prelude.{◌≡◌, ◌+◌, ◌≤◌, ◌<◌, ℕ, [], ◌∷◌, ◌++◌, false, length, All};
ghost use Rattle.std.specs.VecDeque.{deque_len, deque_capacity};
ghost use Rattle.mark_words.specs.Seats.{first_of, view_of, IsSeatOf};
ghost use Rattle.mark_ahead.specs.Edges.{targets};
ghost use Rattle.par_mark.specs.Edges.{all_targets};
ghost use Rattle.par_mark.specs.Scans.{HasScanned};
ghost use Rattle.par_mark.specs.Tries.{Serves};

use crate::found::Found;
use crate::graph::Graph;
use gz_names::Place;
use mark_words::{Marks, PlaceList, Seat};
use std::collections::VecDeque;

/// Scans these cells: the targets of their edges become tries, but for those that a look finds black, which are tried
/// by it.
pub(crate) fn scan_all<H: Graph, L: PlaceList>(
    heap: &H,
    marks: &Marks<L>,
    seat: &mut Seat,
    cells: &[Place],
    tries: &mut VecDeque<Place>,
)
    requires seat { IsSeatOf marks.now seat.old × (0 < (view_of seat.old).parts) }
    requires serves { Serves (H.has heap.now) (H.edge heap.now) (H.marking heap.now) (first_of marks.now) L.places }
    requires listed { All L.places (all_targets (H.edge heap.now) cells.now) }
    requires present { All (H.has heap.now) cells.now }
    requires room { deque_len tries.old + length (all_targets (H.edge heap.now) cells.now) ≤ deque_capacity tries.old }
    ensures seat { IsSeatOf marks.now seat.new }
    ensures scanned { HasScanned (H.marking heap.now) (all_targets (H.edge heap.now) cells.now)
        (tries.old.items, view_of seat.old) (tries.new.items, view_of seat.new) }
    ensures room { deque_capacity tries.new ≡ deque_capacity tries.old }
{
    if !have_fields(heap, cells) {
        return;
    }
    let mut found = Found::new();
    for place in cells {
        found.make_room(tries);
        scan(heap, marks, seat, *place, &mut found);
    }
    found.move_to(tries);
}

// Whether one of these cells has fields. They are read one behind the other, so that the waits for them overlap, and
// then they are at hand when they are scanned.
fn have_fields<H: Graph>(heap: &H, cells: &[Place]) -> bool
    requires { All (H.has heap.now) cells.now }
    ensures { result ≡ false → all_targets (H.edge heap.now) cells.now ≡ [] }
{
    let mut most = 0;
    for place in cells {
        most = heap.edge_count(*place).max(most);
    }
    most > 0
}

// Scans a cell.
fn scan<H: Graph, L: PlaceList>(
    heap: &H,
    marks: &Marks<L>,
    seat: &mut Seat,
    place: Place,
    found: &mut Found,
)
    requires seat { IsSeatOf marks.now seat.old × (0 < (view_of seat.old).parts) }
    requires serves { Serves (H.has heap.now) (H.edge heap.now) (H.marking heap.now) (first_of marks.now) L.places }
    requires listed { All L.places (targets (H.edge heap.now) place) }
    requires present { H.has heap.now place }
    requires room { length found.old + 8 ≤ 64 }
    ensures seat { IsSeatOf marks.now seat.new }
    ensures scanned { HasScanned (H.marking heap.now) (targets (H.edge heap.now) place)
        (found.old, view_of seat.old) (found.new, view_of seat.new) }
{
    for i in 0..heap.edge_count(place) {
        if let Some(target) = heap.edge_at(place, i) {
            find(heap, marks, seat, target, found);
        }
    }
}

// Adds a target to those that were found, unless it is in a marking zone and a look finds it black.
#[inline(always)]
fn find<H: Graph, L: PlaceList>(
    heap: &H,
    marks: &Marks<L>,
    seat: &mut Seat,
    target: Place,
    found: &mut Found,
)
    requires seat { IsSeatOf marks.now seat.old × (0 < (view_of seat.old).parts) }
    requires serves { Serves (H.has heap.now) (H.edge heap.now) (H.marking heap.now) (first_of marks.now) L.places }
    requires listed { L.places target }
    requires room { length found.old < 64 }
    ensures seat { IsSeatOf marks.now seat.new }
    ensures scanned { HasScanned (H.marking heap.now) (target ∷ [])
        (found.old, view_of seat.old) (found.new, view_of seat.new) }
{
    let is_black = heap.is_marking(target) && marks.is_black(seat, target);
    found.push_if(target, !is_black);
}
