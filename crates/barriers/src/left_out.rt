// Exposure while a collection is being prepared.
//
// Until its marking begins, the mark bits of a collection's zones count for nothing: some arenas are cleared, others
// still have the colours of the collection before. All other zones are in no collection, and their colours count. So a
// cell that these zones hold turns black with what it reaches among such cells, and a cell of a zone that is being
// prepared is left as it is, and is not followed: it will be marked anew. No arena is handed to sweeping, so all
// bits are the heap's.
ghost use Rattle.std.specs.Prelude.{[], ◌≡◌, ◌≤◌, ◌<◌, ◌+◌, ◌∷◌, ◌↔◌, IsTrue, List, Some, length};
ghost use Rattle.gz_names.specs.declared.numbers.Place.{Place as APlace};
ghost use Rattle.heap_core.specs.Shape.{HasEdge, IsDelegate, IsPresent};
ghost use Rattle.heap_core.specs.Edges.{edge_count};
ghost use Rattle.heap_core.specs.Heap.{without_delayed};
ghost use Rattle.barriers.specs.Pending.{pending};
ghost use Rattle.barriers.specs.Reached.{HasEntry};
ghost use Rattle.barriers.specs.Colours.{IsBlack};
ghost use Rattle.barriers.specs.Following.{Follows};
ghost use Rattle.barriers.specs.Parts.{IsPart};
ghost use Rattle.barriers.specs.Spreading.{Turns};
ghost use Rattle.barriers.specs.LeftOut.{Counts, IsFollowedLeftOut, LeftOutDone, MayExposeLeftOut, PreparingColours};
ghost use Rattle.barriers.specs.LeftOut.{PreparingWhile, ReachedLeftOut, StepLeftOut, TurnsLeftOut, TurnsWithLeftOut};

use crate::parts::{Part, entry_of};
use crate::pending::{next_pending, queue};
use cell_bits::Colour;
use gz_names::Place;
use heap_core::{Heap, Steps};
use mark_stack::{Pile, Stack};
use std::sync::ledger::Ledger;
use weak_maps::WeakEntry;

// Whether the colour of a cell counts, and it is black.
fn is_black(heap: &Heap, place: Place) -> bool
    requires present { IsPresent heap.now.shape place }
    requires sized { length heap.now.colours ≡ length heap.now.shape.arenas }
    ensures { IsTrue result ↔ Counts heap.now.shape place × IsBlack heap.now place }
{
    counts(heap, place) && heap.colour(place) == Colour::Black
}

// Whether the colour of a cell counts.
fn counts(heap: &Heap, place: Place) -> bool
    requires { IsPresent heap.now.shape place }
    ensures { IsTrue result ↔ Counts heap.now.shape place }
{
    !heap.is_prepared(heap.zone_at(place))
}

// Turns a cell black, whose colour counts. If it was not, it is to be followed.
fn blacken(heap: &mut Heap, stack: &mut Stack, place: Place)
    requires colours { PreparingColours (without_delayed heap.old) (pending heap.old stack.old) }
    requires present { IsPresent heap.old.shape place }
    requires counts { Counts heap.old.shape place }
    ensures { Turns (without_delayed heap.old) (pending heap.old stack.old) place
        (without_delayed heap.new) (pending heap.new stack.new) }
{
    if heap.mark_black(place) {
        queue(heap, stack, Pile::Wake, place);
    }
}

// Turns a cell black, if its colour counts.
fn turn(heap: &mut Heap, stack: &mut Stack, place: Place)
    requires colours { PreparingColours (without_delayed heap.old) (pending heap.old stack.old) }
    requires present { IsPresent heap.old.shape place }
    ensures { TurnsLeftOut (without_delayed heap.old) (pending heap.old stack.old) place
        (without_delayed heap.new) (pending heap.new stack.new) }
{
    if counts(heap, place) {
        blacken(heap, stack, place);
    }
}

// Turns a cell black if another one is, and the colours of both count.
fn turn_with(heap: &mut Heap, stack: &mut Stack, other: Place, place: Place)
    requires colours { PreparingColours (without_delayed heap.old) (pending heap.old stack.old) }
    requires other { IsPresent heap.old.shape other }
    requires present { IsPresent heap.old.shape place }
    ensures { TurnsWithLeftOut (without_delayed heap.old) (pending heap.old stack.old) other place
        (without_delayed heap.new) (pending heap.new stack.new) }
{
    if is_black(heap, other) {
        turn(heap, stack, place);
    }
}

// Turns black what the fields of a cell hold that is being followed.
fn scan<L: Ledger>(heap: &mut Heap, stack: &mut Stack, place: Place, steps: &mut Steps<L>)
    requires counted { heap.old.ledger ≡ Some L.name }
    requires black { IsBlack heap.old place }
    requires holds { PreparingWhile (place ∷ []) (without_delayed heap.old) (pending heap.old stack.old) }
    ensures step { StepLeftOut (λ y. HasEdge heap.old.shape place y × Counts heap.old.shape y) (place ∷ [])
        heap.old stack.old heap.new stack.new }
    ensures edges { (y : APlace) → HasEdge heap.old.shape place y → Counts heap.old.shape y → IsBlack heap.new y }
    ensures few { steps.new ≤ steps.old + 8 }
{
    let count = heap.edge_count(place);
    for i in 0..count {
        if let Some(target) = heap.reached_by(place, i, steps) {
            turn(heap, stack, target);
        }
    }
}

// Turns the key of an entry of a black map black if its delegate is.
fn follow_delegate(heap: &mut Heap, stack: &mut Stack, entry: &WeakEntry)
    requires holds { (followed : List APlace)
        × PreparingWhile followed (without_delayed heap.old) (pending heap.old stack.old) }
    requires entry { HasEntry heap.old.shape entry.now.map entry.now.key entry.now.value }
    requires black { IsBlack heap.old entry.now.map }
    ensures step { (followed : List APlace)
        → PreparingWhile followed (without_delayed heap.old) (pending heap.old stack.old)
        → StepLeftOut (ReachedLeftOut heap.old.shape (IsBlack heap.old)) followed
        heap.old stack.old heap.new stack.new }
    ensures key { (d : APlace) → IsDelegate heap.old.shape entry.now.key d → Counts heap.old.shape entry.now.key
        → Counts heap.old.shape d
        → Follows (without_delayed heap.new) (pending heap.new stack.new) entry.now.map d entry.now.key }
{
    if let Some(delegate) = heap.delegate_of(entry.map, entry.key) {
        turn_with(heap, stack, delegate, entry.key);
    }
}

// Turns the key of an entry black if its map and its delegate are, and its value if its map and its key are.
fn follow_entry(heap: &mut Heap, stack: &mut Stack, entry: &WeakEntry)
    requires holds { (followed : List APlace)
        × PreparingWhile followed (without_delayed heap.old) (pending heap.old stack.old) }
    requires entry { HasEntry heap.old.shape entry.now.map entry.now.key entry.now.value }
    ensures step { (followed : List APlace)
        → PreparingWhile followed (without_delayed heap.old) (pending heap.old stack.old)
        → StepLeftOut (ReachedLeftOut heap.old.shape (IsBlack heap.old)) followed
        heap.old stack.old heap.new stack.new }
    ensures followed { IsFollowedLeftOut (without_delayed heap.new) (pending heap.new stack.new)
        entry.now.map entry.now.key entry.now.value }
{
    if is_black(heap, entry.map) {
        follow_delegate(heap, stack, entry);
        turn_with(heap, stack, entry.key, entry.value);
    }
}

// Follows the entries of which a cell is a part.
fn follow_entries(heap: &mut Heap, stack: &mut Stack, part: Part, place: Place)
    requires { PreparingWhile (place ∷ []) (without_delayed heap.old) (pending heap.old stack.old) }
    ensures step { StepLeftOut (ReachedLeftOut heap.old.shape (IsBlack heap.old)) (place ∷ [])
        heap.old stack.old heap.new stack.new }
    ensures entries { (m k v : APlace) → HasEntry heap.old.shape m k v → IsPart heap.old.shape part place m k
        → IsFollowedLeftOut (without_delayed heap.new) (pending heap.new stack.new) m k v }
{
    let mut index = 0;
    while let Some(entry) = entry_of(heap, part, place, index) {
        follow_entry(heap, stack, &entry);
        index += 1;
    }
}

// Follows a cell that turned black: its edges, and the entries of which it is the map, the key or the delegate.
fn follow<L: Ledger>(heap: &mut Heap, stack: &mut Stack, place: Place, steps: &mut Steps<L>)
    requires counted { heap.old.ledger ≡ Some L.name }
    requires black { IsBlack heap.old place }
    requires counts { Counts heap.old.shape place }
    requires holds { PreparingWhile (place ∷ []) (without_delayed heap.old) (pending heap.old stack.old) }
    ensures step { StepLeftOut (ReachedLeftOut heap.old.shape (IsBlack heap.old)) []
        heap.old stack.old heap.new stack.new }
    ensures few { steps.new ≤ steps.old + 8 }
{
    scan(heap, stack, place, steps);
    follow_entries(heap, stack, Part::Map, place);
    follow_entries(heap, stack, Part::Key, place);
    follow_entries(heap, stack, Part::Delegate, place);
}

/// A cell is handed to the program: if its colour counts, it turns black, and so does all that it reaches by
/// cells whose colours count. It reads at most eight edges for each cell that turns black.
#[cold]
#[inline(never)]
pub(crate) fn expose_left_out<L: Ledger>(
    heap: &mut Heap,
    stack: &mut Stack,
    place: Place,
    steps: &mut Steps<L>,
)
    requires { MayExposeLeftOut L.name heap.old stack.old place }
    ensures { LeftOutDone place heap.old stack.old steps.old heap.new stack.new steps.new }
{
    turn(heap, stack, place);
    while let Some(woken) = next_pending(heap, stack, Pile::Wake) {
        follow(heap, stack, woken, steps);
    }
}
