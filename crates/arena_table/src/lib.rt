// The arenas of all zones, and the cells in them.
//
// [gczone] Arenas
//
// An arena is 64 slots for cells of one zone (js/src/gc/Heap.h has arenas of 4,096 bytes; 64 cells
// of one size are our choice). Arenas are numbered over all zones in the order in which they are
// made. A cell's place, arena and slot, stays the same while it lives, but where its zone is compacted. What
// marking and sweeping look at is kept apart from the cells (as mark bits are in Heap.h):
//
//     heads     [ 0 | 1 | 2 | .. ]    32 bytes an arena: the word of its allocated slots, its two
//                                     words of mark bits, its zone, whether it is out, and
//                                     whether it was given up
//     cells     [ 0 | 1 | 2 | .. ]    64 cells of 40 bytes an arena: kind, compartment, 8 fields of four
//                                     bytes, null past those that the cell has, and a number, which with
//                                     the kind and the compartment tells the name
//
// A slot has a cell where its bit of the allocation word is set; what a free slot's memory holds says
// nothing. So freeing the white cells of an arena is one step on a word:
//
//     alloc   1 1 0 1     taken in with freed 0 1 0 0:
//     freed   0 1 0 0     alloc 1 0 0 1, the reply has the name of the second slot's cell,
//                         and the next cell of the zone goes into the second slot
//
// A new cell goes to the lowest free slot of its zone's lowest arena that has one and is not out,
// else to slot 0 of a new arena. Lowest, so that the same commands and the same sweeping always give
// the same places; and old arenas fill up before memory grows. To find it no arena is walked: each
// zone has two sets of arenas, a bit an arena, with a word over each 64 words:
//
//     groups   . . 1 .                  which words are not 0
//     words    [0][0][0 0 1 1 ..][0]    which arenas are in the set
//
//     owned    all arenas of the zone: walks over a zone's arenas go by it, and pass whole words
//              without arenas by the words over them
//     open     those that are not out and have a free slot: its lowest takes the next cell
//
// One such set more, over all zones, has the arenas that are out: sweeping takes in its lowest. So what
// a walk costs depends on the arenas of its zones, and not on those of other zones.
//
// The piles of the mark stack have fixed room (mark_stack). A cell for which a pile has none is *delayed*:
// the bit of its slot is set in a mask of its arena, of which each arena has one a pile. Again a set has
// the arenas whose mask is not 0, so a delayed cell is found without a walk over the others, and how many
// there are is counted, so that a look at an empty set is one look at a number:
//
//     masks of a pile    [0][0][0 1 1 0 ..][0]     slots 1 and 2 of arena 2
//     arenas             [0 0 1 0 ..]              whose mask is not 0
//     count              2
//
// The masks take their memory with the arena, and lie apart from the heads, since they are looked at only
// where a pile was full or is empty. They are seen as three lists of places, as the piles are: what waits
// is what is on the pile and what is delayed for it. A bit may stand while its arena goes out and comes in;
// that marking leaves none there is its own rule, not the table's.
//
// A cell is made in two steps. `reserve_place` takes all memory that it needs, or leaves the table as
// it was, and keeps the place; `put_cell` then can't fail. In between come other reservations of the
// heap, as room on the mark stack, and where one of them fails nothing was made. A kept place lasts
// until the cell is put, or arenas go out or come in: what that would rule out is a cell put into an
// arena that went out meanwhile, white and not among the slots that the job lists.
//
// `hand_out` makes the arenas of a sweep group's zones *out*. Their bits are in flight from then on
// (cell_bits, `Flight`), and they take no cells, so an arena's allocation word is the same as it comes
// back. `take_in` ends that, with the freed slots and the bits with every wake. It puts names
// into a list that the caller lends, since a list of 64 names is dear to move, and takes no memory: the
// sets have a bit for the arena since it was made.
//
// Compaction (compact) has cells go to free slots of lower arenas of their zone. `move_cells` takes them there
// with their mark bits; then what leads to them is forwarded (`forward_in`, `forward`), as no slot can tell where
// its cell has gone: a free slot's memory says nothing. An arena that all cells have left may be given up:
// `give_up` takes it out of both sets of its zone, so that no walk meets it and no cell comes into it. Its number
// is not used again, since a report names arenas by number. Its memory stays as it is: the cells of all arenas are
// one list, and to give back a piece of it each path to a cell would have to pay a look-up.
#![tactic(auto)]

mod arena_sets;
mod arenas;
mod cells;
mod delayed;
mod index;
mod store;
mod walk;

pub use arenas::{Arenas, Jobs, Reserved};
