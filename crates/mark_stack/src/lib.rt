// The mark stack: cells whose edges are still to be followed.
//
// [gczone] Mark stack
//
// A cell is marked first and followed later. In between it is pending, and its place lies on one of
// three piles (SpiderMonkey keeps one stack for each mark colour, js/src/gc/GCMarker.h):
//
//     Black   black cells of zones that are marking
//     Gray    cells from which gray marking goes on, in the zones of the current sweep group
//     Wake    cells that the running call turned from gray to black outside the marking zones
//
// Black and Gray wait between calls, so a slice may stop at any cell. Wake doesn't: a program that
// was handed a cell may use it at once, so all that the cell reaches is black before that call
// returns.
//
// Why a pile for each colour: black work comes first, over all marking zones, and gray work only
// then, over the current group alone. A group may end only where neither has anything left. On one
// common pile the gray cells would lie under and over the black ones, and a slice would have to dig
// through them to tell whether black marking is over.
//
// A barrier runs inside reads and writes of a program, which have no answer for want of memory. So
// all memory is taken as the stack is made: each pile has room for 4,096 places, however large the
// heap is. A list is followed with one place on the pile, but a wide object may have more on it than
// that. `push` then answers false, and the caller keeps the cell in a mask of its arena until the
// pile is empty (arena_table, `delay`), as SpiderMonkey delays the marking of arenas:
//
//     pile, full     [ 0:3 | 0:4 | .. | 9:7 ]
//     arena 9        slots delayed for it: 8, 9, 10       9:8, 9:9 and 9:10 are pending as well
//
// What this rules out: a stack that grows with the heap. A graph of any shape is marked in the same
// room, and the cell that the pile has no room for is not lost.
//
// No contract says in which order places come back: what is pushed comes back once. Off the wake pile
// a body takes the last place, and off the others those below the last, up to eight of them in turn.
// So lists are followed side by side:
//
//     one list at a time     a1 a2 a3 ..     each cell is known only once the one before was read
//     in turn                a1 b1 c1 a2 b2 c2 ..     meanwhile the memory of others comes
#![tactic(auto)]

mod stack;

pub use stack::{PILE_LIMIT, Pile, Stack};
